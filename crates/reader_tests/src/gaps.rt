use crate::tasks::problem_of;
use coherent_form::Task;
use logic_core::Problem;
use proof_checker::{CheckRefusal, OpenNode, Why, check_open};
use proof_text::read_script;
use std::alloc::Global;
use std::test::Fail;
use vernacular_tree::Node;

// What is looked at of a node: its rule, with the form, the line and the cases, or the disjunct; or
// the number of a gap.
#[derive(Clone, Copy, PartialEq, Eq)]
enum Seen {
    Mp(u32),
    Cs(u32, u32),
    As(u32),
    Efq,
    Gap(u32),
}

// What is wanted of a script: its nodes, or the step and the check of its first fault.
enum Wanted {
    Nodes(&'static [Seen]),
    Fault(u32, Why),
}

const FACT: &[u8] = b"fof(a1,axiom,p(c)). fof(g,conjecture,p(c)).";

const CASES: &[u8] = b"fof(a1,axiom,p(c) | q(c)). fof(a2,axiom,! [X] : (p(X) => r(X))).
fof(a3,axiom,! [X] : (q(X) => r(X))). fof(g,conjecture,r(c)).";

// Problems with a script, and what is wanted of it.
const SCRIPTS: &[(&[u8], &[u8], Wanted)] = &[
    // a gap alone
    (
        FACT,
        b"vernacular 2. take []. gap 3.",
        Wanted::Nodes(&[Seen::Gap(3)]),
    ),
    // no gap
    (
        FACT,
        b"vernacular 1. take []. mp a1 [] new [] gives p(c). as 1 [].",
        Wanted::Nodes(&[Seen::Mp(0), Seen::As(1)]),
    ),
    // a gap in each case, behind other steps
    (
        CASES,
        b"vernacular 2. take []. mp a1 with [] new []. cs 1.
case. gap 5. case. mp a3 with [X = c] new []. gap 200. end.",
        Wanted::Nodes(&[
            Seen::Mp(0),
            Seen::Cs(1, 2),
            Seen::Gap(5),
            Seen::Mp(2),
            Seen::Gap(200),
        ]),
    ),
    // a fault behind a gap
    (
        CASES,
        b"vernacular 2. take []. mp a1 with [] new []. cs 1. case. gap 5. case. efq. end.",
        Wanted::Fault(4, Why::NoFalsum),
    ),
    // a fault before a gap
    (
        CASES,
        b"vernacular 2. take []. mp a2 with [X = c] new []. gap 5.",
        Wanted::Fault(1, Why::PremiseMissing(1)),
    ),
];

fn look_at(node: &OpenNode) -> Seen {
    match node {
        OpenNode::Rule(Node::Mp { form, .. }) => Seen::Mp(*form),
        OpenNode::Rule(Node::Cs { line, branches }) => Seen::Cs(*line, *branches),
        OpenNode::Rule(Node::As { disjunct, .. }) => Seen::As(*disjunct),
        OpenNode::Rule(Node::Efq) => Seen::Efq,
        OpenNode::Gap { within } => Seen::Gap(*within),
    }
}

/// Whether nodes look like these.
fn are_seen(nodes: &[OpenNode], wanted: &[Seen]) -> bool {
    nodes.len() == wanted.len()
        && nodes
            .iter()
            .zip(wanted)
            .all(|(node, wanted)| look_at(node) == *wanted)
}

/// Whether a script has what is wanted of it.
fn has(alloc: Global, task: &Task, text: &[u8], wanted: &Wanted) -> bool {
    if text.len() > 1_000_000 {
        return false;
    }
    match read_script(alloc, text) {
        Ok(script) => match (check_open(alloc, task, &script), wanted) {
            (Ok(nodes), Wanted::Nodes(each)) => are_seen(nodes.as_slice(), each),
            (Err(CheckRefusal::Step(refusal)), Wanted::Fault(step, why)) => {
                refusal.step == *step && refusal.why == *why
            }
            _ => false,
        },
        Err(_) => false,
    }
}

/// Whether a script has what is wanted of it, for the task of a problem.
fn has_for(alloc: Global, problem: &Problem, text: &[u8], wanted: &Wanted) -> bool {
    match Task::build(alloc, problem) {
        Ok(task) => has(alloc, &task, text, wanted),
        Err(_) => false,
    }
}

#[test]
fn each_script_with_gaps_has_its_nodes_or_a_fault(rt: HostRuntime) -> Result<(), Fail> {
    for (problem, text, wanted) in SCRIPTS {
        assert!(rt;
            match problem_of(rt.alloc(), problem) {
                Some(problem) => has_for(rt.alloc(), &problem, text, wanted),
                None => false,
            }
        );
    }
    Ok(())
}
