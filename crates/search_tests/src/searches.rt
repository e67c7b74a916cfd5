ghost use Rattle.std.specs.Prelude.{◌≤◌};
ghost use Rattle.kept_context.specs.Lent.{IsContextOf, fact_count, arg_count};

use crate::contexts::{Known, context_of};
use crate::problems::problem_of;
use coherent_form::Task;
use std::alloc::Global;
use std::test::Fail;
use trail_search::Searcher;
use vernacular_tree::{Context, Node, Proof};

/// How many rule applications a smallest proof from a context has, where they are at most `most`.
pub(crate) fn least(alloc: Global, task: &Task, context: &Context, most: u32) -> Option<u32>
    requires most { most ≤ 200 }
    requires lent { IsContextOf task.now context.now }
    requires few_facts { fact_count context.now ≤ 1024 }
    requires few_args { arg_count context.now ≤ 32768 }
{
    match Searcher::new(alloc, task, most, 1024, 32768) {
        Ok(mut searcher) => searcher.find(context, most),
        Err(_) => None,
    }
}

// In the order of their first occurrence the symbols p, r, q, s and t have the numbers 1 to 5.
const PROBLEM: &[u8] = b"fof(a1,axiom,p => r). fof(a2,axiom,q => r). fof(a3,axiom,s => $false).
fof(a4,axiom,t => t). fof(g,conjecture,r).";

// The lines of a context, the greatest number of rule applications of a proof from it, and how many
// a smallest one has.
const CONTEXTS: &[(Known, Known, u32, Option<u32>)] = &[
    // a fact is enough, and cases stay
    (Known::Cases(1, 3), Known::Fact(1), 200, Some(2)),
    (Known::Fact(2), Known::Cases(1, 3), 200, Some(1)),
    // each case goes to r by a form of its own
    (Known::Cases(1, 3), Known::Fact(5), 200, Some(5)),
    (Known::Cases(1, 3), Known::Fact(5), 4, None),
    // the second case is r
    (Known::Fact(5), Known::Cases(1, 2), 200, Some(4)),
    // of two splits, the one with fewer; its second case is closed by falsehood
    (Known::Cases(1, 3), Known::Cases(2, 4), 200, Some(4)),
    // falsehood is enough
    (Known::Cases(1, 3), Known::Falsum, 200, Some(1)),
    (Known::Falsum, Known::Falsum, 0, None),
    // nothing leads from t
    (Known::Cases(1, 5), Known::Cases(5, 3), 6, None),
    (Known::Fact(5), Known::Fact(5), 200, None),
];

// Whether a smallest proof from the context of two lines is so large.
fn is_least(
    alloc: Global,
    task: &Task,
    first: Known,
    second: Known,
    most: u32,
    size: Option<u32>,
) -> bool {
    if most > 200 {
        return false;
    }
    match context_of(alloc, task, first, second) {
        Some(context) => least(alloc, task, &context, most) == size,
        None => false,
    }
}

// Whether each context has a smallest proof of its size.
fn are_least(alloc: Global, task: &Task) -> bool {
    for (first, second, most, size) in CONTEXTS {
        if !is_least(alloc, task, *first, *second, *most, *size) {
            return false;
        }
    }
    true
}

#[test]
fn each_context_has_a_smallest_proof_of_its_size(rt: HostRuntime) -> Result<(), Fail> {
    assert!(rt;
        match task_of(rt.alloc(), PROBLEM) {
            Some(task) => are_least(rt.alloc(), &task),
            None => false,
        }
    );
    Ok(())
}

/// The task of a problem's text; none where it is refused.
pub(crate) fn task_of(alloc: Global, text: &[u8]) -> Option<Task> {
    let problem = problem_of(alloc, text)?;
    Task::build(alloc, &problem).ok()
}

// Whether a searcher finds, keeps what it found, and forgets it where it finds nothing.
fn is_kept(alloc: Global, task: &Task, context: &Context) -> bool
    requires lent { IsContextOf task.now context.now }
    requires few_facts { fact_count context.now ≤ 1024 }
    requires few_args { arg_count context.now ≤ 32768 }
{
    let Ok(mut searcher) = Searcher::new(alloc, task, 5, 1024, 32768) else {
        return false;
    };
    let before = searcher.found();
    let first = searcher.find(context, 5);
    let kept = searcher.found();
    let second = searcher.find(context, 4);
    let forgotten = searcher.found();
    let third = searcher.find(context, 5);
    before.is_none()
        && first == Some(5)
        && kept == first
        && second.is_none()
        && forgotten.is_none()
        && third == first
}

// What is looked at of a rule application.
#[derive(Clone, Copy, PartialEq, Eq)]
enum Seen {
    Mp(u32),
    Cs(u32, u32),
    As(u32),
    Efq,
}

fn look_at(node: &Node) -> Seen {
    match node {
        Node::Mp { form, .. } => Seen::Mp(*form),
        Node::Cs { line, branches } => Seen::Cs(*line, *branches),
        Node::As { disjunct, .. } => Seen::As(*disjunct),
        Node::Efq => Seen::Efq,
    }
}

// The smallest proof from the cases p and q.
const SPLIT: &[Seen] = &[
    Seen::Cs(0, 2),
    Seen::Mp(0),
    Seen::As(1),
    Seen::Mp(1),
    Seen::As(1),
];

// Whether a proof is that one.
fn is_split(alloc: Global, proof: &Proof) -> bool {
    match proof.to_nodes(alloc) {
        Ok(nodes) => nodes
            .as_slice()
            .iter()
            .map(look_at)
            .eq(SPLIT.iter().copied()),
        Err(_) => false,
    }
}

// Whether the proof that is found from a context is that one.
fn finds_split(alloc: Global, task: &Task, context: &Context) -> bool
    requires lent { IsContextOf task.now context.now }
    requires few_facts { fact_count context.now ≤ 1024 }
    requires few_args { arg_count context.now ≤ 32768 }
{
    let Ok(mut searcher) = Searcher::new(alloc, task, 5, 1024, 32768) else {
        return false;
    };
    if searcher.find(context, 5).is_none() {
        return false;
    }
    match searcher.proof(alloc) {
        Ok(proof) => is_split(alloc, &proof),
        Err(_) => false,
    }
}

// Whether a proof from cases is kept.
fn is_split_kept(alloc: Global, task: &Task) -> bool {
    match context_of(alloc, task, Known::Cases(1, 3), Known::Fact(5)) {
        Some(context) => is_kept(alloc, task, &context) && finds_split(alloc, task, &context),
        None => false,
    }
}

#[test]
fn a_proof_that_is_found_is_kept(rt: HostRuntime) -> Result<(), Fail> {
    assert!(rt;
        match task_of(rt.alloc(), PROBLEM) {
            Some(task) => is_split_kept(rt.alloc(), &task),
            None => false,
        }
    );
    Ok(())
}
