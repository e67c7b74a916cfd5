ghost use Rattle.std.specs.Prelude.{◌≡◌, ◌+◌, ◌<◌, ◌≤◌, ◌^◌, ◌∷◌, Bool, false, List as Lst, [], Some, slice_get, map, length, IfOk, IfErr, OnOk};
ghost use Rattle.logic_core.specs.declared.form.Atom.{Atom as AtomValue};
ghost use Rattle.proof_text.specs.declared.body.CaseText.{CaseText as Case};
ghost use Rattle.proof_text.specs.declared.body.EndText as ends;
ghost use Rattle.proof_text.specs.Sizes.{size, end_size};
ghost use Rattle.coherent_form.specs.Tasks.{CitedTask};
ghost use Rattle.proof_checker.specs.Faults.{EndFault, IsSplit};
ghost use Rattle.proof_checker.specs.Kept as kept;
ghost use Rattle.proof_checker.specs.Opened.{EndOpens, BodyOpens};
ghost use Rattle.proof_checker.specs.Running.{RefusesBy, StepsRun, BodyFault, CasesAre, CasesFail, Adds, sizes_of};
ghost use Rattle.proof_checker.specs.declared.open_node.OpenNode.TheVariants as open_node;

use crate::fact::{HeldLine, copy_facts};
use crate::finish::{check_answer, check_split};
use crate::halt::Halt;
use crate::open_node::OpenNode;
use crate::refusal::{CheckRefusal, Rule, Why, refused};
use crate::step::check_step;
use crate::trail::Trail;
use coherent_form::Task;
use proof_text::{BodyText, CaseText, EndText};
use std::alloc::Global;
use text_core::{List, Memory, Name};
use vernacular_tree::Node;

// The number of the step that is told next.
fn next_number(nodes: &List<OpenNode>) -> u32
    requires { length nodes.now + 1 < 2 ^ 32 }
    ensures { result ≡ length nodes.now + 1 }
{
    nodes.len() as u32 + 1
}

// Takes the steps of a body, and tells each as a node.
fn check_steps(
    alloc: Global,
    task: &Task,
    trail: &mut Trail,
    nodes: &mut List<OpenNode>,
    text: &BodyText,
) -> Result<(), CheckRefusal>
    requires kept { kept.IsKept task.now trail.old }
    requires few { length nodes.old + length text.now.steps + 1 < 2 ^ 32 }
    ensures ok { OnOk result (StepsRun
        task.now text.now.steps trail.old trail.new nodes.old nodes.new) }
    ensures err { IfErr result (λ refusal. (gaps : Bool) → RefusesBy (BodyFault
        task.now gaps text.now (length nodes.old + 1) (kept.branch_of trail.old)) refusal) }
{
    for step in text.steps.as_slice() {
        match check_step(alloc, task, trail, step) {
            Ok(step) => nodes.push(OpenNode::Rule(Node::Mp {
                form: step.form,
                args: step.args,
            }))?,
            Err(halt) => return Err(refused(next_number(nodes), Rule::Mp, halt)),
        }
    }
    Ok(())
}

// Goes on with a case of a line.
fn enter_case(alloc: Global, trail: &mut Trail, line: u32, case: usize) -> Result<(), Memory>
    requires { (t : CitedTask) × kept.IsKept t trail.old }
    ensures { OnOk result (kept.HasCase line case trail.old trail.new) }
{
    let facts = match trail.line(line) {
        Some(HeldLine::Cases(lists)) => match lists.get(case) {
            Some(facts) => copy_facts(alloc, facts.as_slice())?,
            None => return Err(Memory),
        },
        _ => return Err(Memory),
    };
    trail.push_line(HeldLine::Facts(facts))
}

// Tells the nodes of the cases of a split.
#[cycle(check)]
fn check_cases(
    alloc: Global,
    task: &Task,
    gaps: bool,
    trail: &mut Trail,
    nodes: &mut List<OpenNode>,
    line: u32,
    cases: &[CaseText],
) -> Result<(), CheckRefusal>
    requires kept { kept.IsKept task.now trail.old }
    requires few { length nodes.old + sizes_of cases.now + 1 < 2 ^ 32 }
    ensures ok { OnOk result ((lists : Lst (Lst AtomValue))
        → IsSplit task.now (kept.branch_of trail.old) line
        (map (λ (case : Case). case.shown) cases.now) lists
        → Adds (λ more. CasesAre task.now gaps cases.now lists more (kept.branch_of trail.old))
        nodes.old nodes.new) }
    ensures same { OnOk result (trail.new ≡ trail.old) }
    ensures err { IfErr result (λ refusal. (lists : Lst (Lst AtomValue))
        → IsSplit task.now (kept.branch_of trail.old) line
        (map (λ (case : Case). case.shown) cases.now) lists
        → RefusesBy (CasesFail task.now gaps cases.now lists (length nodes.old + 1)
        (kept.branch_of trail.old)) refusal) }
{
    // No two forms are cited in the same way.
    task.citations_differ();
    let point = trail.point();
    for at in 0..cases.len() {
        let case = &cases[at];
        enter_case(alloc, trail, line, at)?;
        check_body(alloc, task, gaps, trail, nodes, &case.body)?;
        trail.back(point);
    }
    Ok(())
}

// The node of an end by a disjunct of the goal.
fn end_by_answer(
    alloc: Global,
    task: &Task,
    trail: &Trail,
    disjunct: u32,
    texts: &[Name],
    number: u32,
) -> Result<OpenNode, CheckRefusal>
    requires kept { kept.IsKept task.now trail.now }
    ensures ok { IfOk result (λ node. EndOpens task.now false
        (ends.As disjunct texts.now) (node ∷ []) (kept.branch_of trail.now)) }
    ensures err { IfErr result (RefusesBy (EndFault task.now false
        (ends.As disjunct texts.now) number (kept.branch_of trail.now))) }
{
    match check_answer(alloc, task, trail, disjunct, texts) {
        Ok(args) => Ok(OpenNode::Rule(Node::As { disjunct, args })),
        Err(halt) => Err(refused(number, Rule::As, halt)),
    }
}

// The node of an end by falsehood.
fn end_by_falsum(task: &Task, trail: &Trail, number: u32) -> Result<OpenNode, CheckRefusal>
    requires kept { kept.IsKept task.now trail.now }
    ensures ok { IfOk result (λ node. EndOpens task.now false
        ends.Efq (node ∷ []) (kept.branch_of trail.now)) }
    ensures err { IfErr result (RefusesBy (EndFault task.now false
        ends.Efq number (kept.branch_of trail.now))) }
{
    if trail.has_falsum() {
        Ok(OpenNode::Rule(Node::Efq))
    } else {
        Err(refused(number, Rule::Efq, Halt::Fault(Why::NoFalsum)))
    }
}

// The node of a gap, where one may stand.
fn end_by_gap(
    task: &Task,
    gaps: bool,
    trail: &Trail,
    within: u32,
    number: u32,
) -> Result<OpenNode, CheckRefusal>
    ensures ok { IfOk result (λ node. EndOpens task.now gaps
        (ends.Gap within) (node ∷ []) (kept.branch_of trail.now)) }
    ensures err { IfErr result (RefusesBy (EndFault task.now gaps
        (ends.Gap within) number (kept.branch_of trail.now))) }
{
    if gaps {
        Ok(OpenNode::Gap { within })
    } else {
        Err(refused(number, Rule::Gap, Halt::Fault(Why::GapOpen)))
    }
}

// Tells the nodes of an end by a split.
#[cycle(check)]
fn end_by_split(
    alloc: Global,
    task: &Task,
    gaps: bool,
    trail: &mut Trail,
    nodes: &mut List<OpenNode>,
    line: u32,
    cases: &[CaseText],
) -> Result<(), CheckRefusal>
    requires kept { kept.IsKept task.now trail.old }
    requires few { length nodes.old + sizes_of cases.now + 2 < 2 ^ 32 }
    ensures ok { OnOk result (Adds (λ more. EndOpens task.now gaps
        (ends.Cs line cases.now) more (kept.branch_of trail.old)) nodes.old nodes.new) }
    ensures same { OnOk result (trail.new ≡ trail.old) }
    ensures err { IfErr result (RefusesBy (EndFault task.now gaps
        (ends.Cs line cases.now) (length nodes.old + 1) (kept.branch_of trail.old))) }
{
    if let Err(halt) = check_split(task, trail, line, cases) {
        return Err(refused(next_number(nodes), Rule::Cs, halt));
    }
    let branches = cases.len() as u32;
    nodes.push(OpenNode::Rule(Node::Cs { line, branches }))?;
    check_cases(alloc, task, gaps, trail, nodes, line, cases)
}

// Tells the nodes of an end.
#[cycle(check)]
fn check_end(
    alloc: Global,
    task: &Task,
    gaps: bool,
    trail: &mut Trail,
    nodes: &mut List<OpenNode>,
    end: &EndText,
) -> Result<(), CheckRefusal>
    requires kept { kept.IsKept task.now trail.old }
    requires few { length nodes.old + end_size end.now + 1 < 2 ^ 32 }
    ensures ok { OnOk result (Adds (λ more. EndOpens task.now gaps end.now more
        (kept.branch_of trail.old)) nodes.old nodes.new) }
    ensures same { OnOk result (trail.new ≡ trail.old) }
    ensures err { IfErr result (RefusesBy
        (EndFault task.now gaps end.now (length nodes.old + 1) (kept.branch_of trail.old))) }
{
    let number = next_number(nodes);
    let node = match end {
        EndText::As { disjunct, args } => {
            end_by_answer(alloc, task, trail, *disjunct, args.as_slice(), number)?
        }
        EndText::Efq => end_by_falsum(task, trail, number)?,
        EndText::Gap { within } => end_by_gap(task, gaps, trail, *within, number)?,
        EndText::Cs { line, cases } => {
            return end_by_split(alloc, task, gaps, trail, nodes, *line, cases.as_slice());
        }
    };
    nodes.push(node)?;
    Ok(())
}

/// Tells the nodes of a body of a script, where a gap may stand if `gaps` is true.
#[cycle(check)]
pub(crate) fn check_body(
    alloc: Global,
    task: &Task,
    gaps: bool,
    trail: &mut Trail,
    nodes: &mut List<OpenNode>,
    text: &BodyText,
) -> Result<(), CheckRefusal>
    requires kept { kept.IsKept task.now trail.old }
    requires few { length nodes.old + size text.now + 1 < 2 ^ 32 }
    ensures ok { OnOk result (Adds (λ more. BodyOpens task.now gaps text.now more
        (kept.branch_of trail.old)) nodes.old nodes.new) }
    ensures grows { OnOk result (kept.Grows trail.old trail.new) }
    ensures err { IfErr result (RefusesBy (BodyFault
        task.now gaps text.now (length nodes.old + 1) (kept.branch_of trail.old))) }
{
    check_steps(alloc, task, trail, nodes, text)?;
    check_end(alloc, task, gaps, trail, nodes, &text.end)
}
