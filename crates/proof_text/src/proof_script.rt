ghost use Rattle.std.specs.Prelude.{◌≡◌, List as Lst, slice_get, Some, IfOk, OnOk};
ghost use Rattle.logic_core.specs.declared.form.Atom.{Atom as Fact};
ghost use Rattle.vernacular_tree.specs.Contexts as contexts;
ghost use Rattle.vernacular_tree.specs.Rules.{IsProof, Closes, Proves};
ghost use Rattle.vernacular_tree.specs.declared.context.Line.TheVariants.{Cases};
ghost use Rattle.coherent_form.specs.Kept.{IsRight};
ghost use Rattle.coherent_form.specs.Tasks.{proof_task};
ghost use Rattle.proof_text.specs.Proper.{version_number};
ghost use Rattle.proof_text.specs.ScriptOf as script;
ghost use Rattle.proof_text.specs.Showing.{IsInside, ListProves, case_of as shown_case, each_case};
ghost use Rattle.proof_text.specs.declared.part.Edition.TheVariants.{First, Second};

use crate::body::{BodyText, CaseText, EndText};
use crate::given::{copied, counted, facts_at};
use crate::part::Edition;
use crate::printed::{element_names, named_facts};
use crate::script::Script;
use crate::step::steps_of;
use coherent_form::Task;
use logic_core::Atom;
use std::alloc::Global;
use text_core::{List, Memory};
use vernacular_tree::{Body, Context, End, Line, Proof};

/// The facts of a case of a line of cases, both counted from 0. `Memory` is want of memory.
pub fn case_facts(
    alloc: Global,
    context: &Context,
    line: u32,
    case: usize,
) -> Result<List<Atom>, Memory>
    requires { (lists : Lst (Lst Fact)) × (facts : Lst Fact)
        × (slice_get context.now.lines line ≡ Some (Cases lists))
        × (slice_get lists case ≡ Some facts) }
    ensures { IfOk result (λ facts.
        slice_get (script.lists_in (slice_get context.now.lines line)) case ≡ Some facts) }
{
    match context.lines.get(line as usize) {
        Some(Line::Cases(lists)) => copied(alloc, lists.as_slice()[case].as_slice()),
        _ => unreachable!(),
    }
}

// A body. The context is as before.
#[cycle(body)]
fn body_of(
    alloc: Global,
    edition: Edition,
    task: &Task,
    context: &mut Context,
    body: &Body,
) -> Result<BodyText, Memory>
    requires inside { IsInside task.now context.old }
    requires proves { IsProof (proof_task task.now) context.old body.now }
    ensures text { IfOk result (λ text.
        text ≡ script.body_of edition task.now body.now context.old) }
    ensures kept { OnOk result (context.new ≡ context.old) }
{
    let elements = context.elements;
    let lines = context.lines.len();
    let steps = steps_of(alloc, edition, task, context, body.steps.as_slice())?;
    let end = end_of(alloc, edition, task, context, &body.end)?;
    context.elements = elements;
    context.lines.truncate(lines);
    Ok(BodyText { steps, end })
}

// An end. The context is as before.
#[cycle(body)]
fn end_of(
    alloc: Global,
    edition: Edition,
    task: &Task,
    context: &mut Context,
    end: &End,
) -> Result<EndText, Memory>
    requires inside { IsInside task.now context.old }
    requires closes { Closes (proof_task task.now) end.now context.old }
    ensures text { IfOk result (λ text.
        text ≡ script.end_of edition task.now end.now context.old) }
    ensures kept { OnOk result (context.new ≡ context.old) }
{
    match end {
        End::As { disjunct, args } => Ok(EndText::As {
            disjunct: *disjunct,
            args: element_names(alloc, task, args.as_slice())?,
        }),
        End::Efq => Ok(EndText::Efq),
        End::Cs { line, branches } => Ok(EndText::Cs {
            line: *line,
            cases: cases_of(alloc, edition, task, context, *line, branches.as_slice())?,
        }),
    }
}

// The cases of a line. The context is as before.
#[cycle(body)]
fn cases_of(
    alloc: Global,
    edition: Edition,
    task: &Task,
    context: &mut Context,
    line: u32,
    branches: &[Body],
) -> Result<List<CaseText>, Memory>
    requires inside { IsInside task.now context.old }
    requires prove { (lists : Lst (Lst Fact))
        × (slice_get context.old.lines line ≡ Some (Cases lists))
        × ListProves task.now branches.now lists context.old }
    ensures text { IfOk result (λ cases. cases ≡ each_case edition task.now context.old
        branches.now (script.lists_in (slice_get context.old.lines line))) }
    ensures kept { OnOk result (context.new ≡ context.old) }
{
    let mut cases = List::new(alloc);
    for (case, branch) in branches.iter().enumerate() {
        let facts = case_facts(alloc, context, line, case)?;
        cases.push(case_of(alloc, edition, task, context, facts, branch)?)?;
    }
    Ok(cases)
}

// A case with these facts. The context is as before.
#[cycle(body)]
fn case_of(
    alloc: Global,
    edition: Edition,
    task: &Task,
    context: &mut Context,
    facts: List<Atom>,
    branch: &Body,
) -> Result<CaseText, Memory>
    requires inside { IsInside task.now (contexts.with_facts context.old facts) }
    requires proves { IsProof (proof_task task.now) (contexts.with_facts context.old facts)
        branch.now }
    ensures text { IfOk result (λ text.
        text ≡ shown_case edition task.now context.old branch.now facts) }
    ensures kept { OnOk result (context.new ≡ context.old) }
{
    let lines = context.lines.len();
    let shown = named_facts(alloc, task, facts.as_slice())?;
    context.lines.push(Line::Facts(facts))?;
    let body = body_of(alloc, edition, task, context, branch)?;
    context.lines.truncate(lines);
    Ok(CaseText {
        shown: Some(shown),
        body,
    })
}

/// The parameters of a task. `Memory` is want of memory.
pub fn parameters_of(alloc: Global, task: &Task) -> Result<List<u32>, Memory>
    ensures { IfOk result (λ elements. elements ≡ contexts.parameters (proof_task task.now)) }
{
    let count = task.goal().universals;
    counted(alloc, task.start_elements() - count, count)
}

/// The context with which a proof of a task begins, with its parameters. `Memory` is want of
/// memory.
pub fn start_context(alloc: Global, task: &Task, parameters: &[u32]) -> Result<Context, Memory>
    requires { parameters.now ≡ contexts.parameters (proof_task task.now) }
    ensures value { IfOk result (λ context.
        context ≡ contexts.start_context (proof_task task.now)) }
    ensures inside { IfOk result (λ context. IsInside task.now context) }
    ensures right { IsRight task.now }
{
    let mut lines = List::new(alloc);
    let premises = task.goal().premises.as_slice();
    lines.push(Line::Facts(facts_at(alloc, parameters, premises)?))?;
    Ok(Context {
        elements: task.start_elements(),
        lines,
    })
}

fn number_of(edition: Edition) -> u32
    ensures { result ≡ version_number edition }
{
    match edition {
        Edition::First => 1,
        Edition::Second => 2,
    }
}

fn script_in(alloc: Global, edition: Edition, task: &Task, proof: &Proof) -> Result<Script, Memory>
    requires { Proves (proof_task task.now) proof.now }
    ensures { IfOk result (λ written. written ≡ script.script_of edition task.now proof.now) }
{
    let parameters = parameters_of(alloc, task)?;
    let mut context = start_context(alloc, task, parameters.as_slice())?;
    let take = element_names(alloc, task, parameters.as_slice())?;
    let body = body_of(alloc, edition, task, &mut context, proof.body())?;
    Ok(Script::new(number_of(edition), take, body))
}

/// The script of version 1 for a proof of a task, with the printed names of all elements. `Memory`
/// is want of memory, or of numbers of 32 bits. Its time is linear in what is written, and in the
/// goal's premises.
pub fn script_of(alloc: Global, task: &Task, proof: &Proof) -> Result<Script, Memory>
    requires { Proves (proof_task task.now) proof.now }
    ensures { IfOk result (λ written. written ≡ script.script_of First task.now proof.now) }
{
    script_in(alloc, Edition::First, task, proof)
}

/// The script of version 2 for a proof of a task, with the printed names of all elements, a binding
/// for each universal variable in order, and all lines and facts shown. `Memory` is want of memory,
/// or of numbers of 32 bits. Its time is linear in what is written, and in the goal's premises.
pub fn second_of(alloc: Global, task: &Task, proof: &Proof) -> Result<Script, Memory>
    requires { Proves (proof_task task.now) proof.now }
    ensures { IfOk result (λ written. written ≡ script.script_of Second task.now proof.now) }
{
    script_in(alloc, Edition::Second, task, proof)
}
