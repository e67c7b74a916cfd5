ghost use Rattle.std.specs.Prelude.{◌≡◌, ◌++◌, List as Lst, slice_get, Some, IfOk, OnOk};
ghost use Rattle.logic_core.specs.declared.form.Atom.{Atom as Fact};
ghost use Rattle.vernacular_tree.specs.Contexts as contexts;
ghost use Rattle.vernacular_tree.specs.Rules.{IsProof, Closes, Proves};
ghost use Rattle.vernacular_tree.specs.declared.context.Line.TheVariants.{Cases};
ghost use Rattle.coherent_form.specs.Tasks.{proof_task};
ghost use Rattle.proof_text.specs.ScriptOf.{lists_in};
ghost use Rattle.proof_text.specs.Showing.{IsInside, ListProves};
ghost use Rattle.english_text.specs.English as english;
ghost use Rattle.english_text.specs.Telling.{branch_text, branches_text};

use crate::ends::{put_answer_end, put_split_line};
use crate::sentence::{put_case, put_contradiction, put_given, put_supposed};
use crate::steps::put_steps;
use coherent_form::Task;
use logic_core::Atom;
use proof_text::{case_facts, element_names, facts_at, named_facts, parameters_of, start_context};
use std::alloc::Global;
use text_core::{Bytes, List, Memory};
use vernacular_tree::{Body, Context, End, Line, Proof};

// Appends a body, so many cases deep. The context is as before.
#[cycle(body)]
fn put_body(
    alloc: Global,
    task: &Task,
    context: &mut Context,
    level: u32,
    body: &Body,
    out: &mut Bytes,
) -> Result<(), Memory>
    requires inside { IsInside task.now context.old }
    requires proves { IsProof (proof_task task.now) context.old body.now }
    ensures text { OnOk result (out.new ≡ out.old ++
        english.body_text task.now level body.now context.old) }
    ensures kept { OnOk result (context.new ≡ context.old) }
{
    let elements = context.elements;
    let lines = context.lines.len();
    put_steps(alloc, task, context, level, body.steps.as_slice(), out)?;
    put_end(alloc, task, context, level, &body.end, out)?;
    context.elements = elements;
    context.lines.truncate(lines);
    Ok(())
}

// Appends an end, so many cases deep. The context is as before.
#[cycle(body)]
fn put_end(
    alloc: Global,
    task: &Task,
    context: &mut Context,
    level: u32,
    end: &End,
    out: &mut Bytes,
) -> Result<(), Memory>
    requires inside { IsInside task.now context.old }
    requires closes { Closes (proof_task task.now) end.now context.old }
    ensures text { OnOk result (out.new ≡ out.old ++
        english.end_text task.now level end.now context.old) }
    ensures kept { OnOk result (context.new ≡ context.old) }
{
    match end {
        End::As { disjunct, args } => {
            put_answer_end(alloc, task, level, *disjunct, args.as_slice(), out)
        }
        End::Efq => put_contradiction(level, out),
        End::Cs { line, branches } => {
            put_split_line(alloc, task, context, level, *line, out)?;
            put_branches(alloc, task, context, level, *line, branches.as_slice(), out)
        }
    }
}

// Appends the cases of a split line, so many cases deep. The context is as before.
#[cycle(body)]
fn put_branches(
    alloc: Global,
    task: &Task,
    context: &mut Context,
    level: u32,
    line: u32,
    branches: &[Body],
    out: &mut Bytes,
) -> Result<(), Memory>
    requires inside { IsInside task.now context.old }
    requires prove { (lists : Lst (Lst Fact))
        × (slice_get context.old.lines line ≡ Some (Cases lists))
        × ListProves task.now branches.now lists context.old }
    ensures text { OnOk result (out.new ≡ out.old ++ branches_text task.now level context.old
        branches.now (lists_in (slice_get context.old.lines line))) }
    ensures kept { OnOk result (context.new ≡ context.old) }
{
    for (case, branch) in branches.iter().enumerate() {
        let facts = case_facts(alloc, context, line, case)?;
        put_branch(alloc, task, context, level, facts, branch, out)?;
    }
    Ok(())
}

// Appends a case with these facts, and its body one level deeper. The context is as before.
#[cycle(body)]
fn put_branch(
    alloc: Global,
    task: &Task,
    context: &mut Context,
    level: u32,
    facts: List<Atom>,
    branch: &Body,
    out: &mut Bytes,
) -> Result<(), Memory>
    requires inside { IsInside task.now (contexts.with_facts context.old facts) }
    requires proves { IsProof (proof_task task.now) (contexts.with_facts context.old facts)
        branch.now }
    ensures text { OnOk result (out.new ≡ out.old ++
        branch_text task.now level context.old branch.now facts) }
    ensures kept { OnOk result (context.new ≡ context.old) }
{
    let inner = level.checked_add(1).ok_or(Memory)?;
    let lines = context.lines.len();
    let shown = named_facts(alloc, task, facts.as_slice())?;
    put_case(level, &shown, out)?;
    context.lines.push(Line::Facts(facts))?;
    put_body(alloc, task, context, inner, branch, out)?;
    context.lines.truncate(lines);
    Ok(())
}

/// The English text of a proof of a task, with the printed names of all elements. `Memory` is want
/// of memory, or of numbers of 32 bits. Its time is linear in what is written, and in the goal's
/// variables for each end.
pub fn write_english(alloc: Global, task: &Task, proof: &Proof) -> Result<Bytes, Memory>
    requires { Proves (proof_task task.now) proof.now }
    ensures { IfOk result (λ bytes. bytes ≡ english.english_text task.now proof.now) }
{
    let mut out = Bytes::new(alloc);
    let parameters = parameters_of(alloc, task)?;
    let mut context = start_context(alloc, task, parameters.as_slice())?;
    let names = element_names(alloc, task, parameters.as_slice())?;
    put_given(names.as_slice(), &mut out)?;
    let facts = facts_at(
        alloc,
        parameters.as_slice(),
        task.goal().premises.as_slice(),
    )?;
    let named = named_facts(alloc, task, facts.as_slice())?;
    put_supposed(&named, &mut out)?;
    put_body(alloc, task, &mut context, 0, proof.body(), &mut out)?;
    Ok(out)
}
