//! The ends of a body.

ghost use Rattle.std.specs.Prelude.{◌≡◌, ◌<◌, ◌-◌, ◌++◌, List as Lst, slice_get, Some, IfOk, OnOk};
ghost use Rattle.logic_core.specs.declared.form.Atom.{Atom as Fact};
ghost use Rattle.vernacular_tree.specs.declared.context.Line.TheVariants.{Cases};
ghost use Rattle.proof_text.specs.Printing.{printed_facts, printed_line};
ghost use Rattle.proof_text.specs.ScriptOf.{lists_in};
ghost use Rattle.proof_text.specs.Showing.{IsInside};
ghost use Rattle.english_text.specs.English as english;
ghost use Rattle.english_text.specs.Sentences.{answer_text, split_text};

use crate::sentence::{put_answer, put_split};
use coherent_form::Task;
use proof_text::{NamedAtom, Shown, facts_at, named_facts, named_line, parameters_of};
use std::alloc::Global;
use text_core::{Bytes, List, Memory};
use vernacular_tree::Context;

// The facts of a disjunct of the goal, counted from 1, at the parameters and these elements.
fn answer_facts(
    alloc: Global,
    task: &Task,
    disjunct: u32,
    args: &[u32],
) -> Result<List<NamedAtom>, Memory>
    requires from_one { 0 < disjunct }
    requires there { (atoms : Lst Fact)
        × (slice_get task.now.goal.disjuncts (disjunct - 1) ≡ Some atoms) }
    ensures { IfOk result (λ facts.
        facts ≡ printed_facts task.now (english.answer_facts task.now disjunct args.now)) }
{
    let mut elements = parameters_of(alloc, task)?;
    elements.extend_from_slice(args)?;
    let atoms = &task.goal().disjuncts.as_slice()[disjunct as usize - 1];
    let facts = facts_at(alloc, elements.as_slice(), atoms.as_slice())?;
    named_facts(alloc, task, facts.as_slice())
}

/// Appends the sentence of an end by a disjunct of the goal, counted from 1, with these elements.
pub(crate) fn put_answer_end(
    alloc: Global,
    task: &Task,
    level: u32,
    disjunct: u32,
    args: &[u32],
    out: &mut Bytes,
) -> Result<(), Memory>
    requires from_one { 0 < disjunct }
    requires there { (atoms : Lst Fact)
        × (slice_get task.now.goal.disjuncts (disjunct - 1) ≡ Some atoms) }
    ensures { OnOk result (out.new ≡ out.old ++ answer_text level
        (printed_facts task.now (english.answer_facts task.now disjunct args.now))) }
{
    let facts = answer_facts(alloc, task, disjunct, args)?;
    put_answer(level, &facts, out)
}

// The line of a split.
fn split_line(alloc: Global, task: &Task, context: &Context, line: u32) -> Result<Shown, Memory>
    requires inside { IsInside task.now context.now }
    requires there { (lists : Lst (Lst Fact))
        × (slice_get context.now.lines line ≡ Some (Cases lists)) }
    ensures { IfOk result (λ shown. shown ≡ printed_line task.now
        (Cases (lists_in (slice_get context.now.lines line)))) }
{
    named_line(alloc, task, &context.lines.as_slice()[line as usize])
}

/// Appends the sentence of a split of the line with this number.
pub(crate) fn put_split_line(
    alloc: Global,
    task: &Task,
    context: &Context,
    level: u32,
    line: u32,
    out: &mut Bytes,
) -> Result<(), Memory>
    requires inside { IsInside task.now context.now }
    requires there { (lists : Lst (Lst Fact))
        × (slice_get context.now.lines line ≡ Some (Cases lists)) }
    ensures { OnOk result (out.new ≡ out.old ++ split_text level (printed_line task.now
        (Cases (lists_in (slice_get context.now.lines line))))) }
{
    let line = split_line(alloc, task, context, line)?;
    put_split(level, &line, out)
}
