//! The steps and the ends of a body.

ghost use Rattle.std.specs.Prelude.{◌≡◌, ◌<◌, ◌-◌, ◌≤◌, ◌++◌, List as Lst, map, slice_get, Some, IfOk, OnOk};
ghost use Rattle.logic_core.specs.declared.form.Atom.{Atom as Fact};
ghost use Rattle.vernacular_tree.specs.Contexts.{parameters};
ghost use Rattle.coherent_form.specs.Kept.{IsRight};
ghost use Rattle.coherent_form.specs.Tasks.{proof_task};
ghost use Rattle.proof_text.specs.Marks.{most_number};
ghost use Rattle.proof_text.specs.Printing.{printed};
ghost use Rattle.proof_text.specs.ScriptOf as script;
ghost use Rattle.proof_text.specs.Showing.{MayStep, MaySteps};
ghost use Rattle.isar_text.specs.Bodies as bodies;
ghost use Rattle.isar_text.specs.FirstLines.{first_falsum};
ghost use Rattle.isar_text.specs.Firsts.{AreFirst, Grows};
ghost use Rattle.isar_text.specs.KeptBranch as kept;
ghost use Rattle.isar_text.specs.Telling as telling;

use crate::branch::Branch;
use crate::proof_lines::{StepLine, put_as, put_efq, put_step};
use coherent_form::Task;
use proof_text::{Addition, element_names, parameters_of};
use std::alloc::Global;
use text_core::{Bytes, List, Memory};
use vernacular_tree::Mp;

// What the line of a step tells. The branch goes on behind it.
fn step_line(alloc: Global, task: &Task, branch: &mut Branch, step: &Mp) -> Result<StepLine, Memory>
    requires kept { kept.IsKept task.now branch.old }
    requires may { MayStep task.now branch.old.context step.now }
    ensures line { IfOk result (λ line.
        line ≡ telling.step_line task.now branch.old.context step.now) }
    ensures after { OnOk result (branch.new.context ≡
        script.after_step_of task.now branch.old.context step.now) }
    ensures kept { OnOk result (kept.IsKept task.now branch.new) }
    ensures grows { OnOk result (Grows branch.old.firsts branch.new.firsts) }
    ensures right { IsRight task.now }
{
    let form = &task.forms().as_slice()[step.form as usize];
    let number = branch.next_line()?;
    let used = branch.lines_with(alloc, step.args.as_slice(), form.premises.as_slice())?;
    let args = element_names(alloc, task, step.args.as_slice())?;
    let Addition { fresh, line } = branch.take(alloc, task, step)?;
    Ok(StepLine {
        number,
        fresh,
        line,
        form: step.form,
        used,
        args,
    })
}

// Appends the line of a step, so many cases deep. The branch goes on behind it.
fn put_mp(
    alloc: Global,
    task: &Task,
    level: u32,
    branch: &mut Branch,
    step: &Mp,
    out: &mut Bytes,
) -> Result<(), Memory>
    requires kept { kept.IsKept task.now branch.old }
    requires may { MayStep task.now branch.old.context step.now }
    ensures text { OnOk result (out.new ≡ out.old ++
        telling.mp_text level task.now branch.old.context step.now) }
    ensures after { OnOk result (branch.new.context ≡
        script.after_step_of task.now branch.old.context step.now) }
    ensures kept { OnOk result (kept.IsKept task.now branch.new) }
    ensures grows { OnOk result (Grows branch.old.firsts branch.new.firsts) }
{
    let line = step_line(alloc, task, branch, step)?;
    put_step(alloc, level, &line, out)
}

/// Appends the lines of steps, so many cases deep. The branch goes on behind them.
pub(crate) fn put_steps(
    alloc: Global,
    task: &Task,
    level: u32,
    branch: &mut Branch,
    steps: &[Mp],
    out: &mut Bytes,
) -> Result<(), Memory>
    requires kept { kept.IsKept task.now branch.old }
    requires may { MaySteps task.now steps.now branch.old.context }
    ensures text { OnOk result (out.new ≡ out.old ++
        bodies.steps_text level task.now steps.now branch.old.context) }
    ensures after { OnOk result (branch.new.context ≡
        script.after_steps task.now steps.now branch.old.context) }
    ensures kept { OnOk result (kept.IsKept task.now branch.new) }
    ensures grows { OnOk result (Grows branch.old.firsts branch.new.firsts) }
{
    for step in steps {
        put_mp(alloc, task, level, branch, step, out)?;
    }
    Ok(())
}

// The first lines with the atoms of a disjunct of the goal, counted from 1, at the parameters and
// these elements.
fn answer_lines(
    alloc: Global,
    task: &Task,
    branch: &Branch,
    disjunct: u32,
    args: &[u32],
) -> Result<List<u32>, Memory>
    requires kept { kept.IsKept task.now branch.now }
    requires from_one { 0 < disjunct }
    requires there { (atoms : Lst Fact)
        × (slice_get task.now.goal.disjuncts (disjunct - 1) ≡ Some atoms) }
    ensures { IfOk result (λ lines. lines ≡ bodies.lines_with branch.now.context
        (parameters (proof_task task.now) ++ args.now) (bodies.disjunct_of task.now disjunct)) }
{
    let mut elements = parameters_of(alloc, task)?;
    elements.extend_from_slice(args)?;
    let atoms = &task.goal().disjuncts.as_slice()[disjunct as usize - 1];
    branch.lines_with(alloc, elements.as_slice(), atoms.as_slice())
}

/// Appends the end by a disjunct of the goal, counted from 1, with these elements.
pub(crate) fn put_answer(
    alloc: Global,
    task: &Task,
    level: u32,
    branch: &Branch,
    disjunct: u32,
    args: &[u32],
    out: &mut Bytes,
) -> Result<(), Memory>
    requires kept { kept.IsKept task.now branch.now }
    requires from_one { 0 < disjunct }
    requires there { (atoms : Lst Fact)
        × (slice_get task.now.goal.disjuncts (disjunct - 1) ≡ Some atoms) }
    ensures text { OnOk result (out.new ≡ out.old ++ bodies.as_text level
        (bodies.lines_with branch.now.context (parameters (proof_task task.now) ++ args.now)
        (bodies.disjunct_of task.now disjunct)) disjunct (map (printed task.now) args.now)) }
    ensures fits { OnOk result (disjunct ≤ most_number) }
{
    let lines = answer_lines(alloc, task, branch, disjunct, args)?;
    let names = element_names(alloc, task, args)?;
    put_as(
        alloc,
        level,
        lines.as_slice(),
        disjunct,
        names.as_slice(),
        out,
    )
}

/// Appends the end by falsehood.
pub(crate) fn put_falsum(
    alloc: Global,
    level: u32,
    branch: &Branch,
    out: &mut Bytes,
) -> Result<(), Memory>
    requires { AreFirst branch.now.context.lines branch.now.firsts }
    ensures { OnOk result (out.new ≡ out.old ++
        bodies.efq_text level (first_falsum branch.now.context.lines)) }
{
    put_efq(alloc, level, branch.firsts.first_falsum(), out)
}
