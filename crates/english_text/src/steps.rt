ghost use Rattle.std.specs.Prelude.{◌≡◌, ◌++◌, OnOk};
ghost use Rattle.proof_text.specs.ScriptOf as script;
ghost use Rattle.proof_text.specs.Showing.{IsInside, MayStep, MaySteps};
ghost use Rattle.english_text.specs.English as english;

use crate::sentence::put_mp;
use coherent_form::Task;
use proof_text::{Addition, element_names, take_step};
use std::alloc::Global;
use text_core::{Bytes, Memory};
use vernacular_tree::{Context, Mp};

// Appends the sentence of a step, so many cases deep. The context goes on behind it.
fn put_step(
    alloc: Global,
    task: &Task,
    context: &mut Context,
    level: u32,
    step: &Mp,
    out: &mut Bytes,
) -> Result<(), Memory>
    requires inside { IsInside task.now context.old }
    requires may { MayStep task.now context.old step.now }
    ensures text { OnOk result (out.new ≡ out.old ++
        english.mp_text task.now level context.old step.now) }
    ensures after { OnOk result (context.new ≡
        script.after_step_of task.now context.old step.now) }
    ensures inside { OnOk result (IsInside task.now context.new) }
{
    let cite = task.citation(alloc, step.form)?;
    let args = element_names(alloc, task, step.args.as_slice())?;
    let Addition { fresh, line } = take_step(alloc, task, context, step)?;
    put_mp(
        alloc,
        level,
        &cite,
        args.as_slice(),
        &line,
        fresh.as_slice(),
        out,
    )
}

/// Appends the sentences of steps, so many cases deep. The context goes on behind them.
pub(crate) fn put_steps(
    alloc: Global,
    task: &Task,
    context: &mut Context,
    level: u32,
    steps: &[Mp],
    out: &mut Bytes,
) -> Result<(), Memory>
    requires inside { IsInside task.now context.old }
    requires may { MaySteps task.now steps.now context.old }
    ensures text { OnOk result (out.new ≡ out.old ++
        english.steps_text task.now level steps.now context.old) }
    ensures after { OnOk result (context.new ≡
        script.after_steps task.now steps.now context.old) }
    ensures inside { OnOk result (IsInside task.now context.new) }
{
    for step in steps {
        put_step(alloc, task, context, level, step, out)?;
    }
    Ok(())
}
