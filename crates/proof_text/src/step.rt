ghost use Rattle.std.specs.Prelude.{◌≡◌, ◌<◌, ◌≤◌, length, map, slice_get, Some, IfOk, OnOk};
ghost use Rattle.text_core.specs.declared.limits.TheConstants.{MOST_FORM_VARIABLES};
ghost use Rattle.logic_core.specs.declared.form.Form.{Form};
ghost use Rattle.coherent_form.specs.Kept.{IsRight};
ghost use Rattle.proof_text.specs.Printing.{printed, printed_line};
ghost use Rattle.proof_text.specs.ScriptOf as script;
ghost use Rattle.proof_text.specs.Showing.{IsInside, MayStep, MaySteps};

use crate::body::{ArgsText, Binding, MpText, Shown};
use crate::given::{counted, line_at, sum_of};
use crate::part::Edition;
use crate::printed::{element_names, named_line};
use coherent_form::Task;
use std::alloc::Global;
use text_core::{List, Memory, Name};
use vernacular_tree::{Context, Mp};

// A binding for each universal variable of a form, in order.
fn binds_of(alloc: Global, task: &Task, form: u32, args: &[u32]) -> Result<List<Binding>, Memory>
    requires each { (f : Form) × (slice_get task.now.forms form ≡ Some f)
        × (length args.now ≡ f.universals) }
    requires few { length args.now ≤ MOST_FORM_VARIABLES }
    ensures { IfOk result (λ binds.
        binds ≡ script.binds_of task.now (script.variables_of task.now form) 0 args.now) }
{
    let mut binds = List::new(alloc);
    for (variable, element) in args.iter().enumerate() {
        binds.push(Binding {
            label: task.label(alloc, form, variable as u32)?,
            value: task.element_name(alloc, *element)?,
        })?;
    }
    Ok(binds)
}

// An instance of a form, as a version writes it.
fn args_of(
    alloc: Global,
    edition: Edition,
    task: &Task,
    form: u32,
    args: &[u32],
) -> Result<ArgsText, Memory>
    requires each { (f : Form) × (slice_get task.now.forms form ≡ Some f)
        × (length args.now ≡ f.universals) }
    requires few { length args.now ≤ MOST_FORM_VARIABLES }
    ensures { IfOk result (λ text. text ≡
        script.args_of edition task.now (script.variables_of task.now form) args.now) }
{
    match edition {
        Edition::First => Ok(ArgsText::Listed(element_names(alloc, task, args)?)),
        Edition::Second => Ok(ArgsText::Named(binds_of(alloc, task, form, args)?)),
    }
}

/// What a step adds: the printed names of its new elements, and its line as it is shown.
#[derive(Debug, Drop)]
pub struct Addition {
    pub fresh: List<Name>,
    pub line: Shown,
}

/// Takes a step: tells what it adds, and the context goes on behind it. `Memory` is want of memory,
/// or of numbers of 32 bits.
pub fn take_step(
    alloc: Global,
    task: &Task,
    context: &mut Context,
    step: &Mp,
) -> Result<Addition, Memory>
    requires inside { IsInside task.now context.old }
    requires may { MayStep task.now context.old step.now }
    ensures fresh { IfOk result (λ added.
        added.fresh ≡ map (printed task.now) (script.fresh_of task.now context.old step.now)) }
    ensures line { IfOk result (λ added.
        added.line ≡ printed_line task.now (script.line_by task.now context.old step.now)) }
    ensures after { OnOk result (context.new ≡
        script.after_step_of task.now context.old step.now) }
    ensures inside { OnOk result (IsInside task.now context.new) }
    ensures right { IsRight task.now }
{
    let form = &task.forms().as_slice()[step.form as usize];
    let after = sum_of(context.elements, form.existentials)?;
    let fresh = counted(alloc, context.elements, form.existentials)?;
    let line = line_at(alloc, form, step.args.as_slice(), fresh.as_slice())?;
    let added = Addition {
        fresh: element_names(alloc, task, fresh.as_slice())?,
        line: named_line(alloc, task, &line)?,
    };
    context.elements = after;
    context.lines.push(line)?;
    Ok(added)
}

// A step. The context goes on behind it.
fn step_of(
    alloc: Global,
    edition: Edition,
    task: &Task,
    context: &mut Context,
    step: &Mp,
) -> Result<MpText, Memory>
    requires inside { IsInside task.now context.old }
    requires may { MayStep task.now context.old step.now }
    ensures text { IfOk result (λ text.
        text ≡ script.step_of edition task.now context.old step.now) }
    ensures after { OnOk result (context.new ≡
        script.after_step_of task.now context.old step.now) }
    ensures inside { OnOk result (IsInside task.now context.new) }
{
    let Addition { fresh, line } = take_step(alloc, task, context, step)?;
    Ok(MpText {
        cite: task.citation(alloc, step.form)?,
        args: args_of(alloc, edition, task, step.form, step.args.as_slice())?,
        fresh,
        shown: Some(line),
    })
}

// Steps in order. The context goes on behind them.
pub(crate) fn steps_of(
    alloc: Global,
    edition: Edition,
    task: &Task,
    context: &mut Context,
    steps: &[Mp],
) -> Result<List<MpText>, Memory>
    requires inside { IsInside task.now context.old }
    requires may { MaySteps task.now steps.now context.old }
    ensures text { IfOk result (λ texts.
        texts ≡ script.steps_of edition task.now steps.now context.old) }
    ensures after { OnOk result (context.new ≡
        script.after_steps task.now steps.now context.old) }
    ensures inside { OnOk result (IsInside task.now context.new) }
{
    let mut texts = List::new(alloc);
    for step in steps {
        texts.push(step_of(alloc, edition, task, context, step)?)?;
    }
    Ok(texts)
}
