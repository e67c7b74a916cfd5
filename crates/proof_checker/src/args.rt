ghost use Rattle.std.specs.Prelude.{◌≡◌, ◌<◌, ◌^◌, List as Lst, Some, slice_get, map, length, IfOk, IfErr, IfSome, IfNone, MatchOption};
ghost use Rattle.std.specs.List.{AllByRecursion};
ghost use Rattle.text_core.specs.Names.{Text};
ghost use Rattle.text_core.specs.Lists.{SomeOf, IsAmong};
ghost use Rattle.proof_text.specs.declared.body.Binding.{Binding as Bind};
ghost use Rattle.proof_text.specs.declared.body.ArgsText.TheVariants as args_text;
ghost use Rattle.proof_text.specs.StandsFor.{NamesStand, Gives, EachGiven, ArgsStand};
ghost use Rattle.proof_checker.specs.Checks.{Nothing};
ghost use Rattle.proof_checker.specs.Faults.{AreNames, ArgsFault};
ghost use Rattle.proof_checker.specs.Running.{AreItsVariables, HaltsBy};

use crate::halt::Halt;
use crate::labels::{is_same_label, labels_of, repeated_label, unknown_label};
use crate::refusal::Why;
use crate::trail::Trail;
use coherent_form::{Label, Task};
use logic_core::Form;
use proof_text::{ArgsText, Binding};
use std::alloc::Global;
use text_core::{List, Memory, Name};

/// The elements for which names stand; `None` where some name is that of no element. `Memory` is
/// want of memory.
pub(crate) fn elements_of(
    alloc: Global,
    trail: &Trail,
    texts: &[Name],
) -> Result<Option<List<u32>>, Memory>
    requires { length trail.now.names < 2 ^ 32 }
    ensures { IfOk result (λ found. MatchOption found (AreNames trail.now.names texts.now → ⊥)
        (NamesStand trail.now.names texts.now)) }
{
    let mut elements = List::new(alloc);
    for text in texts {
        match trail.element(text) {
            Some(element) => elements.push(element)?,
            None => return Ok(None),
        }
    }
    Ok(Some(elements))
}

// The element that a binding gives to a label.
fn bound_element(trail: &Trail, label: &Label, binds: &[Binding]) -> Option<u32>
    requires { length trail.now.names < 2 ^ 32 }
    ensures some { IfSome result (λ element.
        SomeOf (Gives trail.now.names label.now element) binds.now) }
    ensures none { IfNone result (AreNames trail.now.names (map (λ (b : Bind). b.value) binds.now)
        → IsAmong label.now (map (λ (b : Bind). b.label) binds.now) → ⊥) }
{
    for bind in binds {
        if is_same_label(&bind.label, label) {
            return trail.element(&bind.value);
        }
    }
    None
}

// The elements that bindings give to labels; `None` where some label is not bound, or some value is
// that of no element.
fn bound_elements(
    alloc: Global,
    trail: &Trail,
    labels: &[Label],
    binds: &[Binding],
) -> Result<Option<List<u32>>, Memory>
    requires { length trail.now.names < 2 ^ 32 }
    ensures { IfOk result (λ found. MatchOption found
        (AreNames trail.now.names (map (λ (b : Bind). b.value) binds.now)
        → AllByRecursion (λ label. IsAmong label (map (λ (b : Bind). b.label) binds.now)) labels.now
        → ⊥)
        (EachGiven trail.now.names binds.now labels.now)) }
{
    let mut elements = List::new(alloc);
    for label in labels {
        match bound_element(trail, label, binds) {
            Some(element) => elements.push(element)?,
            None => return Ok(None),
        }
    }
    Ok(Some(elements))
}

fn check_listed(
    alloc: Global,
    trail: &Trail,
    form: &Form,
    texts: &[Name],
) -> Result<List<u32>, Halt>
    requires few { length trail.now.names < 2 ^ 32 }
    ensures stand { IfOk result (NamesStand trail.now.names texts.now) }
    ensures as_many { IfOk result (λ args. length args ≡ form.now.universals) }
    ensures err { IfErr result (λ halt. (variables : Lst Text) → HaltsBy (ArgsFault
        trail.now.names form.now variables (args_text.Listed texts.now) Nothing) halt) }
{
    if texts.len() != form.universals as usize {
        return Err(Halt::Fault(Why::InstanceCount));
    }
    match elements_of(alloc, trail, texts)? {
        Some(elements) => Ok(elements),
        None => Err(Halt::Fault(Why::InstanceUnknown)),
    }
}

fn check_named(
    alloc: Global,
    task: &Task,
    trail: &Trail,
    number: u32,
    form: &Form,
    binds: &[Binding],
) -> Result<List<u32>, Halt>
    requires few { length trail.now.names < 2 ^ 32 }
    requires form { slice_get task.now.forms number ≡ Some form.now }
    ensures ok { IfOk result (λ args. (variables : Lst Text)
        → AreItsVariables task.now number form.now variables
        → ArgsStand trail.now.names variables (args_text.Named binds.now) args
        × (length args ≡ form.now.universals)) }
    ensures err { IfErr result (λ halt. (variables : Lst Text)
        → AreItsVariables task.now number form.now variables
        → HaltsBy (ArgsFault
        trail.now.names form.now variables (args_text.Named binds.now) Nothing) halt) }
{
    if binds.len() != form.universals as usize {
        return Err(Halt::Fault(Why::InstanceCount));
    }
    let labels = labels_of(alloc, task, number, form.universals)?;
    if let Some(bind) = unknown_label(labels.as_slice(), binds) {
        return Err(Halt::Fault(Why::VariableUnknown(bind)));
    }
    if let Some(bind) = repeated_label(binds) {
        return Err(Halt::Fault(Why::VariableTwice(bind)));
    }
    match bound_elements(alloc, trail, labels.as_slice(), binds)? {
        Some(elements) => Ok(elements),
        None => Err(Halt::Fault(Why::InstanceUnknown)),
    }
}

/// The elements for which an instance of a form stands.
pub(crate) fn check_args(
    alloc: Global,
    task: &Task,
    trail: &Trail,
    number: u32,
    form: &Form,
    args: &ArgsText,
) -> Result<List<u32>, Halt>
    requires few { length trail.now.names < 2 ^ 32 }
    requires form { slice_get task.now.forms number ≡ Some form.now }
    ensures ok { IfOk result (λ elements. (variables : Lst Text)
        → AreItsVariables task.now number form.now variables
        → ArgsStand trail.now.names variables args.now elements
        × (length elements ≡ form.now.universals)) }
    ensures err { IfErr result (λ halt. (variables : Lst Text)
        → AreItsVariables task.now number form.now variables
        → HaltsBy (ArgsFault trail.now.names form.now variables args.now Nothing) halt) }
{
    match args {
        ArgsText::Listed(texts) => check_listed(alloc, trail, form, texts.as_slice()),
        ArgsText::Named(binds) => check_named(alloc, task, trail, number, form, binds.as_slice()),
    }
}
