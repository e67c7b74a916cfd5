ghost use Rattle.std.specs.Prelude.{◌≡◌, ◌<◌, ◌^◌, List as Lst, [], Some, slice_get, map, length, IfOk, MatchOption};
ghost use Rattle.std.specs.Bool.{Decides};
ghost use Rattle.std.specs.List.{AllByRecursion};
ghost use Rattle.text_core.specs.Names.{Text};
ghost use Rattle.text_core.specs.Lists.{IsAmong};
ghost use Rattle.logic_core.specs.declared.form.Form.{Form as FormValue};
ghost use Rattle.proof_text.specs.declared.body.Binding.{Binding as Bind};
ghost use Rattle.proof_text.specs.StandsFor as accepted;
ghost use Rattle.proof_checker.specs.Checks.{EachBehind, FailsAt};
ghost use Rattle.proof_checker.specs.Running.{AreItsVariables};

use coherent_form::{Label, Task};
use proof_text::Binding;
use std::alloc::Global;
use text_core::{List, Memory};

/// Whether two labels are the same.
pub(crate) fn is_same_label(left: &Label, right: &Label) -> bool
    ensures { Decides result (left.now ≡ right.now) }
{
    left.rank == right.rank && left.name == right.name
}

fn is_among(labels: &[Label], label: &Label) -> bool
    ensures { Decides result (IsAmong label.now labels.now) }
{
    for other in labels {
        if is_same_label(other, label) {
            return true;
        }
    }
    false
}

fn is_bound(binds: &[Binding], label: &Label) -> bool
    ensures { Decides result (IsAmong label.now (map (λ (bind : Bind). bind.label) binds.now)) }
{
    for bind in binds {
        if is_same_label(&bind.label, label) {
            return true;
        }
    }
    false
}

/// The labels of a form's universal variables, which are so many. `Memory` is want of memory.
pub(crate) fn labels_of(
    alloc: Global,
    task: &Task,
    form: u32,
    universals: u32,
) -> Result<List<Label>, Memory>
    requires { (f : FormValue) × (slice_get task.now.forms form ≡ Some f)
        × (f.universals ≡ universals) }
    ensures { IfOk result (λ labels. (f : FormValue) (variables : Lst Text)
        → AreItsVariables task.now form f variables → labels ≡ accepted.labels_of variables) }
{
    let mut labels = List::new(alloc);
    for variable in 0..universals {
        labels.push(task.label(alloc, form, variable)?)?;
    }
    Ok(labels)
}

/// The number of the first binding, from 1, whose label is none of these.
pub(crate) fn unknown_label(labels: &[Label], binds: &[Binding]) -> Option<u32>
    requires { length binds.now < 2 ^ 32 }
    ensures { MatchOption result
        (EachBehind (λ front (bind : Bind). IsAmong bind.label labels.now) [] binds.now)
        (FailsAt (λ front (bind : Bind). IsAmong bind.label labels.now) [] binds.now) }
{
    for at in 0..binds.len() {
        let bind = &binds[at];
        if !is_among(labels, &bind.label) {
            return Some(at as u32 + 1);
        }
    }
    None
}

/// The number of the first binding, from 1, whose label is that of one before it.
pub(crate) fn repeated_label(binds: &[Binding]) -> Option<u32>
    requires { length binds.now < 2 ^ 32 }
    ensures { MatchOption result
        (EachBehind (λ front (bind : Bind). IsAmong bind.label
        (map (λ (other : Bind). other.label) front) → ⊥) [] binds.now)
        (FailsAt (λ front (bind : Bind). IsAmong bind.label
        (map (λ (other : Bind). other.label) front) → ⊥) [] binds.now) }
{
    for at in 0..binds.len() {
        let bind = &binds[at];
        if is_bound(&binds[..at], &bind.label) {
            return Some(at as u32 + 1);
        }
    }
    None
}
