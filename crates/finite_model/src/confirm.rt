ghost use Rattle.std.specs.Prelude.{OnOk};
ghost use Rattle.text_core.specs.Exact.{Exact};
ghost use Rattle.vernacular_tree.specs.Rules.{Proves};
ghost use Rattle.vernacular_tree.specs.declared.tree.Body.{Body};
ghost use Rattle.coherent_form.specs.Tasks.{IsTaskOf, proof_task};
ghost use Rattle.finite_model.specs.Countermodels.{IsCountermodel, IsConfirmFault};
ghost use Rattle.finite_model.specs.declared.refusal.ConfirmRefusal.TheVariants as refusals;

use crate::law::countermodels_exclude_proofs;
use crate::lookup::Lookup;
use crate::refusal::ConfirmRefusal;
use crate::sought::{first_failing, first_unplaced};
use coherent_form::Task;
use logic_core::Problem;
use model_text::Model;
use std::alloc::Global;

/// Whether a structure is a countermodel of a problem with this task: a place for each constant,
/// each premise true as it is written, and the conjecture not. `ModelPlace` at the first constant
/// without a place, else `ModelFails` at the first formula that fails. `Memory` is want of memory.
///
/// Where it is one, no body of any size is a proof of the task.
pub fn confirm_model(
    alloc: Global,
    problem: &Problem,
    task: &Task,
    model: &Model,
) -> Result<(), ConfirmRefusal>
    requires { IsTaskOf problem.now task.now }
    ensures exact { Exact (λ done. IsCountermodel task.now.tables.constants problem.now model.now)
        (IsConfirmFault task.now.tables.constants problem.now model.now) refusals.Memory result }
    ensures excludes { OnOk result ((body : Body) → Proves (proof_task task.now) body → ⊥) }
{
    // The formulas are such as problems have, and the structure has an element: so the law holds of
    // them.
    let _known = (problem.as_slice().len(), model.size());
    countermodels_exclude_proofs();
    let lookup = Lookup::new(alloc, model)?;
    if let Some(number) = first_unplaced(task.tables(), &lookup) {
        return Err(ConfirmRefusal::ModelPlace(number));
    }
    match first_failing(alloc, problem, &lookup)? {
        Some(number) => Err(ConfirmRefusal::ModelFails(number)),
        None => Ok(()),
    }
}
