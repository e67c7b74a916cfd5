//! What countermodels exclude.

ghost use Rattle.std.specs.Prelude.{List};
ghost use Rattle.std.specs.List.{AllByRecursion};
ghost use Rattle.logic_core.specs.Allowed.{FofIsAllowed};
ghost use Rattle.logic_core.specs.declared.problem.Fof.{Fof};
ghost use Rattle.vernacular_tree.specs.Rules.{Proves};
ghost use Rattle.vernacular_tree.specs.declared.tree.Body.{Body};
ghost use Rattle.coherent_form.specs.Tasks.{CitedTask, IsTaskOf, proof_task};
ghost use Rattle.model_text.specs.Structures.{Finite, IsSound};
ghost use Rattle.finite_model.specs.Countermodels.{IsCountermodel};

use crate::finite_world::FiniteWorld;
use coherent_form::proved_task_follows;

/// Where a problem has a countermodel, no body of any size is a proof of its task.
pub fn countermodels_exclude_proofs()
    ensures { (problem : List Fof) (task : CitedTask) (m : Finite) (body : Body)
        → AllByRecursion FofIsAllowed problem → IsTaskOf problem task → IsSound m
        → IsCountermodel task.tables.constants problem m → Proves (proof_task task) body → ⊥ }
{
    proved_task_follows::<FiniteWorld>();
}
