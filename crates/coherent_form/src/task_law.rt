ghost use Rattle.std.specs.Prelude.{ℕ, List, ◌≡◌, ◌<◌, ◌^◌, length, slice_get, Some};
ghost use Rattle.std.specs.List.{AllByRecursion};
ghost use Rattle.text_core.specs.Names.{Text};
ghost use Rattle.logic_core.specs.Allowed.{FofIsAllowed};
ghost use Rattle.logic_core.specs.Problems.{Follows};
ghost use Rattle.logic_core.specs.Truth.{structure};
ghost use Rattle.logic_core.specs.declared.problem.Fof.{Fof};
ghost use Rattle.signature.specs.Numbers.{AreDistinctConstants};
ghost use Rattle.coherent_form.specs.declared.citation.Citation.{Citation};
ghost use Rattle.coherent_form.specs.ElementNames.{element_name};
ghost use Rattle.coherent_form.specs.Labels.{label_of};
ghost use Rattle.coherent_form.specs.Tasks.{CitedTask, IsTaskOf, proof_task};
ghost use Rattle.vernacular_tree.specs.Rules.{Proves};
ghost use Rattle.vernacular_tree.specs.declared.tree.Body.{Body};

use logic_core::World;

/// Where a body is a proof of the task of a problem, the problem's conjecture follows, whoever
/// wrote the body. It holds in every structure of every family.
pub fn proved_task_follows<W: World>()
    ensures { (problem : List Fof) (task : CitedTask) (body : Body) (k : List ℕ)
        → AllByRecursion FofIsAllowed problem → IsTaskOf problem task
        → Proves (proof_task task) body
        → Follows (structure (W.element k) (W.holds k) (W.place k)) problem }
{}

/// No two forms of the task of a problem are cited in the same way.
pub fn forms_are_cited_once()
    ensures { (problem : List Fof) (task : CitedTask) (cite : Citation) (a b : ℕ)
        → IsTaskOf problem task → slice_get task.citations a ≡ Some cite
        → slice_get task.citations b ≡ Some cite → a ≡ b }
{}

/// Two elements whose numbers fit in 64 bits are printed with different names.
pub fn printed_names_differ()
    ensures { (constants : List Text) (a b : ℕ) → AreDistinctConstants constants
        → a < 2 ^ 64 → b < 2 ^ 64
        → element_name constants a ≡ element_name constants b → a ≡ b }
{}

/// Two universal variables of a form have different labels.
pub fn labels_differ()
    ensures { (names : List Text) (i j : ℕ) → i < length names → j < length names
        → label_of names i ≡ label_of names j → i ≡ j }
{}
