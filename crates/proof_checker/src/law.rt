//! Laws over all tasks in which no two forms are cited in the same way.

ghost use Rattle.std.specs.Prelude.{◌≡◌, List, map};
ghost use Rattle.coherent_form.specs.Tasks.{CitedTask};
ghost use Rattle.proof_text.specs.Values.{Written};
ghost use Rattle.proof_text.specs.Sizes.{size as script_size, nesting as script_nesting};
ghost use Rattle.vernacular_tree.specs.Preorders.{preorder};
ghost use Rattle.vernacular_tree.specs.Sizes.{size, nesting};
ghost use Rattle.vernacular_tree.specs.declared.tree.Body.{Body as Tree};
ghost use Rattle.proof_checker.specs.declared.refusal.StepRefusal.{StepRefusal as Refusal};
ghost use Rattle.proof_checker.specs.Accepted.{IsAcceptedAs};
ghost use Rattle.proof_text.specs.StandsFor.{AreCitedOnce};
ghost use Rattle.proof_checker.specs.Faults.{IsFault, IsOpenFault};
ghost use Rattle.proof_checker.specs.Opened.{IsOpenAs};
ghost use Rattle.proof_checker.specs.declared.open_node.OpenNode.{OpenNode as GapOrRule};
ghost use Rattle.proof_checker.specs.declared.open_node.OpenNode.TheVariants as open_node;

/// A script is accepted as one body at most.
pub fn scripts_have_one_body()
    ensures { (task : CitedTask) (script : Written) (a b : Tree) → AreCitedOnce task
        → IsAcceptedAs task script a → IsAcceptedAs task script b → a ≡ b }
{}

/// A script has one first fault at most.
pub fn scripts_have_one_fault()
    ensures { (task : CitedTask) (script : Written) (a b : Refusal) → AreCitedOnce task
        → IsFault task script a → IsFault task script b → a ≡ b }
{}

/// A script with a fault is accepted as no body.
pub fn faults_are_not_accepted()
    ensures { (task : CitedTask) (script : Written) (body : Tree) (refusal : Refusal)
        → AreCitedOnce task
        → IsAcceptedAs task script body → IsFault task script refusal → ⊥ }
{}

/// The body that a script is accepted as has as many rule applications, and is nested as deep.
pub fn accepted_bodies_are_as_large()
    ensures size { (task : CitedTask) (script : Written) (body : Tree)
        → IsAcceptedAs task script body → size body ≡ script_size script.body }
    ensures nesting { (task : CitedTask) (script : Written) (body : Tree)
        → IsAcceptedAs task script body → nesting body ≡ script_nesting script.body }
{}

/// Where its gaps may stand, a script has one list of nodes at most, one first fault at most, and
/// never both.
pub fn nodes_or_one_open_fault()
    ensures nodes { (task : CitedTask) (script : Written) (a b : List GapOrRule)
        → AreCitedOnce task
        → IsOpenAs task script a → IsOpenAs task script b → a ≡ b }
    ensures fault { (task : CitedTask) (script : Written) (a b : Refusal) → AreCitedOnce task
        → IsOpenFault task script a → IsOpenFault task script b → a ≡ b }
    ensures never_both { (task : CitedTask) (script : Written) (nodes : List GapOrRule)
        (refusal : Refusal)
        → AreCitedOnce task
        → IsOpenAs task script nodes → IsOpenFault task script refusal → ⊥ }
{}

/// A script is accepted as a body exactly where it is open as the rule applications of this body,
/// without a gap.
pub fn accepted_scripts_are_open()
    ensures is_open { (task : CitedTask) (script : Written) (body : Tree)
        → IsAcceptedAs task script body
        → IsOpenAs task script (map open_node.Rule (preorder body)) }
    ensures accepted { (task : CitedTask) (script : Written) (body : Tree)
        → IsOpenAs task script (map open_node.Rule (preorder body))
        → IsAcceptedAs task script body }
{}
