//! Laws over all bytes.

ghost use Rattle.std.specs.Prelude.{◌≡◌, ◌⊎◌};
ghost use Rattle.text_core.specs.Names.{Text};
ghost use Rattle.proof_text.specs.declared.refusal.ScriptRefusal.{ScriptRefusal};
ghost use Rattle.proof_text.specs.Values.{Written};
ghost use Rattle.proof_text.specs.Proper.{IsProper};
ghost use Rattle.proof_text.specs.Scripts.{IsScriptOf, ProofFault};
ghost use Rattle.proof_text.specs.ScriptOf.{script_of};
ghost use Rattle.proof_text.specs.StandsFor.{Stands};
ghost use Rattle.proof_text.specs.declared.part.Edition.{Edition};
ghost use Rattle.signature.specs.Numbers.{AreDistinctConstants};
ghost use Rattle.vernacular_tree.specs.Preorders.{IsBounded};
ghost use Rattle.vernacular_tree.specs.Rules.{Proves};
ghost use Rattle.vernacular_tree.specs.declared.tree.Body.{Body};
ghost use Rattle.coherent_form.specs.Kept.{IsRight};
ghost use Rattle.coherent_form.specs.Tasks.{CitedTask, proof_task};

use coherent_form::printed_names_differ;

/// Bytes spell one script at most.
pub fn scripts_are_one()
    ensures { (bytes : Text) (a b : Written) → IsScriptOf bytes a → IsScriptOf bytes b → a ≡ b }
{}

/// Bytes have one refusal at most.
pub fn refusals_are_one()
    ensures { (bytes : Text) (a b : ScriptRefusal) →
        ProofFault bytes a → ProofFault bytes b → a ≡ b }
{}

/// Bytes that spell a script are not refused.
pub fn never_script_and_refusal()
    ensures { (bytes : Text) (script : Written) (refusal : ScriptRefusal) →
        IsScriptOf bytes script → ProofFault bytes refusal → ⊥ }
{}

/// Bytes spell a script, or are refused.
pub fn script_or_refusal()
    ensures { (bytes : Text) →
        ((script : Written) × IsScriptOf bytes script) ⊎
        ((refusal : ScriptRefusal) × ProofFault bytes refusal) }
{}

/// A script that bytes spell has what each script has.
pub fn scripts_are_proper()
    ensures { (bytes : Text) (script : Written) → IsScriptOf bytes script → IsProper script }
{}

/// The script that is written for a proof of a task, of either version, stands for that proof.
pub fn proof_scripts_stand()
    ensures { (edition : Edition) (task : CitedTask) (body : Body) →
        AreDistinctConstants task.tables.constants → IsRight task → IsBounded body →
        Proves (proof_task task) body → Stands task (script_of edition task body) body }
{
    printed_names_differ();
}
