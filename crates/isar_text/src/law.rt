//! Laws over all names and all bytes.

ghost use Rattle.std.specs.Prelude.{◌≡◌, ◌⊎◌, true};
ghost use Rattle.text_core.specs.Names.{Text};
ghost use Rattle.text_core.specs.NameTexts.{IsNameText};
ghost use Rattle.coherent_form.specs.Tasks.{CitedTask};
ghost use Rattle.proof_text.specs.Values.{Written};
ghost use Rattle.proof_text.specs.Proper.{IsProper};
ghost use Rattle.isar_text.specs.declared.refusal.IsarRefusal.{IsarRefusal};
ghost use Rattle.isar_text.specs.Names.{isar_name, decoded, is_written};
ghost use Rattle.isar_text.specs.Scripts.{IsIsarOf, IsarFault};

/// Two names that are written in the same way are one.
pub fn names_are_written_once()
    ensures { (a b : Text) → IsNameText a → IsNameText b → isar_name a ≡ isar_name b → a ≡ b }
{}

/// The words that pass the test of written names are those that some name is written as, and each
/// of them stands for that name.
pub fn written_names_are_names()
    ensures written { (name : Text) → IsNameText name → is_written (isar_name name) ≡ true }
    ensures read { (name : Text) → IsNameText name → decoded (isar_name name) ≡ name }
    ensures named { (word : Text) → is_written word ≡ true →
        IsNameText (decoded word) × (isar_name (decoded word) ≡ word) }
{}

/// Bytes spell one script of a task at most.
pub fn isar_scripts_are_one()
    ensures { (task : CitedTask) (bytes : Text) (a b : Written) →
        IsIsarOf task bytes a → IsIsarOf task bytes b → a ≡ b }
{}

/// Bytes have one refusal as a text of a task at most.
pub fn isar_refusals_are_one()
    ensures { (task : CitedTask) (bytes : Text) (a b : IsarRefusal) →
        IsarFault task bytes a → IsarFault task bytes b → a ≡ b }
{}

/// Bytes that spell a script of a task are not refused.
pub fn never_isar_script_and_refusal()
    ensures { (task : CitedTask) (bytes : Text) (script : Written) (refusal : IsarRefusal) →
        IsIsarOf task bytes script → IsarFault task bytes refusal → ⊥ }
{}

/// Bytes spell a script of a task, or are refused.
pub fn isar_script_or_refusal()
    ensures { (task : CitedTask) (bytes : Text) →
        ((script : Written) × IsIsarOf task bytes script) ⊎
        ((refusal : IsarRefusal) × IsarFault task bytes refusal) }
{}

/// A script that bytes spell as a text of a task has what each script has.
pub fn isar_scripts_are_proper()
    ensures { (task : CitedTask) (bytes : Text) (script : Written) →
        IsIsarOf task bytes script → IsProper script }
{}
