//! Laws over all bytes.

ghost use Rattle.std.specs.Prelude.{◌≡◌, ◌⊎◌};
ghost use Rattle.text_core.specs.Names.{Text};
ghost use Rattle.model_text.specs.declared.refusal.ModelRefusal.{ModelRefusal};
ghost use Rattle.model_text.specs.Structures.{Finite, IsSound};
ghost use Rattle.model_text.specs.Texts.{IsModelOf, ModelFault};

/// Bytes spell one structure at most.
pub fn models_are_one()
    ensures { (bytes : Text) (a b : Finite) → IsModelOf bytes a → IsModelOf bytes b → a ≡ b }
{}

/// Bytes have one refusal at most.
pub fn model_refusals_are_one()
    ensures { (bytes : Text) (a b : ModelRefusal) →
        ModelFault bytes a → ModelFault bytes b → a ≡ b }
{}

/// Bytes that spell a structure are not refused.
pub fn never_model_and_refusal()
    ensures { (bytes : Text) (m : Finite) (refusal : ModelRefusal) →
        IsModelOf bytes m → ModelFault bytes refusal → ⊥ }
{}

/// Bytes spell a structure, or are refused.
pub fn model_or_refusal()
    ensures { (bytes : Text) →
        ((m : Finite) × IsModelOf bytes m) ⊎
        ((refusal : ModelRefusal) × ModelFault bytes refusal) }
{}

/// A structure that bytes spell is sound.
pub fn models_are_sound()
    ensures { (bytes : Text) (m : Finite) → IsModelOf bytes m → IsSound m }
{}
