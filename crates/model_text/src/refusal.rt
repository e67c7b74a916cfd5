use text_core::Memory;
use thiserror::Error;
use tptp_lexer::LexRefusal;

/// Why bytes are no text of a model, with the offset of the first token that is refused, counted in
/// bytes from 0.
#[derive(Debug, Drop, Error)]
pub enum ModelRefusal {
    /// The bytes have no tokens. The refusal tells the first refused offset, and is never want of
    /// memory.
    #[error("{0}")]
    Lex(LexRefusal),
    /// The tokens before this one begin a text of a model, and with it they begin none; or all
    /// tokens begin one and are none, and the offset is the number of bytes.
    #[error("ModelSyntax")]
    ModelSyntax(u32),
    /// The token is a size that is not from 1 to `MOST_ELEMENTS`, or an element that is not below
    /// the size.
    #[error("ModelRange")]
    ModelRange(u32),
    /// The token is the constant of a place, and an earlier place has the same constant.
    #[error("ModelTwice")]
    ModelTwice(u32),
    /// Memory ran out.
    #[error("Memory")]
    Memory,
}

impl From<Memory> for ModelRefusal {
    ghost use Rattle.std.specs.Prelude.{◌≡◌};
    ghost use Rattle.model_text.specs.declared.refusal.ModelRefusal.TheVariants as refusals;

    ghost from_gives = { λ _ e. e ≡ refusals.Memory };

    fn from(_memory: Memory) -> ModelRefusal {
        ModelRefusal::Memory
    }
}
