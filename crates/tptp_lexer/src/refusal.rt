use text_core::Memory;
use thiserror::Error;

/// Why a text has no tokens, with the first refused offset, counted in bytes from 0.
#[derive(Debug, Drop, Error)]
pub enum LexRefusal {
    /// At this offset begins no token, blank or comment; or, within a quote, the byte at this
    /// offset may not be there, or is the backslash of a wrong escape.
    #[error("BadByte")]
    BadByte(u32),
    /// The quote that begins at this offset, single or double, is still open at the end of the
    /// text.
    #[error("OpenQuote")]
    OpenQuote(u32),
    /// No `*/` closes the comment whose `/*` begins at this offset.
    #[error("OpenComment")]
    OpenComment(u32),
    /// At this offset begin two single quotes with nothing between them.
    #[error("EmptyQuote")]
    EmptyQuote(u32),
    /// Memory ran out.
    #[error("Memory")]
    Memory,
}

impl From<Memory> for LexRefusal {
    ghost use Rattle.std.specs.Prelude.{◌≡◌};
    ghost use Rattle.tptp_lexer.specs.declared.refusal.LexRefusal.TheVariants as refusals;

    ghost from_gives = { λ _ e. e ≡ refusals.Memory };

    fn from(_memory: Memory) -> LexRefusal {
        LexRefusal::Memory
    }
}
