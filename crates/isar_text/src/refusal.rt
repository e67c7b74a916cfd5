use text_core::Memory;
use thiserror::Error;

/// Why bytes are no text of a task in Isar, with an offset in bytes from 0.
#[derive(Debug, Drop, Error)]
pub enum IsarRefusal {
    /// The bytes do not begin with the task's head. The offset is the length of their longest
    /// common front.
    #[error("IsarHead")]
    Head(u32),
    /// No token begins at this byte; or the tokens before the one at this offset begin a text, and
    /// with it they begin none; or all tokens begin a text and are none, and the offset is the
    /// number of bytes.
    #[error("IsarSyntax")]
    Syntax(u32),
    /// The token is a rule word behind `MOST_APPLICATIONS` others.
    #[error("ProofTooLarge")]
    TooLarge(u32),
    /// The token is the `show` of a split inside `MOST_SPLITS` others.
    #[error("CasesTooDeep")]
    TooDeep(u32),
    /// Memory ran out.
    #[error("Memory")]
    Memory,
}

impl From<Memory> for IsarRefusal {
    ghost use Rattle.std.specs.Prelude.{◌≡◌};
    ghost use Rattle.isar_text.specs.declared.refusal.IsarRefusal.TheVariants as refusals;

    ghost from_gives = { λ _ e. e ≡ refusals.Memory };

    fn from(_memory: Memory) -> IsarRefusal {
        IsarRefusal::Memory
    }
}
