use text_core::Memory;
use thiserror::Error;
use tptp_lexer::LexRefusal;

/// Why bytes are no proof text, with the offset of the first token that is refused, counted in
/// bytes from 0.
#[derive(Debug, Drop, Error)]
pub enum ScriptRefusal {
    /// The bytes have no tokens. The refusal tells the first refused offset, and is never want of
    /// memory.
    #[error("{0}")]
    Lex(LexRefusal),
    /// The tokens before this one begin a proof text, and with it they begin none; or all tokens
    /// begin a proof text and are none, and the offset is the number of bytes.
    #[error("ProofSyntax")]
    ProofSyntax(u32),
    /// The token is an integer other than `1` and `2` in the place of the version.
    #[error("ProofVersion")]
    ProofVersion(u32),
    /// The token is a rule word behind `MOST_APPLICATIONS` others.
    #[error("ProofTooLarge")]
    ProofTooLarge(u32),
    /// The token is a `cs` inside `MOST_SPLITS` others.
    #[error("CasesTooDeep")]
    CasesTooDeep(u32),
    /// Memory ran out.
    #[error("Memory")]
    Memory,
}

impl From<Memory> for ScriptRefusal {
    ghost use Rattle.std.specs.Prelude.{◌≡◌};
    ghost use Rattle.proof_text.specs.declared.refusal.ScriptRefusal.TheVariants as refusals;

    ghost from_gives = { λ _ e. e ≡ refusals.Memory };

    fn from(_memory: Memory) -> ScriptRefusal {
        ScriptRefusal::Memory
    }
}
