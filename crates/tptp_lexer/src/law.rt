//! Laws over all texts.

ghost use Rattle.std.specs.Prelude.{◌≡◌, ◌⊎◌, List};
ghost use Rattle.text_core.specs.Names.{Text};
ghost use Rattle.tptp_lexer.specs.declared.refusal.LexRefusal.{LexRefusal};
ghost use Rattle.tptp_lexer.specs.Tokens.{AreTokens, Token};
ghost use Rattle.tptp_lexer.specs.Order.{AreInOrder};
ghost use Rattle.tptp_lexer.specs.Refused.{LexFault};

/// A text has one list of tokens at most.
pub fn one_list_of_tokens()
    ensures { (bytes : Text) (ts us : List Token)
        → AreTokens bytes ts → AreTokens bytes us → ts ≡ us }
{}

/// A text has one first refused offset at most, which is refused for one reason.
pub fn one_first_refusal()
    ensures { (bytes : Text) (a b : LexRefusal) → LexFault bytes a → LexFault bytes b → a ≡ b }
{}

/// A text that has tokens has no first refused offset.
pub fn never_tokens_and_refusal()
    ensures { (bytes : Text) (ts : List Token) (a : LexRefusal)
        → AreTokens bytes ts → LexFault bytes a → ⊥ }
{}

/// Each text has tokens, or a first refused offset.
pub fn tokens_or_refusal()
    ensures { (bytes : Text)
        → ((ts : List Token) × AreTokens bytes ts) ⊎ ((a : LexRefusal) × LexFault bytes a) }
{}

/// Tokens are in order and do not overlap, and the text of each is that part of its source.
pub fn tokens_in_order()
    ensures { (bytes : Text) (ts : List Token) → AreTokens bytes ts → AreInOrder 0 bytes ts }
{}
