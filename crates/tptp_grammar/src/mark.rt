ghost use Rattle.std.specs.Prelude.{◌≡◌, List, if◌then◌else◌};
ghost use Rattle.std.specs.Str.{bytes_eq};
ghost use Rattle.tptp_lexer.specs.declared.kind.Kind.TheVariants.{Lower, Upper};
ghost use Rattle.tptp_lexer.specs.Tokens.{Token};
ghost use Rattle.tptp_grammar.specs.declared.mark.Mark.TheVariants.{Other};
ghost use Rattle.tptp_grammar.specs.Marks.{lower_mark, dollar_mark, marked};
ghost use Rattle.tptp_grammar.specs.Parts.{is_kind, is_lower, is_word, is_name, is_upper, is_plain};

use crate::role::role_of;
use logic_core::{Op, Role};
use tptp_lexer::Kind;

/// What the grammar looks at in a token.
#[derive(Clone, Copy, Debug)]
pub enum Mark {
    /// The word `fof`.
    Fof,
    /// The word `include`.
    Include,
    /// A word that tells a role, as `axiom`.
    Role(Role),
    /// `$true`, or `$false`.
    Truth(bool),
    /// An upper word. Two of them have the same number exactly where they are the same word.
    Upper(u32),
    /// A binary connective other than `&` and `|`.
    Connective(Op),
    /// A token of any other kind.
    Other(Kind),
}

impl Mark {
    // A token of this kind, which no other mark tells.
    pub(crate) fn is_kind(self, kind: Kind) -> bool
        ensures { result ≡ is_kind kind self }
    {
        matches!(self, Mark::Other(other) if kind == other)
    }

    // A lower word.
    pub(crate) fn is_lower(self) -> bool
        ensures { result ≡ is_lower self }
    {
        matches!(
            self,
            Mark::Fof | Mark::Include | Mark::Role(_) | Mark::Other(Kind::Lower)
        )
    }

    // A lower word or a quoted one.
    pub(crate) fn is_word(self) -> bool
        ensures { result ≡ is_word self }
    {
        self.is_lower() || self.is_kind(Kind::Quoted)
    }

    // A word or an integer.
    pub(crate) fn is_name(self) -> bool
        ensures { result ≡ is_name self }
    {
        self.is_word() || self.is_kind(Kind::Integer)
    }

    // An upper word.
    pub(crate) fn is_upper(self) -> bool
        ensures { result ≡ is_upper self }
    {
        matches!(self, Mark::Upper(_))
    }

    // An upper word, an integer or a distinct object.
    pub(crate) fn is_plain(self) -> bool
        ensures { result ≡ is_plain self }
    {
        self.is_upper() || self.is_kind(Kind::Integer) || self.is_kind(Kind::Distinct)
    }
}

/// The mark of a token that is no upper word.
pub(crate) fn mark_of(kind: Kind, text: &[u8]) -> Mark
    requires { kind ≡ Upper → ⊥ }
    ensures { (ts : List Token) → result ≡ marked ts kind text.now }
{
    match kind {
        Kind::Lower => lower_mark(text),
        Kind::Dollar => dollar_mark(text),
        Kind::Implies => Mark::Connective(Op::Implies),
        Kind::Implied => Mark::Connective(Op::Implied),
        Kind::Iff => Mark::Connective(Op::Iff),
        Kind::Xor => Mark::Connective(Op::Xor),
        Kind::Nor => Mark::Connective(Op::Nor),
        Kind::Nand => Mark::Connective(Op::Nand),
        _ => Mark::Other(kind),
    }
}

// The mark of a lower word. Its first byte tells that most words are no special ones.
#[tactic(auto, unfolding(crate::specs::RoleWords::role_of))]
fn lower_mark(text: &[u8]) -> Mark
    ensures { result ≡ lower_mark text.now }
{
    let Some(first) = text.first() else {
        return Mark::Other(Kind::Lower);
    };
    match *first {
        b'f' => mark_or(text, b"fof", Mark::Fof),
        b'i' => mark_or(text, b"include", Mark::Include),
        _ => match role_of(text) {
            Some(role) => Mark::Role(role),
            None => Mark::Other(Kind::Lower),
        },
    }
}

// A mark, where the word is this one, and else that of a lower word that is not special.
fn mark_or(text: &[u8], word: &[u8], mark: Mark) -> Mark
    ensures { result ≡ (if bytes_eq text.now word.now then mark else Other Lower) }
{
    if text == word {
        mark
    } else {
        Mark::Other(Kind::Lower)
    }
}

// The mark of a word behind a dollar.
fn dollar_mark(text: &[u8]) -> Mark
    ensures { result ≡ dollar_mark text.now }
{
    if text == b"$true".as_slice() {
        Mark::Truth(true)
    } else if text == b"$false".as_slice() {
        Mark::Truth(false)
    } else {
        Mark::Other(Kind::Dollar)
    }
}
