ghost use Rattle.std.specs.Prelude.{◌≡◌, Some, None, if◌then◌else◌};
ghost use Rattle.std.specs.Str.{bytes_eq};
ghost use Rattle.proof_text.specs.Fixed.{fixed_text, keyword_of, dollar_of, is_keyword, same_fixed};

/// A token that has one text.
#[derive(Clone, Copy, Debug, PartialEq, Eq)]
pub enum Fixed {
    /// `vernacular`
    Vernacular,
    /// `take`
    Take,
    /// `mp`
    Mp,
    /// `with`
    With,
    /// `new`
    New,
    /// `gives`
    Gives,
    /// `as`
    As,
    /// `efq`
    Efq,
    /// `gap`
    Gap,
    /// `cs`
    Cs,
    /// `case`
    Case,
    /// `end`
    End,
    /// `$true`
    True,
    /// `$false`
    False,
    /// `$refl`
    Refl,
    /// `$sym`
    Sym,
    /// `$trans`
    Trans,
    /// `$sub`
    Sub,
    /// `$no`
    No,
    /// `$or`
    Or,
    /// `(`
    OpenParenthesis,
    /// `)`
    CloseParenthesis,
    /// `[`
    OpenBracket,
    /// `]`
    CloseBracket,
    /// `,`
    Comma,
    /// `.`
    Dot,
    /// `:`
    Colon,
    /// `~`
    Tilde,
    /// `&`
    Ampersand,
    /// `|`
    Bar,
    /// `=`
    Equal,
    /// `!=`
    NotEqual,
}

const DOLLAR_WORDS: [Fixed; 8] = [
    Fixed::True,
    Fixed::False,
    Fixed::Refl,
    Fixed::Sym,
    Fixed::Trans,
    Fixed::Sub,
    Fixed::No,
    Fixed::Or,
];

/// The keyword with this text. Its first byte leaves one or two of them.
#[tactic(auto, unfolding(crate::specs::Fixed::keyword_of))]
pub(crate) fn keyword_of(text: &[u8]) -> Option<Fixed>
    ensures { result ≡ keyword_of text.now }
{
    let Some(first) = text.first() else {
        return None;
    };
    match *first {
        b'v' => only(text, Fixed::Vernacular),
        b't' => only(text, Fixed::Take),
        b'm' => only(text, Fixed::Mp),
        b'w' => only(text, Fixed::With),
        b'n' => only(text, Fixed::New),
        b'g' => either(text, Fixed::Gives, Fixed::Gap),
        b'a' => only(text, Fixed::As),
        b'e' => either(text, Fixed::Efq, Fixed::End),
        b'c' => either(text, Fixed::Cs, Fixed::Case),
        _ => None,
    }
}

// The word, where this is its text.
fn only(text: &[u8], word: Fixed) -> Option<Fixed>
    ensures { result ≡ (if bytes_eq text.now (fixed_text word) then Some word else None) }
{
    if text == fixed_text(word) {
        Some(word)
    } else {
        None
    }
}

// One of two words, where this is its text.
fn either(text: &[u8], word: Fixed, other: Fixed) -> Option<Fixed>
    ensures { result ≡ (if bytes_eq text.now (fixed_text word) then Some word else
        (if bytes_eq text.now (fixed_text other) then Some other else None)) }
{
    if text == fixed_text(word) {
        Some(word)
    } else {
        only(text, other)
    }
}

/// The word behind a dollar with this text.
#[tactic(auto, unfolding(crate::specs::Fixed::dollar_of))]
pub(crate) fn dollar_of(text: &[u8]) -> Option<Fixed>
    ensures { result ≡ dollar_of text.now }
{
    DOLLAR_WORDS
        .iter()
        .copied()
        .find(|word| text == fixed_text(*word))
}

/// The text of the token.
pub(crate) fn fixed_text(fixed: Fixed) -> &'static [u8]
    ensures { result.now ≡ fixed_text fixed }
{
    match fixed {
        Fixed::Vernacular => b"vernacular",
        Fixed::Take => b"take",
        Fixed::Mp => b"mp",
        Fixed::With => b"with",
        Fixed::New => b"new",
        Fixed::Gives => b"gives",
        Fixed::As => b"as",
        Fixed::Efq => b"efq",
        Fixed::Gap => b"gap",
        Fixed::Cs => b"cs",
        Fixed::Case => b"case",
        Fixed::End => b"end",
        Fixed::True => b"$true",
        Fixed::False => b"$false",
        Fixed::Refl => b"$refl",
        Fixed::Sym => b"$sym",
        Fixed::Trans => b"$trans",
        Fixed::Sub => b"$sub",
        Fixed::No => b"$no",
        Fixed::Or => b"$or",
        Fixed::OpenParenthesis => b"(",
        Fixed::CloseParenthesis => b")",
        Fixed::OpenBracket => b"[",
        Fixed::CloseBracket => b"]",
        Fixed::Comma => b",",
        Fixed::Dot => b".",
        Fixed::Colon => b":",
        Fixed::Tilde => b"~",
        Fixed::Ampersand => b"&",
        Fixed::Bar => b"|",
        Fixed::Equal => b"=",
        Fixed::NotEqual => b"!=",
    }
}

impl Fixed {
    /// Whether the token is a lower word, which may name something too.
    pub(crate) fn is_keyword(self) -> bool
        ensures { result ≡ is_keyword self }
    {
        matches!(
            self,
            Fixed::Vernacular
                | Fixed::Take
                | Fixed::Mp
                | Fixed::With
                | Fixed::New
                | Fixed::Gives
                | Fixed::As
                | Fixed::Efq
                | Fixed::Gap
                | Fixed::Cs
                | Fixed::Case
                | Fixed::End
        )
    }

    /// Whether the two are the same.
    pub(crate) fn is(self, other: Fixed) -> bool
        ensures { result ≡ same_fixed self other }
    {
        self == other
    }
}
