ghost use Rattle.std.specs.Prelude.{◌≡◌};
ghost use Rattle.isar_text.specs.Fixed as texts;

/// A token that has one text.
#[derive(Clone, Copy, Debug, PartialEq, Eq)]
pub enum Fixed {
    /// `have`
    Have,
    /// `obtain`
    Obtain,
    /// `where`
    Where,
    /// `using`
    Using,
    /// `by`
    By,
    /// `blast`
    Blast,
    /// `show`
    Show,
    /// `proof`
    Proof,
    /// `elim`
    Elim,
    /// `disjE`
    DisjE,
    /// `assume`
    Assume,
    /// `next`
    Next,
    /// `qed`
    Qed,
    /// `as`
    As,
    /// `efq`
    Efq,
    /// `True`
    True,
    /// `False`
    False,
    /// `?thesis`
    Thesis,
    /// `"`
    Quote,
    /// `:`
    Colon,
    /// `(*`
    OpenComment,
    /// `*)`
    CloseComment,
    /// `(`
    OpenParenthesis,
    /// `)`
    CloseParenthesis,
    /// `[`
    OpenBracket,
    /// `]`
    CloseBracket,
    /// `,`
    Comma,
    /// `&`
    Ampersand,
    /// `|`
    Bar,
    /// `~`
    Tilde,
    /// `~=`
    NotEqual,
    /// `=`
    Equal,
}

/// All of them.
const ALL: [Fixed; 32] = [
    Fixed::Have,
    Fixed::Obtain,
    Fixed::Where,
    Fixed::Using,
    Fixed::By,
    Fixed::Blast,
    Fixed::Show,
    Fixed::Proof,
    Fixed::Elim,
    Fixed::DisjE,
    Fixed::Assume,
    Fixed::Next,
    Fixed::Qed,
    Fixed::As,
    Fixed::Efq,
    Fixed::True,
    Fixed::False,
    Fixed::Thesis,
    Fixed::Quote,
    Fixed::Colon,
    Fixed::OpenComment,
    Fixed::CloseComment,
    Fixed::OpenParenthesis,
    Fixed::CloseParenthesis,
    Fixed::OpenBracket,
    Fixed::CloseBracket,
    Fixed::Comma,
    Fixed::Ampersand,
    Fixed::Bar,
    Fixed::Tilde,
    Fixed::NotEqual,
    Fixed::Equal,
];

/// The token with this text.
#[tactic(auto, unfolding(crate::specs::Fixed::fixed_of))]
pub(crate) fn fixed_of(text: &[u8]) -> Option<Fixed>
    ensures { result ≡ texts.fixed_of text.now }
{
    ALL.iter().copied().find(|fixed| text == fixed_text(*fixed))
}

/// The text of the token.
pub(crate) fn fixed_text(fixed: Fixed) -> &'static [u8]
    ensures { result.now ≡ texts.fixed_text fixed }
{
    match fixed {
        Fixed::Have => b"have",
        Fixed::Obtain => b"obtain",
        Fixed::Where => b"where",
        Fixed::Using => b"using",
        Fixed::By => b"by",
        Fixed::Blast => b"blast",
        Fixed::Show => b"show",
        Fixed::Proof => b"proof",
        Fixed::Elim => b"elim",
        Fixed::DisjE => b"disjE",
        Fixed::Assume => b"assume",
        Fixed::Next => b"next",
        Fixed::Qed => b"qed",
        Fixed::As => b"as",
        Fixed::Efq => b"efq",
        Fixed::True => b"True",
        Fixed::False => b"False",
        Fixed::Thesis => b"?thesis",
        Fixed::Quote => b"\"",
        Fixed::Colon => b":",
        Fixed::OpenComment => b"(*",
        Fixed::CloseComment => b"*)",
        Fixed::OpenParenthesis => b"(",
        Fixed::CloseParenthesis => b")",
        Fixed::OpenBracket => b"[",
        Fixed::CloseBracket => b"]",
        Fixed::Comma => b",",
        Fixed::Ampersand => b"&",
        Fixed::Bar => b"|",
        Fixed::Tilde => b"~",
        Fixed::NotEqual => b"~=",
        Fixed::Equal => b"=",
    }
}
