/// The kinds of tokens, after the TPTP syntax. Each sign, as `(`, is a kind of its own.
#[derive(Clone, Copy, Debug, PartialEq, Eq)]
pub enum Kind {
    /// A word that begins with `a` to `z`, as `man`.
    Lower,
    /// A word that begins with `A` to `Z`, as `X1`.
    Upper,
    /// A word in single quotes, as `'Adam''`.
    Quoted,
    /// A text in double quotes, as `"a note"`.
    Distinct,
    /// A decimal number, with or without a plus or minus before it, as `-12`.
    Integer,
    /// A word behind a dollar, as `$true`.
    Dollar,
    /// `(`
    OpenParenthesis,
    /// `)`
    CloseParenthesis,
    /// `[`
    OpenBracket,
    /// `]`
    CloseBracket,
    /// `,`
    Comma,
    /// `.`
    Dot,
    /// `:`
    Colon,
    /// `!`
    Exclamation,
    /// `?`
    Question,
    /// `~`
    Tilde,
    /// `&`
    Ampersand,
    /// `|`
    Bar,
    /// `=>`
    Implies,
    /// `<=`
    Implied,
    /// `<=>`
    Iff,
    /// `<~>`
    Xor,
    /// `~|`
    Nor,
    /// `~&`
    Nand,
    /// `=`
    Equal,
    /// `!=`
    NotEqual,
}
