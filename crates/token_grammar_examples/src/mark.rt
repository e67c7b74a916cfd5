/// What the grammar of expressions sees of a token.
#[derive(Clone, Copy, Debug, PartialEq, Eq)]
pub enum Mark {
    /// A number.
    Number(u32),
    /// `-`
    Minus,
    /// `+`
    Plus,
    /// `(`
    Open,
    /// `)`
    Close,
    /// `[`
    OpenRow,
    /// `]`
    CloseRow,
    /// `,`
    Comma,
}
