/// Why a token is refused with which the tokens still begin a text.
#[derive(Clone, Copy, Debug)]
pub enum Limit {
    /// It opens a level above `MOST_LEVELS`.
    TooDeep,
    /// It is where a role has to be, and tells none.
    UnknownRole,
    /// It is a variable in a term that no quantifier binds.
    FreeVariable,
}
