/// A built-in axiom: that equality is reflexive, symmetric and transitive; that a predicate symbol,
/// or its complement where `positive` is false, keeps to equality in one place, counted from 1;
/// that a symbol and its complement do not both hold; and that one of them does. Symbols are told
/// by number.
#[derive(Clone, Copy, PartialEq, Eq, Hash, Debug)]
pub enum BuiltIn {
    Refl,
    Sym,
    Trans,
    Sub {
        positive: bool,
        symbol: u32,
        place: u32,
    },
    No {
        symbol: u32,
    },
    Or {
        symbol: u32,
    },
}

/// Where a form of a task comes from: a formula of the problem, told by the number of its name and
/// the form's rank under that name, from 1; or no formula.
#[derive(Clone, Copy, PartialEq, Eq, Hash, Debug)]
pub enum Source {
    Formula { name: u32, rank: u32 },
    BuiltIn(BuiltIn),
}
