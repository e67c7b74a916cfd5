use text_core::Name;

/// A predicate symbol in a citation: equality, or a name with an arity.
#[derive(Debug, Drop)]
pub enum Symbol {
    Equality,
    Named(Name, u32),
}

/// What names a form of a task. A form of a problem's formula is cited by the formula's name and
/// its rank among the forms under that name, from 1. The others are the built-in axioms: `Refl`,
/// `Sym` and `Trans` of equality; `Sub`, that a predicate, or its complement where `positive` is
/// false, keeps to equality in one place, counted from 1; `No`, that a predicate and its complement
/// do not both hold; and `Or`, that one of them does.
#[derive(Debug, Drop)]
pub enum Citation {
    Axiom(Name, u32),
    Refl,
    Sym,
    Trans,
    Sub {
        positive: bool,
        symbol: Symbol,
        place: u32,
    },
    No(Symbol),
    Or(Symbol),
}
