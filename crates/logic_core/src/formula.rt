use text_core::{Boxed, List, Name};

/// A term without function symbols. Source: the TPTP syntax, FOF.
#[derive(Debug, Drop)]
pub enum Term {
    Variable(Name),
    Constant(Name),
}

/// A binary connective. `Implied` is implication read from right to left, `Xor` is non-equivalence,
/// `Nor` and `Nand` are negated disjunction and conjunction. Source: the TPTP syntax, FOF.
#[derive(Clone, Copy, PartialEq, Eq, Debug)]
pub enum Op {
    Implies,
    Implied,
    Iff,
    Xor,
    Nor,
    Nand,
}

/// A first-order formula. A predicate is its name with the number of its arguments; `And` and `Or`
/// take their members in order; of two equal names in one quantifier's list the later one binds.
/// Source: the TPTP syntax, FOF.
#[derive(Debug, Drop)]
pub enum Formula {
    True,
    False,
    Pred(Name, List<Term>),
    Equal(Term, Term),
    Not(Boxed<Formula>),
    And(List<Formula>),
    Or(List<Formula>),
    Binary(Op, Boxed<Formula>, Boxed<Formula>),
    ForAll(List<Name>, Boxed<Formula>),
    Exists(List<Name>, Boxed<Formula>),
}
