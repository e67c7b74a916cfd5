use text_core::List;

/// An argument of an atom. In a form, `Variable(i)` is universal where `i` is below the number of
/// the form's universal variables, and else existential; `Constant(c)` is constant number `c`. In a
/// line of a proof's context, `Constant(e)` is element `e`.
#[derive(Clone, Copy, PartialEq, Eq, Debug)]
pub enum Slot {
    Variable(u32),
    Constant(u32),
}

/// A predicate, or its complement where `positive` is false, with its arguments. The symbol is its
/// number; symbol 0 is equality.
#[derive(Debug, Drop)]
pub struct Atom {
    pub positive: bool,
    pub symbol: u32,
    pub args: List<Slot>,
}

/// A coherent form: for all values of the universal variables at which every premise holds, there
/// are values of the existential variables at which every atom of some disjunct holds. The
/// universal variables are numbered from 0, the existential ones after them. Source: the coherent
/// formulas of the 2014 paper "A Vernacular for Coherent Logic".
#[derive(Debug, Drop)]
pub struct Form {
    pub universals: u32,
    pub premises: List<Atom>,
    pub existentials: u32,
    pub disjuncts: List<List<Atom>>,
}
