use logic_core::Atom;
use text_core::List;

/// One way to make a premise true: there are values of so many variables at which every atom holds.
/// The variables are numbered after those in whose scope the premise stands.
#[derive(Debug, Drop)]
pub struct Alternative {
    pub variables: u32,
    pub atoms: List<Atom>,
}

/// A conclusion: there are values of so many variables at which every atom of some disjunct holds.
/// The variables are numbered after those in whose scope the conclusion stands.
#[derive(Debug, Drop)]
pub struct Head {
    pub variables: u32,
    pub disjuncts: List<List<Atom>>,
}
