use logic_core::{Atom, List};

/// A line of a context: facts that stand, two or more cases of which one holds, or falsehood. In an
/// atom of a line each slot `Constant(e)` is element `e`.
#[derive(Debug, Drop)]
pub enum Line {
    Facts(List<Atom>),
    Cases(List<List<Atom>>),
    Falsum,
}

/// What is known at some point of a proof: the number of elements, which are numbered from 0, and
/// the lines, numbered from 0.
#[derive(Debug, Drop)]
pub struct Context {
    pub elements: u32,
    pub lines: List<Line>,
}
