ghost use Rattle.std.specs.Prelude.{◌≡◌, IfOk};

use crate::elements::Elements;
use std::alloc::Global;
use text_core::Memory;

/// An atom at elements: a symbol, or its complement where `positive` is false.
#[derive(PartialEq, Eq, Hash, Debug, Drop)]
pub(crate) struct Ground {
    pub(crate) positive: bool,
    pub(crate) symbol: u32,
    pub(crate) elements: Elements,
}

/// What a variable of the clauses stands for: an atom at elements, that a constant or a parameter
/// stands for an element, or that all of some atoms are true.
#[derive(PartialEq, Eq, Hash, Debug, Drop)]
pub(crate) enum Key {
    Fact(Ground),
    Place { constant: u32, element: u32 },
    All(Vec<Ground>),
}

impl Ground {
    /// A copy, which equals the atom. `Memory` is want of memory.
    pub(crate) fn try_copy(&self, alloc: Global) -> Result<Ground, Memory>
        ensures { IfOk result (λ copy. copy ≡ self.now) }
    {
        Ok(Ground {
            positive: self.positive,
            symbol: self.symbol,
            elements: self.elements.try_copy(alloc)?,
        })
    }
}
