ghost use Rattle.std.specs.Prelude.{◌≡◌, [], ◌∷◌, ◌++◌, IfOk, OnOk};
ghost use Rattle.std.specs.Cmp.{partial_equiv_from_equiv};
ghost use Rattle.std.specs.Cmp.Lexicographic.{pointwise, nat_list_eq_equiv};
ghost use Rattle.std.specs.Cmp.Rules.{hashing};
ghost use Rattle.std.specs.Hash as fed;
ghost use Rattle.std.proofs.Common.{rules, nat_eq};

use std::alloc::Global;
use std::hash::{Hash, Hasher};
use std::marker::Model;
use text_core::{List, Memory};

/// The elements at which an atom is. Contracts see the list of them.
#[derive(Debug, Drop)]
pub(crate) struct Elements {
    numbers: List<u32>,
}

impl Model for Elements {
    ghost use Rattle.std.specs.Prelude.{List, ℕ};

    ghost Value = { List ℕ };

    ghost view = { λ it. it.numbers };
}

impl Elements {
    /// No elements. It takes no memory.
    pub(crate) fn new(alloc: Global) -> Elements
        ensures { result ≡ [] }
    {
        Elements {
            numbers: List::new(alloc),
        }
    }

    /// Appends an element.
    pub(crate) fn push(&mut self, element: u32) -> Result<(), Memory>
        ensures { OnOk result (self.new ≡ self.old ++ element ∷ []) }
    {
        self.numbers.push(element)
    }

    /// The elements in order.
    pub(crate) fn as_slice(&self) -> &[u32]
        ensures { result.now ≡ self.now }
    {
        self.numbers.as_slice()
    }

    /// A copy, which equals the elements. `Memory` is want of memory.
    pub(crate) fn try_copy(&self, alloc: Global) -> Result<Elements, Memory>
        ensures { IfOk result (λ copy. copy ≡ self.now) }
    {
        Ok(Elements {
            numbers: List::from_slice(alloc, self.numbers.as_slice())?,
        })
    }
}

impl PartialEq for Elements {
    ghost eq = { pointwise nat_eq };

    ghost laws = { partial_equiv_from_equiv nat_list_eq_equiv };

    fn eq(&self, other: &Elements) -> bool {
        self.as_slice() == other.as_slice()
    }
}

impl Eq for Elements {
    ghost laws = { nat_list_eq_equiv };
}

impl Hash for Elements {
    ghost hash_input = { fed.slice fed.u32 };

    ghost respects_eq = { Prim.search (hashing, rules) };

    fn hash<H: Hasher>(&self, state: &mut H) {
        self.as_slice().hash(state);
    }
}
