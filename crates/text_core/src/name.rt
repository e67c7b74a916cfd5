ghost use Rattle.std.specs.Prelude.{◌≡◌, IfOk};
ghost use Rattle.std.specs.Cmp.{partial_equiv_from_equiv};
ghost use Rattle.std.specs.Cmp.Lexicographic.{pointwise, nat_list_eq_equiv};
ghost use Rattle.std.specs.Cmp.Rules.{hashing};
ghost use Rattle.std.specs.Hash as fed;
ghost use Rattle.std.proofs.Common.{rules, nat_eq};
ghost use Rattle.text_core.specs.NameTexts.{IsNameText};

use crate::memory::Memory;
use crate::name_bytes::NameBytes;
use std::alloc::Global;
use std::hash::{Hash, Hasher};
use std::marker::Model;

/// A name of a formula, a predicate, a constant or a variable, or of a file in an include: one or
/// more bytes of printable ASCII, from 32 to 126. Contracts see the list of its bytes.
#[derive(Debug, Drop)]
pub struct Name {
    bytes: NameBytes,
}

impl Model for Name {
    ghost use Rattle.std.specs.Prelude.{List, ℕ};
    ghost use Rattle.text_core.specs.NameTexts.{IsNameText};
    ghost use Rattle.text_core.specs.NameBytes.{bytes_of};

    ghost Value = { List ℕ };

    ghost view = { λ n. bytes_of n.bytes };

    ghost invariant = { λ n. IsNameText (bytes_of n.bytes) };
}

impl Name {
    /// The name with these bytes, which are one or more, each from 32 to 126. `Memory` is want of
    /// memory.
    pub fn from_bytes(alloc: Global, bytes: &[u8]) -> Result<Name, Memory>
        requires { IsNameText bytes.now }
        ensures { IfOk result (λ name. name ≡ bytes.now) }
    {
        Ok(Name {
            bytes: NameBytes::from_slice(alloc, bytes)?,
        })
    }

    /// The bytes, one or more, each from 32 to 126.
    pub fn bytes(&self) -> &[u8]
        ensures value { result.now ≡ self.now }
        ensures printable { IsNameText self.now }
    {
        self.bytes.as_slice()
    }

    /// A copy, which equals the name. `Memory` is want of memory.
    pub fn try_copy(&self, alloc: Global) -> Result<Name, Memory>
        ensures { IfOk result (λ name. name ≡ self.now) }
    {
        Ok(Name {
            bytes: NameBytes::from_slice(alloc, self.bytes.as_slice())?,
        })
    }
}

impl PartialEq for Name {
    ghost eq = { pointwise nat_eq };

    ghost laws = { partial_equiv_from_equiv nat_list_eq_equiv };

    fn eq(&self, other: &Name) -> bool {
        self.bytes() == other.bytes()
    }
}

impl Eq for Name {
    ghost laws = { nat_list_eq_equiv };
}

impl Hash for Name {
    ghost hash_input = { fed.slice fed.u8 };

    ghost respects_eq = { Prim.search (hashing, rules) };

    fn hash<H: Hasher>(&self, state: &mut H) {
        self.bytes().hash(state);
    }
}
