ghost use Rattle.std.specs.Prelude.{◌≡◌, ◌∷◌, None, IfOk};
ghost use Rattle.include_flat.specs.Walks.{is_selected};
ghost use Rattle.include_flat.specs.Progress.{selections_of, AreAlike};

use indexmap::IndexSet;
use logic_core::{List, Memory, Name};
use std::alloc::Global;
use std::marker::Model;

/// The names that are in every selection on the way from the first file, where there is one.
/// Contracts see the list of these names.
#[derive(Drop)]
pub(crate) struct Selected {
    names: Option<IndexSet<Name>>,
}

impl Model for Selected {
    ghost use Rattle.std.specs.Prelude.{List as Lst, ℕ, Option};
    ghost use Rattle.std.specs.Option.{option_map};

    ghost Value = { Option (Lst (Lst ℕ)) };

    ghost view = { λ s. option_map (λ names. names.keys) s.names };
}

impl Selected {
    /// Every name, where there is no selection. It takes no memory.
    pub(crate) fn all() -> Selected
        ensures { result ≡ None }
    {
        Selected { names: None }
    }

    /// Whether a name is in every selection.
    pub(crate) fn has(&self, name: &Name) -> bool
        ensures { result ≡ is_selected (selections_of self.now) name.now }
    {
        match &self.names {
            Some(names) => names.contains(name),
            None => true,
        }
    }

    /// The names that are in one more selection too. `Memory` is want of memory.
    pub(crate) fn within(&self, alloc: Global, only: List<Name>) -> Result<Selected, Memory>
        ensures { IfOk result (λ inner.
            AreAlike (selections_of inner) (only ∷ selections_of self.now)) }
    {
        let mut names = IndexSet::new(alloc);
        for name in only.into_vec() {
            if self.has(&name) {
                names.insert(name)?;
            }
        }
        Ok(Selected { names: Some(names) })
    }
}
