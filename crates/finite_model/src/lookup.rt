ghost use Rattle.std.specs.Prelude.{◌≡◌, IfOk, OnOk};
ghost use Rattle.text_core.specs.Names.{Text};
ghost use Rattle.model_text.specs.Structures.{IsSound};
ghost use Rattle.finite_model.specs.Structures.{found_place, has_fact};
ghost use Rattle.finite_model.specs.Tabled.{place_found, place_with, HasPlaces, HasFacts};

use indexmap::IndexSet;
use model_text::{Fact, Model, Place};
use std::alloc::Global;
use std::collections::HashMap;
use text_core::{Memory, Name};

/// A finite structure with tables of its places and facts. Contracts see the structure.
#[derive(Drop)]
pub(crate) struct Lookup<'m> {
    model: &'m Model,
    places: HashMap<&'m [u8], u32>,
    facts: IndexSet<(&'m [u8], &'m [u32])>,
}

impl<'m> std::marker::Model for Lookup<'m> {
    ghost use Rattle.model_text.specs.Structures.{Finite};
    ghost use Rattle.finite_model.specs.Tabled.{AreTabled};

    ghost Value = { Finite };

    ghost view = { λ it. it.model.now };

    ghost invariant = { λ it. AreTabled it.model.now it.places it.facts.keys };
}

impl<'m> Lookup<'m> {
    /// The structure with its tables. `Memory` is want of memory.
    pub(crate) fn new(alloc: Global, model: &'m Model) -> Result<Lookup<'m>, Memory>
        ensures { IfOk result (λ lookup. lookup ≡ model.now) }
    {
        let places = table_places(alloc, model.places().as_slice())?;
        let facts = table_facts(alloc, model.facts().as_slice())?;
        Ok(Lookup {
            model,
            places,
            facts,
        })
    }

    /// How many elements there are.
    pub(crate) fn size(&self) -> u32
        ensures value { result ≡ self.now.size }
        ensures sound { IsSound self.now }
    {
        self.model.size()
    }

    /// The element of a constant; `None` exactly where it has no place. It takes no memory.
    pub(crate) fn place(&self, constant: &Name) -> Option<u32>
        ensures { result ≡ found_place self.now.places constant.now }
    {
        match self.places.get(constant.bytes()) {
            Some(element) => Some(*element),
            None => None,
        }
    }

    /// Whether a predicate holds of these elements. It takes no memory.
    pub(crate) fn holds(&self, predicate: &Name, arguments: &[u32]) -> bool
        ensures { result ≡ has_fact self.now.facts predicate.now arguments.now }
    {
        self.facts.contains(&(predicate.bytes(), arguments))
    }
}

// The elements of constants by name.
fn table_places<'m>(alloc: Global, places: &'m [Place]) -> Result<HashMap<&'m [u8], u32>, Memory>
    ensures { IfOk result (λ table. HasPlaces places.now table) }
{
    let mut table = HashMap::new(alloc);
    for place in places {
        table_place(place, &mut table)?;
    }
    Ok(table)
}

// Adds a place, unless its constant has one.
fn table_place<'m>(place: &'m Place, table: &mut HashMap<&'m [u8], u32>) -> Result<(), Memory>
    ensures { OnOk result ((constant : Text) → place_found table.new constant
        ≡ place_with (place_found table.old constant) place.now constant) }
{
    let constant = place.constant.bytes();
    match table.get(constant) {
        Some(_) => Ok(()),
        None => {
            table.insert(constant, place.element)?;
            Ok(())
        }
    }
}

// The facts by predicate and arguments.
fn table_facts<'m>(
    alloc: Global,
    facts: &'m [Fact],
) -> Result<IndexSet<(&'m [u8], &'m [u32])>, Memory>
    ensures { IfOk result (λ table. HasFacts facts.now table.keys) }
{
    let mut table = IndexSet::new(alloc);
    for fact in facts {
        table.insert((fact.predicate.bytes(), fact.arguments.as_slice()))?;
    }
    Ok(table)
}
