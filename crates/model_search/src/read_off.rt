ghost use Rattle.std.specs.Prelude.{◌≡◌, ◌≤◌, ◌<◌, IfOk};
ghost use Rattle.std.specs.List.{AllByRecursion};
ghost use Rattle.text_core.specs.Names.{Text};
ghost use Rattle.model_text.specs.Structures.{AreElements, constants_of};
ghost use Rattle.model_text.specs.declared.structure.Place.{Place as Placed};
ghost use Rattle.model_text.specs.declared.structure.Fact.{Fact as Held};

use crate::find::MOST_SOUGHT;
use crate::found::Found;
use crate::instance::are_elements;
use finite_model::{Fact, Model, Place};
use signature::Tables;
use std::alloc::Global;
use text_core::{List, Memory};

/// The element of a constant, which is below the size.
fn place_of(found: &Found<'_>, constant: u32, size: u32) -> u32
    requires { 1 ≤ size }
    ensures { result < size }
{
    match found.places.get(constant as usize) {
        Some(element) => { if *element < size { *element } else { 0 } }
        None => 0,
    }
}

/// The places of the constants.
fn read_places(
    alloc: Global,
    tables: &Tables,
    found: &Found<'_>,
    size: u32,
) -> Result<List<Place>, Memory>
    requires { 1 ≤ size }
    ensures below { IfOk result (AllByRecursion (λ (p : Placed). p.element < size)) }
    ensures constants { IfOk result (λ places. constants_of places ≡ tables.now.constants) }
{
    let mut places = List::new(alloc);
    for number in 0..tables.constants() {
        places.push(Place {
            constant: tables.constant_name(number).try_copy(alloc)?,
            element: place_of(found, number, size),
        })?;
    }
    Ok(places)
}

/// The facts.
fn read_facts(
    alloc: Global,
    tables: &Tables,
    found: &Found<'_>,
    size: u32,
) -> Result<List<Fact>, Memory>
    ensures { IfOk result (AllByRecursion (λ (f : Held). AreElements size f.arguments)) }
{
    let mut facts = List::new(alloc);
    for (symbol, elements) in found.facts.as_slice() {
        let symbol = *symbol;
        if symbol == 0 || symbol >= tables.symbols() || !are_elements(elements, size) {
            return Err(Memory);
        }
        facts.push(Fact {
            predicate: tables.symbol_name(symbol).try_copy(alloc)?,
            arguments: List::from_slice(alloc, elements)?,
        })?;
    }
    Ok(facts)
}

/// The structure of this size that was found. `Memory` is want of memory.
pub(crate) fn read_off(
    alloc: Global,
    tables: &Tables,
    found: &Found<'_>,
    size: u32,
) -> Result<Model, Memory>
    requires some { 1 ≤ size }
    requires few { size ≤ MOST_SOUGHT }
    ensures { IfOk result (λ model. model.size ≡ size) }
{
    // No constant is there twice.
    let _count = tables.constants();
    let places = read_places(alloc, tables, found, size)?;
    let facts = read_facts(alloc, tables, found, size)?;
    Ok(Model::new(size, places, facts))
}
