ghost use Rattle.std.specs.Prelude.{◌≡◌, ◌⊎◌, ◌<◌, slice_index, IsTrue, IfOk, IfSome, OnOk};
ghost use Rattle.std.specs.List.{AllByRecursion};
ghost use Rattle.logic_core.specs.Forms.{AtomTrue, slot_value};
ghost use Rattle.model_search.specs.Candidates.{Candidate, world};
ghost use Rattle.model_search.specs.Keys.{ground_true};
ghost use Rattle.model_search.specs.Rules.{Means, SuitsForm};
ghost use Rattle.model_search.specs.Sheets.{Covers, Goes, GoesIf};

use crate::choices::{MOST_OPTIONS, choices};
use crate::elements::Elements;
use crate::key::{Ground, Key};
use crate::options::add_options;
use crate::sheet::Sheet;
use logic_core::{Atom, Form, Slot};
use std::alloc::Global;
use text_core::Memory;

/// The number at an index. `Memory` where there is none.
pub(crate) fn number_at(numbers: &[u32], index: u32) -> Result<u32, Memory>
    ensures { IfOk result (λ x. slice_index numbers.now index ≡ x) }
{
    match numbers.get(index as usize) {
        Some(number) => Ok(*number),
        None => Err(Memory),
    }
}

/// The element of a slot, for these values of the variables, and where the constants stand for
/// these places. A constant adds the literal that it does not stand for its place.
fn element(sheet: &mut Sheet, slot: Slot, values: &[u32], places: &[u32]) -> Result<u32, Memory>
    ensures goes { OnOk result (Goes sheet.old sheet.new) }
    ensures value { IfOk result (λ element. (c : Candidate)
        → (slot_value (world c) values.now slot ≡ element) ⊎ Covers c sheet.new) }
{
    match slot {
        Slot::Variable(variable) => number_at(values, variable),
        Slot::Constant(constant) => {
            let element = number_at(places, constant)?;
            sheet.add(Key::Place { constant, element }, false)?;
            Ok(element)
        }
    }
}

/// An atom at these values and places.
pub(crate) fn ground_atom(
    alloc: Global,
    sheet: &mut Sheet,
    atom: &Atom,
    values: &[u32],
    places: &[u32],
) -> Result<Ground, Memory>
    ensures goes { OnOk result (Goes sheet.old sheet.new) }
    ensures means { IfOk result (λ fact. (c : Candidate)
        → Means c values.now atom.now fact ⊎ Covers c sheet.new) }
{
    let mut elements = Elements::new(alloc);
    for slot in atom.args.as_slice() {
        elements.push(element(sheet, *slot, values, places)?)?;
    }
    Ok(Ground {
        positive: atom.positive,
        symbol: atom.symbol,
        elements,
    })
}

/// Whether an atom at elements is true in every structure, or in none: one of equality is.
pub(crate) fn decided(fact: &Ground) -> Option<bool>
    ensures { IfSome result (λ truth. (c : Candidate) → ground_true c fact.now ≡ truth) }
{
    if fact.symbol != 0 {
        return None;
    }
    match fact.elements.as_slice() {
        [left, right] => Some((*left == *right) == fact.positive),
        _ => Some(!fact.positive),
    }
}

/// Adds the literal that a premise is not true.
fn oppose(
    alloc: Global,
    sheet: &mut Sheet,
    premise: &Atom,
    values: &[u32],
    places: &[u32],
) -> Result<(), Memory>
    ensures goes { OnOk result (Goes sheet.old sheet.new) }
    ensures covers { OnOk result ((c : Candidate)
        → AtomTrue (world c) values.now premise.now ⊎ Covers c sheet.new) }
{
    let fact = ground_atom(alloc, sheet, premise, values, places)?;
    match decided(&fact) {
        Some(true) => Ok(()),
        Some(false) => {
            sheet.settle();
            Ok(())
        }
        None => sheet.add_false(fact),
    }
}

/// Adds the literals that the premises are not true.
pub(crate) fn oppose_each(
    alloc: Global,
    sheet: &mut Sheet,
    premises: &[Atom],
    values: &[u32],
    places: &[u32],
) -> Result<(), Memory>
    ensures goes { OnOk result (Goes sheet.old sheet.new) }
    ensures covers { OnOk result ((c : Candidate)
        → AllByRecursion (AtomTrue (world c) values.now) premises.now ⊎ Covers c sheet.new) }
{
    for premise in premises {
        oppose(alloc, sheet, premise, values, places)?;
    }
    Ok(())
}

/// Whether each number is an element.
pub(crate) fn are_elements(numbers: &[u32], size: u32) -> bool
    ensures { IsTrue result → AllByRecursion (λ x. x < size) numbers.now }
{
    for number in numbers {
        if *number >= size {
            return false;
        }
    }
    true
}

/// Adds the clause of an instance: the form at these values of its universal variables, where its
/// constants stand for these places. `Memory` is want of memory, or a form with too many options.
pub(crate) fn add_instance(
    alloc: Global,
    sheet: &mut Sheet,
    form: &Form,
    values: &mut Vec<u32>,
    places: &[u32],
    size: u32,
) -> Result<(), Memory>
    ensures { OnOk result (GoesIf (SuitsForm size form.now) sheet.old sheet.new) }
{
    if values.len() != form.universals as usize || !are_elements(values.as_slice(), size) {
        return Err(Memory);
    }
    if choices(size, form.existentials, MOST_OPTIONS).is_none() {
        return Err(Memory);
    }
    sheet.begin();
    oppose_each(
        alloc,
        sheet,
        form.premises.as_slice(),
        values.as_slice(),
        places,
    )?;
    let disjuncts = form.disjuncts.as_slice();
    add_options(
        alloc,
        sheet,
        disjuncts,
        values,
        places,
        size,
        form.existentials,
    )?;
    sheet.finish()
}
