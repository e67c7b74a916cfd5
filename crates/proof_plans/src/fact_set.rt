//! Sets of facts over finitely many elements.

ghost use Rattle.std.specs.Prelude.{ℕ, List, ◌≡◌, ◌++◌, Some, map, slice_get, IfSome};
ghost use Rattle.std.specs.Bool.{OnTrue};
ghost use Rattle.vernacular_tree.specs.Contexts.{slot_at, atom_at};
ghost use Rattle.proof_plans.specs.Landmarks.{element_in, digits, sign_digit, place_in, AreTold, SomeTold};

use crate::item::{item_at, place_at};
use logic_core::{Atom, List as Atoms, Slot};

/// A set of facts over finitely many elements. Each fact has a place; facts that share one are both
/// in the set, or both not.
#[derive(Clone, Copy)]
pub struct FactSet<'b> {
    /// The number of elements.
    pub elements: u32,
    /// The place at which the facts of each symbol begin.
    pub starts: &'b [usize],
    /// For each form, the element that stands for its first new one.
    pub fresh: &'b [u32],
    /// Whether the facts at each place are in the set.
    pub told: &'b [bool],
}

/// The element of a slot; `None` where its variable has none.
fn element_of(values: &[u32], slot: Slot) -> Option<u32>
    ensures { IfSome result (λ element. (more : List ℕ) → element
        ≡ element_in (slot_at (values.now ++ more) slot)) }
{
    match slot {
        Slot::Variable(variable) => item_at(values, variable as usize),
        Slot::Constant(constant) => Some(constant),
    }
}

/// Elements as the digits of a number, behind those of a first number; `None` where one is missing,
/// or where the number is out of range.
fn number_of(base: u32, first: usize, values: &[u32], slots: &[Slot]) -> Option<usize>
    ensures { IfSome result (λ number. (more : List ℕ) → number
        ≡ digits base first (map (slot_at (values.now ++ more)) slots.now)) }
{
    let mut number = first;
    for at in 0..slots.len() {
        let slot = item_at(slots, at)?;
        let element = element_of(values, slot)?;
        number = number
            .checked_mul(base as usize)?
            .checked_add(element as usize)?;
    }
    Some(number)
}

/// The first digit of a fact.
fn digit_of(positive: bool) -> usize
    ensures { result ≡ sign_digit positive }
{
    if positive { 1 } else { 0 }
}

/// The place of a fact of a form, where its first variables have these elements; `None` where one
/// is missing, or where it is out of range.
pub(crate) fn place_of(
    elements: u32,
    starts: &[usize],
    values: &[u32],
    atom: &Atom,
) -> Option<usize>
    ensures { IfSome result (λ place. (more : List ℕ) → place
        ≡ place_in elements starts.now (atom_at (values.now ++ more) atom.now)) }
{
    let start = item_at(starts, atom.symbol as usize)?;
    let first = digit_of(atom.positive);
    let number = number_of(elements, first, values, atom.args.as_slice())?;
    let place = start.checked_add(number)?;
    Some(place)
}

/// Whether a fact of a form is in the set; `None` where that is not known.
fn is_told(set: &FactSet<'_>, values: &[u32], atom: &Atom) -> Option<bool>
    ensures { IfSome result (λ told. (more : List ℕ) → slice_get set.now.told.now
        (place_in set.now.elements set.now.starts.now (atom_at (values.now ++ more) atom.now))
        ≡ Some told) }
{
    let place = place_of(set.elements, set.starts, values, atom)?;
    let is_told = item_at(set.told, place)?;
    Some(is_told)
}

/// Whether these facts are known to be in the set.
pub(crate) fn are_told(set: &FactSet<'_>, values: &[u32], atoms: &[Atom]) -> bool
    ensures { OnTrue result ((more : List ℕ) → AreTold set.now (values.now ++ more) atoms.now) }
{
    for number in 0..atoms.len() {
        let Some(atom) = place_at(atoms, number) else {
            return false;
        };
        let Some(true) = is_told(set, values, atom) else {
            return false;
        };
    }
    true
}

/// Whether one of these facts is known not to be in the set.
pub(crate) fn is_one_missing(set: &FactSet<'_>, values: &[u32], atoms: &[Atom]) -> bool
    ensures { OnTrue result ((more : List ℕ) → AreTold set.now (values.now ++ more) atoms.now → ⊥) }
{
    for number in 0..atoms.len() {
        let Some(atom) = place_at(atoms, number) else {
            return false;
        };
        if let Some(false) = is_told(set, values, atom) {
            return true;
        }
    }
    false
}

/// Whether the facts of one of these lists are known to be in the set.
pub(crate) fn is_one_told(set: &FactSet<'_>, values: &[u32], lists: &[Atoms<Atom>]) -> bool
    ensures { OnTrue result ((more : List ℕ) → SomeTold set.now (values.now ++ more) lists.now) }
{
    for number in 0..lists.len() {
        let Some(facts) = place_at(lists, number) else {
            return false;
        };
        if are_told(set, values, facts.as_slice()) {
            return true;
        }
    }
    false
}
