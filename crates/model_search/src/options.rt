ghost use Rattle.std.specs.Prelude.{ℕ, List, ◌≡◌, ◌⊎◌, ◌<◌, ◌++◌, length, IfOk, IfSome, IfNone, OnOk};
ghost use Rattle.std.specs.List.{AllByRecursion};
ghost use Rattle.logic_core.specs.Forms.{AtomTrue};
ghost use Rattle.model_search.specs.Candidates.{Candidate, world};
ghost use Rattle.model_search.specs.Keys.{AllTrue};
ghost use Rattle.model_search.specs.Rules.{SomeTrue};
ghost use Rattle.model_search.specs.Sheets.{Covers, Goes};

use crate::instance::{decided, ground_atom};
use crate::key::Ground;
use crate::sheet::Sheet;
use logic_core::Atom;
use std::alloc::Global;
use text_core::{List, Memory};

/// The atoms of a disjunct at these values and places, without those that are true in every
/// structure; `None` where one is true in none.
fn atoms_left(
    alloc: Global,
    sheet: &mut Sheet,
    disjunct: &[Atom],
    values: &[u32],
    places: &[u32],
) -> Result<Option<Vec<Ground>>, Memory>
    ensures goes { OnOk result (Goes sheet.old sheet.new) }
    ensures some { IfOk result (λ left. IfSome left (λ grounds. (c : Candidate)
        → AllByRecursion (AtomTrue (world c) values.now) disjunct.now
        → AllTrue c grounds.items ⊎ Covers c sheet.new)) }
    ensures none { IfOk result (λ left. IfNone left ((c : Candidate)
        → AllByRecursion (AtomTrue (world c) values.now) disjunct.now → Covers c sheet.new)) }
{
    let mut left = Vec::new(alloc);
    for atom in disjunct {
        let fact = ground_atom(alloc, sheet, atom, values, places)?;
        match decided(&fact) {
            Some(true) => {}
            Some(false) => return Ok(None),
            None => left.push(fact)?,
        }
    }
    Ok(Some(left))
}

/// Adds the literal that all of these atoms are true; without one, the clause is true.
fn add_each(alloc: Global, sheet: &mut Sheet, grounds: Vec<Ground>) -> Result<(), Memory>
    ensures goes { OnOk result (Goes sheet.old sheet.new) }
    ensures covers { OnOk result ((c : Candidate) → AllTrue c grounds.items
        → Covers c sheet.new) }
{
    let mut grounds = grounds;
    if grounds.len() > 1 {
        return sheet.add_all(alloc, grounds);
    }
    match grounds.pop() {
        Some(fact) => sheet.add_true(fact),
        None => {
            sheet.settle();
            Ok(())
        }
    }
}

/// Adds the literal of an option: a disjunct at these values and places.
fn add_option(
    alloc: Global,
    sheet: &mut Sheet,
    disjunct: &[Atom],
    values: &[u32],
    places: &[u32],
) -> Result<(), Memory>
    ensures goes { OnOk result (Goes sheet.old sheet.new) }
    ensures covers { OnOk result ((c : Candidate)
        → AllByRecursion (AtomTrue (world c) values.now) disjunct.now → Covers c sheet.new) }
{
    match atoms_left(alloc, sheet, disjunct, values, places)? {
        Some(grounds) => add_each(alloc, sheet, grounds),
        None => Ok(()),
    }
}

/// Adds the literals of the disjuncts at these values and places.
pub(crate) fn add_disjuncts(
    alloc: Global,
    sheet: &mut Sheet,
    disjuncts: &[List<Atom>],
    values: &[u32],
    places: &[u32],
) -> Result<(), Memory>
    ensures goes { OnOk result (Goes sheet.old sheet.new) }
    ensures covers { OnOk result ((c : Candidate) → SomeTrue c values.now disjuncts.now
        → Covers c sheet.new) }
{
    for disjunct in disjuncts {
        add_option(alloc, sheet, disjunct.as_slice(), values, places)?;
    }
    Ok(())
}

/// Adds the literals of the disjuncts at these values and each choice of elements for so many
/// further variables. A clause that is known to be true gets none.
pub(crate) fn add_options(
    alloc: Global,
    sheet: &mut Sheet,
    disjuncts: &[List<Atom>],
    values: &mut Vec<u32>,
    places: &[u32],
    size: u32,
    further: u32,
) -> Result<(), Memory>
    ensures values { OnOk result (values.new.items ≡ values.old.items) }
    ensures goes { OnOk result (Goes sheet.old sheet.new) }
    ensures covers { OnOk result ((c : Candidate) (xs : List ℕ) → length xs ≡ further
        → AllByRecursion (λ x. x < size) xs → SomeTrue c (values.old.items ++ xs) disjuncts.now
        → Covers c sheet.new) }
{
    if sheet.is_settled() {
        return Ok(());
    }
    if further == 0 {
        return add_disjuncts(alloc, sheet, disjuncts, values.as_slice(), places);
    }
    for element in 0..size {
        values.push(element)?;
        add_options(alloc, sheet, disjuncts, values, places, size, further - 1)?;
        values.pop();
    }
    Ok(())
}
