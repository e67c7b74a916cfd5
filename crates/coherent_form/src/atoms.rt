ghost use Rattle.std.specs.Prelude.{◌≡◌, ◌+◌, ◌++◌, map, IfOk, OnOk};
ghost use Rattle.coherent_form.specs.Each.{atoms_in};
ghost use Rattle.coherent_form.specs.Reading.{variable_number as number_in, slot_moved as moved_slot, atom_moved as moved_atom, slot_of as slot_in, atom_of as atom_in, atoms_of};

use crate::numbering::number_of;
use logic_core::{Atom, Formula, Slot, Term};
use signature::Tables;
use std::alloc::Global;
use text_core::{List, Memory, Name};

/// The sum of two counts of variables. `Memory` where it does not fit in 32 bits.
pub(crate) fn sum_of(first: u32, second: u32) -> Result<u32, Memory>
    ensures { IfOk result (λ sum. sum ≡ first + second) }
{
    match first.checked_add(second) {
        Some(sum) => Ok(sum),
        None => Err(Memory),
    }
}

fn variable_number(scope: &[Name], name: &Name) -> Result<u32, Memory>
    ensures { IfOk result (λ number. number ≡ number_in scope.now name.now) }
{
    let mut number = 0;
    for at in 0..scope.len() {
        if scope[at] == *name {
            number = at;
        }
    }
    number_of(number)
}

fn slot_of(tables: &Tables, scope: &[Name], term: &Term) -> Result<Slot, Memory>
    ensures { IfOk result (λ slot. slot ≡ slot_in tables.now scope.now term.now) }
{
    match term {
        Term::Variable(name) => Ok(Slot::Variable(variable_number(scope, name)?)),
        Term::Constant(name) => Ok(Slot::Constant(tables.find_constant(name).unwrap_or(0))),
    }
}

fn slots_of(
    alloc: Global,
    tables: &Tables,
    scope: &[Name],
    terms: &[Term],
) -> Result<List<Slot>, Memory>
    ensures { IfOk result (λ slots. slots ≡ map (slot_in tables.now scope.now) terms.now) }
{
    let mut slots = List::new(alloc);
    for term in terms {
        slots.push(slot_of(tables, scope, term)?)?;
    }
    Ok(slots)
}

/// The atom that a formula is, or its complement.
fn atom_of(
    alloc: Global,
    tables: &Tables,
    scope: &[Name],
    positive: bool,
    formula: &Formula,
) -> Result<Atom, Memory>
    ensures { IfOk result (λ atom.
        atom ≡ atom_in tables.now scope.now positive formula.now) }
{
    let mut symbol = 0;
    let mut args = List::new(alloc);
    match formula {
        Formula::Pred(name, terms) => {
            let arity = number_of(terms.len())?;
            symbol = tables.find_symbol(name, arity).unwrap_or(0);
            args = slots_of(alloc, tables, scope, terms.as_slice())?;
        }
        Formula::Equal(left, right) => {
            args.push(slot_of(tables, scope, left)?)?;
            args.push(slot_of(tables, scope, right)?)?;
        }
        _ => {}
    }
    Ok(Atom {
        positive,
        symbol,
        args,
    })
}

#[cycle(atoms)]
fn push_each(
    alloc: Global,
    tables: &Tables,
    scope: &[Name],
    members: &[Formula],
    atoms: &mut List<Atom>,
) -> Result<(), Memory>
    ensures { OnOk result (atoms.new
        ≡ atoms.old ++ atoms_in tables.now scope.now members.now) }
{
    for member in members {
        push_atoms(alloc, tables, scope, member, atoms)?;
    }
    Ok(())
}

/// Appends the atoms of a conjunction in order.
#[cycle(atoms)]
pub(crate) fn push_atoms(
    alloc: Global,
    tables: &Tables,
    scope: &[Name],
    formula: &Formula,
    atoms: &mut List<Atom>,
) -> Result<(), Memory>
    ensures { OnOk result (atoms.new
        ≡ atoms.old ++ atoms_of tables.now scope.now formula.now) }
{
    match formula {
        Formula::Pred(_, _) | Formula::Equal(_, _) => {
            atoms.push(atom_of(alloc, tables, scope, true, formula)?)
        }
        Formula::Not(body) => atoms.push(atom_of(alloc, tables, scope, false, body.get())?),
        Formula::And(members) => push_each(alloc, tables, scope, members.as_slice(), atoms),
        _ => Ok(()),
    }
}

fn slot_moved(from: u32, by: u32, slot: Slot) -> Result<Slot, Memory>
    ensures { IfOk result (λ moved. moved ≡ moved_slot from by slot) }
{
    match slot {
        Slot::Variable(variable) if from <= variable => {
            Ok(Slot::Variable(sum_of(variable, by)?))
        }
        _ => Ok(slot),
    }
}

/// A copy of an atom whose variables from a number on are numbered higher.
pub(crate) fn atom_moved(alloc: Global, from: u32, by: u32, atom: &Atom) -> Result<Atom, Memory>
    ensures { IfOk result (λ moved. moved ≡ moved_atom from by atom.now) }
{
    let mut args = List::new(alloc);
    for slot in atom.args.as_slice() {
        args.push(slot_moved(from, by, *slot)?)?;
    }
    Ok(Atom {
        positive: atom.positive,
        symbol: atom.symbol,
        args,
    })
}

/// Appends copies of atoms whose variables from a number on are numbered higher.
pub(crate) fn push_moved(
    alloc: Global,
    from: u32,
    by: u32,
    more: &[Atom],
    atoms: &mut List<Atom>,
) -> Result<(), Memory>
    ensures { OnOk result (atoms.new ≡ atoms.old ++ map (moved_atom from by) more.now) }
{
    for atom in more {
        atoms.push(atom_moved(alloc, from, by, atom)?)?;
    }
    Ok(())
}
