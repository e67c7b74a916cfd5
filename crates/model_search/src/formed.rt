ghost use Rattle.std.specs.Prelude.{◌+◌, IsTrue};
ghost use Rattle.std.specs.List.{AllByRecursion};
ghost use Rattle.logic_core.specs.Forms.{SlotIsBelow, AtomIsBelow, IsWellFormed};
ghost use Rattle.model_search.specs.Orders.{AreFormedRules};

use crate::rule::Rule;
use logic_core::{Atom, Form, Slot};
use text_core::List;

/// Whether a slot names one of the first variables or constants.
fn is_below(slot: Slot, variables: u32, constants: u32) -> bool
    ensures { IsTrue result → SlotIsBelow variables constants slot }
{
    match slot {
        Slot::Variable(variable) => variable < variables,
        Slot::Constant(constant) => constant < constants,
    }
}

/// Whether each slot of an atom does.
fn is_atom_below(atom: &Atom, variables: u32, constants: u32) -> bool
    ensures { IsTrue result → AtomIsBelow variables constants atom.now }
{
    for slot in atom.args.as_slice() {
        if !is_below(*slot, variables, constants) {
            return false;
        }
    }
    true
}

/// Whether each slot of each of the atoms does.
fn are_atoms_below(atoms: &[Atom], variables: u32, constants: u32) -> bool
    ensures { IsTrue result → AllByRecursion (AtomIsBelow variables constants) atoms.now }
{
    for atom in atoms {
        if !is_atom_below(atom, variables, constants) {
            return false;
        }
    }
    true
}

/// Whether each slot of each atom of the disjuncts does.
fn are_disjuncts_below(disjuncts: &[List<Atom>], variables: u32, constants: u32) -> bool
    ensures { IsTrue result
        → AllByRecursion (AllByRecursion (AtomIsBelow variables constants)) disjuncts.now }
{
    for disjunct in disjuncts {
        if !are_atoms_below(disjunct.as_slice(), variables, constants) {
            return false;
        }
    }
    true
}

/// Whether a form is well-formed, with so many constants and parameters.
pub(crate) fn is_well_formed(form: &Form, constants: u32) -> bool
    ensures { IsTrue result → IsWellFormed constants form.now }
{
    let Some(variables) = form.universals.checked_add(form.existentials) else {
        return false;
    };
    are_atoms_below(form.premises.as_slice(), form.universals, constants)
        && are_disjuncts_below(form.disjuncts.as_slice(), variables, constants)
}

/// Whether the form of each rule is.
pub(crate) fn are_formed(rules: &[Rule<'_>], constants: u32) -> bool
    ensures { IsTrue result → AreFormedRules constants rules.now }
{
    for rule in rules {
        if !is_well_formed(rule.form, constants) {
            return false;
        }
    }
    true
}
