ghost use Rattle.std.specs.Prelude.{◌≡◌, map, length, IfOk};
ghost use Rattle.model_search.specs.Rules.{slot_moved, atom_moved, premise_form, disjunct_form, goal_forms};

use coherent_form::Task;
use logic_core::{Atom, Form, Slot};
use std::alloc::Global;
use text_core::{List, Memory};

/// A slot of the goal, whose universal variables become parameters behind the constants.
fn moved_slot(slot: Slot, constants: u32, universals: u32) -> Result<Slot, Memory>
    ensures { IfOk result (λ moved. moved ≡ slot_moved constants universals slot) }
{
    match slot {
        Slot::Variable(variable) => {
            if variable >= universals {
                return Ok(Slot::Variable(variable - universals));
            }
            match constants.checked_add(variable) {
                Some(parameter) => Ok(Slot::Constant(parameter)),
                None => Err(Memory),
            }
        }
        Slot::Constant(constant) => Ok(Slot::Constant(constant)),
    }
}

/// An atom of the goal at the parameters.
fn moved_atom(alloc: Global, atom: &Atom, constants: u32, universals: u32) -> Result<Atom, Memory>
    ensures { IfOk result (λ moved. moved ≡ atom_moved constants universals atom.now) }
{
    let mut args = List::new(alloc);
    for slot in atom.args.as_slice() {
        args.push(moved_slot(*slot, constants, universals)?)?;
    }
    Ok(Atom {
        positive: atom.positive,
        symbol: atom.symbol,
        args,
    })
}

/// Atoms of the goal at the parameters.
fn moved_atoms(
    alloc: Global,
    atoms: &[Atom],
    constants: u32,
    universals: u32,
) -> Result<List<Atom>, Memory>
    ensures { IfOk result (λ moved. moved ≡ map (atom_moved constants universals) atoms.now) }
{
    let mut moved = List::new(alloc);
    for atom in atoms {
        moved.push(moved_atom(alloc, atom, constants, universals)?)?;
    }
    Ok(moved)
}

/// The form that a premise of the goal is true.
fn form_of_premise(
    alloc: Global,
    atom: &Atom,
    constants: u32,
    universals: u32,
) -> Result<Form, Memory>
    ensures { IfOk result (λ form. form ≡ premise_form constants universals atom.now) }
{
    let mut disjunct = List::new(alloc);
    disjunct.push(moved_atom(alloc, atom, constants, universals)?)?;
    let mut disjuncts = List::new(alloc);
    disjuncts.push(disjunct)?;
    Ok(Form {
        universals: 0,
        premises: List::new(alloc),
        existentials: 0,
        disjuncts,
    })
}

/// The form that a disjunct of the goal is true at no values.
fn form_of_disjunct(
    alloc: Global,
    atoms: &[Atom],
    constants: u32,
    goal: &Form,
) -> Result<Form, Memory>
    ensures { IfOk result (λ form. form ≡ disjunct_form constants goal.now atoms.now) }
{
    Ok(Form {
        universals: goal.existentials,
        premises: moved_atoms(alloc, atoms, constants, goal.universals)?,
        existentials: 0,
        disjuncts: List::new(alloc),
    })
}

/// The forms that premises of the goal are true.
fn forms_of_premises(
    alloc: Global,
    premises: &[Atom],
    constants: u32,
    universals: u32,
) -> Result<List<Form>, Memory>
    ensures { IfOk result (λ forms. forms ≡ map (premise_form constants universals) premises.now) }
{
    let mut forms = List::new(alloc);
    for atom in premises {
        forms.push(form_of_premise(alloc, atom, constants, universals)?)?;
    }
    Ok(forms)
}

/// The forms that disjuncts of the goal are true at no values.
fn forms_of_disjuncts(
    alloc: Global,
    disjuncts: &[List<Atom>],
    constants: u32,
    goal: &Form,
) -> Result<List<Form>, Memory>
    ensures { IfOk result (λ forms. forms ≡ map (disjunct_form constants goal.now) disjuncts.now) }
{
    let mut forms = List::new(alloc);
    for disjunct in disjuncts {
        forms.push(form_of_disjunct(alloc, disjunct.as_slice(), constants, goal)?)?;
    }
    Ok(forms)
}

/// That the goal is not true at its parameters, as forms.
pub(crate) fn forms_of_goal(alloc: Global, task: &Task) -> Result<List<Form>, Memory>
    ensures { IfOk result (λ forms. forms ≡ goal_forms task.now) }
{
    let constants = task.tables().constants();
    let goal = task.goal();
    let premises = goal.premises.as_slice();
    let mut forms = forms_of_premises(alloc, premises, constants, goal.universals)?;
    forms.append(forms_of_disjuncts(alloc, goal.disjuncts.as_slice(), constants, goal)?)?;
    Ok(forms)
}
