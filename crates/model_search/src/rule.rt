ghost use Rattle.std.specs.Prelude.{◌≡◌, IfOk};

use logic_core::{Atom, Form, Slot};
use std::alloc::Global;
use text_core::Memory;

/// A variable, and the premises, by number, of which all variables have values once it has one.
#[derive(Drop)]
pub(crate) struct Step {
    pub(crate) variable: u32,
    pub(crate) complete: Vec<u32>,
}

/// A form whose instances are made, with the constants and parameters that occur in it, and the
/// order in which its universal variables are given values.
#[derive(Drop)]
pub(crate) struct Rule<'f> {
    pub(crate) form: &'f Form,
    pub(crate) constants: Vec<u32>,
    pub(crate) closed: Vec<u32>,
    pub(crate) steps: Vec<Step>,
}

/// Notes the constants of an atom.
fn note_constants(atom: &Atom, constants: &mut Vec<u32>) -> Result<(), Memory> {
    for slot in atom.args.as_slice() {
        if let Slot::Constant(constant) = *slot {
            if !constants.as_slice().contains(&constant) {
                constants.push(constant)?;
            }
        }
    }
    Ok(())
}

/// The constants and parameters that occur in a form.
fn constants_of(alloc: Global, form: &Form) -> Result<Vec<u32>, Memory> {
    let mut constants = Vec::new(alloc);
    for atom in form.premises.as_slice() {
        note_constants(atom, &mut constants)?;
    }
    for disjunct in form.disjuncts.as_slice() {
        for atom in disjunct.as_slice() {
            note_constants(atom, &mut constants)?;
        }
    }
    Ok(constants)
}

/// Whether a variable occurs in an atom.
fn occurs(variable: u32, atom: &Atom) -> bool {
    for slot in atom.args.as_slice() {
        if *slot == Slot::Variable(variable) {
            return true;
        }
    }
    false
}

/// Whether each variable of an atom is one of these.
fn is_complete(atom: &Atom, variables: &[u32]) -> bool {
    for slot in atom.args.as_slice() {
        if let Slot::Variable(variable) = *slot {
            if !variables.contains(&variable) {
                return false;
            }
        }
    }
    true
}

/// The premises, by number, that are complete with these variables.
fn complete_with(alloc: Global, form: &Form, variables: &[u32]) -> Result<Vec<u32>, Memory> {
    let mut complete = Vec::new(alloc);
    let mut number: u32 = 0;
    for atom in form.premises.as_slice() {
        if is_complete(atom, variables) {
            complete.push(number)?;
        }
        number = number.wrapping_add(1);
    }
    Ok(complete)
}

/// How often a variable occurs in premises.
fn occurrences(form: &Form, variable: u32) -> usize {
    let mut count: usize = 0;
    for atom in form.premises.as_slice() {
        if occurs(variable, atom) {
            count = count.wrapping_add(1);
        }
    }
    count
}

/// The variable that is to have a value behind these: the one that completes most premises, and of
/// several such one that occurs most often.
fn next_variable(alloc: Global, form: &Form, given: &mut Vec<u32>) -> Result<u32, Memory> {
    let mut best = (0, 0);
    let mut chosen = None;
    for variable in 0..form.universals {
        if given.as_slice().contains(&variable) {
            continue;
        }
        given.push(variable)?;
        let complete = complete_with(alloc, form, given.as_slice())?.len();
        given.pop();
        let rank = (complete, occurrences(form, variable));
        if chosen.is_none() || best < rank {
            best = rank;
            chosen = Some(variable);
        }
    }
    chosen.ok_or(Memory)
}

/// The premises of the first list that are not in the second.
fn without(alloc: Global, complete: &[u32], before: &[u32]) -> Result<Vec<u32>, Memory> {
    let mut new = Vec::new(alloc);
    for premise in complete {
        if !before.contains(premise) {
            new.push(*premise)?;
        }
    }
    Ok(new)
}

/// The order of the universal variables of a form.
fn steps_of(alloc: Global, form: &Form) -> Result<Vec<Step>, Memory> {
    let mut given = Vec::new(alloc);
    let mut steps = Vec::new(alloc);
    for _ in 0..form.universals {
        let before = complete_with(alloc, form, given.as_slice())?;
        let variable = next_variable(alloc, form, &mut given)?;
        given.push(variable)?;
        let after = complete_with(alloc, form, given.as_slice())?;
        let complete = without(alloc, after.as_slice(), before.as_slice())?;
        steps.push(Step { variable, complete })?;
    }
    Ok(steps)
}

impl<'f> Rule<'f> {
    /// The rule of a form. `Memory` is want of memory.
    pub(crate) fn new(alloc: Global, form: &'f Form) -> Result<Rule<'f>, Memory>
        ensures { IfOk result (λ rule. rule.form.now ≡ form.now) }
    {
        Ok(Rule {
            form,
            constants: constants_of(alloc, form)?,
            closed: complete_with(alloc, form, &[])?,
            steps: steps_of(alloc, form)?,
        })
    }
}
