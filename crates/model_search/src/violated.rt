use crate::found::Found;
use crate::instance::number_at;
use crate::rule::{Rule, Step};
use logic_core::{Atom, Form, Slot};
use std::alloc::Global;
use text_core::{List, Memory};

/// The greatest number of instances of a form that are sought at a time.
const MOST_AT_A_TIME: usize = 300;

/// Seeks instances of a form that are not true in a structure: the values of its universal
/// variables, those that were met, and how many looks are left.
#[derive(Drop)]
pub(crate) struct Seeker<'s> {
    alloc: Global,
    size: u32,
    form: &'s Form,
    found: &'s Found<'s>,
    values: Vec<u32>,
    arguments: Vec<u32>,
    met: Vec<Vec<u32>>,
    looks: u64,
}

impl<'s> Seeker<'s> {
    /// Whether an atom is true at the values.
    fn is_true(&mut self, atom: &Atom) -> Result<bool, Memory> {
        self.arguments.clear();
        for slot in atom.args.as_slice() {
            let element = match *slot {
                Slot::Variable(variable) => number_at(self.values.as_slice(), variable)?,
                Slot::Constant(constant) => number_at(self.found.places.as_slice(), constant)?,
            };
            self.arguments.push(element)?;
        }
        let holds = self.found.holds(atom.symbol, self.arguments.as_slice());
        Ok(holds == atom.positive)
    }

    /// Whether each atom is true at the values.
    fn are_true(&mut self, atoms: &[Atom]) -> Result<bool, Memory> {
        for atom in atoms {
            if !self.is_true(atom)? {
                return Ok(false);
            }
        }
        Ok(true)
    }

    /// Whether the premises with these numbers are true at the values.
    fn premises_hold(&mut self, numbers: &[u32]) -> Result<bool, Memory> {
        let form = self.form;
        for number in numbers {
            let Some(premise) = form.premises.get(*number as usize) else {
                return Err(Memory);
            };
            if !self.is_true(premise)? {
                return Ok(false);
            }
        }
        Ok(true)
    }

    /// Whether some disjunct is true at the values.
    fn some_holds(&mut self, disjuncts: &[List<Atom>]) -> Result<bool, Memory> {
        for disjunct in disjuncts {
            if self.are_true(disjunct.as_slice())? {
                return Ok(true);
            }
        }
        Ok(false)
    }

    /// Whether some disjunct is true at the values and some elements for so many further variables.
    fn has_option(&mut self, disjuncts: &[List<Atom>], further: u32) -> Result<bool, Memory> {
        if further == 0 {
            return self.some_holds(disjuncts);
        }
        for element in 0..self.size {
            self.values.push(element)?;
            let holds = self.has_option(disjuncts, further - 1)?;
            self.values.pop();
            if holds {
                return Ok(true);
            }
        }
        Ok(false)
    }

    /// Notes the values, if no option is true at them.
    fn note(&mut self) -> Result<(), Memory> {
        let form = self.form;
        if self.has_option(form.disjuncts.as_slice(), form.existentials)? {
            return Ok(());
        }
        let values = Vec::from_slice(self.alloc, self.values.as_slice())?;
        self.met.push(values)?;
        Ok(())
    }

    /// Gives the variables of these steps all values at which the premises are true.
    fn seek(&mut self, steps: &[Step]) -> Result<(), Memory> {
        match steps {
            [] => self.note(),
            [first, rest @ ..] => {
                for element in 0..self.size {
                    if self.looks == 0 || self.met.len() >= MOST_AT_A_TIME {
                        return Ok(());
                    }
                    self.looks -= 1;
                    if let Some(value) = self.values.get_mut(first.variable as usize) {
                        *value = element;
                    }
                    if self.premises_hold(first.complete.as_slice())? {
                        self.seek(rest)?;
                    }
                }
                Ok(())
            }
        }
    }
}

/// Values of the universal variables at which a rule's form is not true in the structure, at most
/// `MOST_AT_A_TIME`; so many looks are taken at most. `Memory` is want of memory.
pub(crate) fn violated(
    alloc: Global,
    rule: &Rule<'_>,
    found: &Found<'_>,
    size: u32,
    looks: u64,
) -> Result<Vec<Vec<u32>>, Memory> {
    let mut values = Vec::new(alloc);
    for _ in 0..rule.form.universals {
        values.push(0)?;
    }
    let mut seeker = Seeker {
        alloc,
        size,
        form: rule.form,
        found,
        values,
        arguments: Vec::new(alloc),
        met: Vec::new(alloc),
        looks,
    };
    if seeker.premises_hold(rule.closed.as_slice())? {
        seeker.seek(rule.steps.as_slice())?;
    }
    Ok(seeker.met)
}
