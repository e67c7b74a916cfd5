ghost use Rattle.std.specs.Prelude.{◌≡◌, ◌<◌, ◌^◌, map, length, IfOk};
ghost use Rattle.vernacular_tree.specs.Contexts as contexts;
ghost use Rattle.coherent_form.specs.Tasks.{proof_task};
ghost use Rattle.trail_search.specs.Answers as answers;

use coherent_form::Task;
use logic_core::{Atom, Form, Slot};
use std::alloc::Global;
use text_core::{List, Memory};

/// The elements that stand for the goal's universal variables. `Memory` is want of memory.
pub(crate) fn parameters(alloc: Global, task: &Task) -> Result<List<u32>, Memory>
    ensures { IfOk result (λ all. all ≡ contexts.parameters (proof_task task.now)) }
{
    let count = task.goal().universals;
    let first = task.start_elements() - count;
    let mut all = List::new(alloc);
    for at in 0..count {
        all.push(first + at)?;
    }
    Ok(all)
}

fn slot_with(elements: &[u32], slot: Slot) -> Slot
    ensures { result ≡ answers.slot_with elements.now slot }
{
    match slot {
        Slot::Variable(variable) => match elements.get(variable as usize) {
            Some(element) => Slot::Constant(*element),
            None => Slot::Variable(variable - elements.len() as u32),
        },
        Slot::Constant(constant) => Slot::Constant(constant),
    }
}

fn atom_with(alloc: Global, elements: &[u32], atom: &Atom) -> Result<Atom, Memory>
    ensures { IfOk result (λ other. other ≡ answers.atom_with elements.now atom.now) }
{
    let mut args = List::new(alloc);
    for slot in atom.args.as_slice() {
        args.push(slot_with(elements, *slot))?;
    }
    Ok(Atom {
        positive: atom.positive,
        symbol: atom.symbol,
        args,
    })
}

/// Atoms with elements in place of the first variables; the other variables are numbered from 0.
/// `Memory` is want of memory.
pub(crate) fn atoms_with(
    alloc: Global,
    elements: &[u32],
    atoms: &[Atom],
) -> Result<List<Atom>, Memory>
    ensures { IfOk result (λ others. others ≡ map (answers.atom_with elements.now) atoms.now) }
{
    let mut others = List::new(alloc);
    for atom in atoms {
        others.push(atom_with(alloc, elements, atom)?)?;
    }
    Ok(others)
}

/// A form for each disjunct of the goal, with the disjunct's atoms as premises. `Memory` is want of
/// memory, or of numbers of 32 bits.
pub(crate) fn answer_forms(alloc: Global, task: &Task) -> Result<List<Form>, Memory>
    ensures are { IfOk result (answers.AreAnswers task.now) }
    ensures few { IfOk result (λ forms. length forms < 2 ^ 32) }
{
    let goal = task.goal();
    if goal.disjuncts.len() > u32::MAX as usize {
        return Err(Memory);
    }
    let parameters = parameters(alloc, task)?;
    let mut forms = List::new(alloc);
    for atoms in goal.disjuncts.as_slice() {
        forms.push(Form {
            universals: goal.existentials,
            premises: atoms_with(alloc, parameters.as_slice(), atoms.as_slice())?,
            existentials: 0,
            disjuncts: List::new(alloc),
        })?;
    }
    Ok(forms)
}
