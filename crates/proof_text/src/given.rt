ghost use Rattle.std.specs.Prelude.{◌≡◌, ◌+◌, ◌++◌, ◌<◌, ◌^◌, map, IfOk, OnOk};
ghost use Rattle.vernacular_tree.specs.Contexts as contexts;

use logic_core::{Atom, Form, Slot};
use std::alloc::Global;
use text_core::{List, Memory};
use vernacular_tree::Line;

// The sum of two counts. `Memory` where it does not fit in 32 bits.
pub(crate) fn sum_of(first: u32, second: u32) -> Result<u32, Memory>
    ensures { IfOk result (λ sum. sum ≡ first + second) }
{
    match first.checked_add(second) {
        Some(sum) => Ok(sum),
        None => Err(Memory),
    }
}

// As many numbers in a row.
pub(crate) fn counted(alloc: Global, first: u32, count: u32) -> Result<List<u32>, Memory>
    requires { first + count < 2 ^ 32 }
    ensures { IfOk result (λ numbers. numbers ≡ contexts.counted first count) }
{
    let mut numbers = List::new(alloc);
    for number in first..first + count {
        numbers.push(number)?;
    }
    Ok(numbers)
}

fn slot_at(elements: &[u32], slot: Slot) -> Slot
    ensures { result ≡ contexts.slot_at elements.now slot }
{
    match slot {
        Slot::Variable(variable) => {
            Slot::Constant(elements.get(variable as usize).copied().unwrap_or(0))
        }
        Slot::Constant(constant) => Slot::Constant(constant),
    }
}

fn slots_at(alloc: Global, elements: &[u32], slots: &[Slot]) -> Result<List<Slot>, Memory>
    ensures { IfOk result (λ at. at ≡ map (contexts.slot_at elements.now) slots.now) }
{
    let mut at = List::new(alloc);
    for slot in slots {
        at.push(slot_at(elements, *slot))?;
    }
    Ok(at)
}

fn atom_at(alloc: Global, elements: &[u32], atom: &Atom) -> Result<Atom, Memory>
    ensures { IfOk result (λ at. at ≡ contexts.atom_at elements.now atom.now) }
{
    Ok(Atom {
        positive: atom.positive,
        symbol: atom.symbol,
        args: slots_at(alloc, elements, atom.args.as_slice())?,
    })
}

/// Atoms of a form at elements for the form's variables. `Memory` is want of memory.
pub fn facts_at(alloc: Global, elements: &[u32], atoms: &[Atom]) -> Result<List<Atom>, Memory>
    ensures { IfOk result (λ facts. facts ≡ map (contexts.atom_at elements.now) atoms.now) }
{
    let mut facts = List::new(alloc);
    for atom in atoms {
        facts.push(atom_at(alloc, elements, atom)?)?;
    }
    Ok(facts)
}

fn lists_at(
    alloc: Global,
    elements: &[u32],
    disjuncts: &[List<Atom>],
) -> Result<List<List<Atom>>, Memory>
    ensures { IfOk result (λ lists.
        lists ≡ map (map (contexts.atom_at elements.now)) disjuncts.now) }
{
    let mut lists = List::new(alloc);
    for disjunct in disjuncts {
        lists.push(facts_at(alloc, elements, disjunct.as_slice())?)?;
    }
    Ok(lists)
}

fn line_of(lists: List<List<Atom>>) -> Line
    ensures { result ≡ contexts.line_of lists }
{
    let mut lists = lists.into_vec();
    if lists.len() > 1 {
        return Line::Cases(List::from_vec(lists));
    }
    match lists.pop() {
        Some(facts) => Line::Facts(facts),
        None => Line::Falsum,
    }
}

// The line that a form gives at elements for its universal variables, and new ones for the others.
pub(crate) fn line_at(
    alloc: Global,
    form: &Form,
    args: &[u32],
    fresh: &[u32],
) -> Result<Line, Memory>
    ensures { IfOk result (λ line. line ≡ contexts.line_of
        (map (map (contexts.atom_at (args.now ++ fresh.now))) form.now.disjuncts)) }
{
    let mut elements = List::from_slice(alloc, args)?;
    elements.extend_from_slice(fresh)?;
    let lists = lists_at(alloc, elements.as_slice(), form.disjuncts.as_slice())?;
    Ok(line_of(lists))
}

// A copy of facts.
pub(crate) fn copied(alloc: Global, facts: &[Atom]) -> Result<List<Atom>, Memory>
    ensures { IfOk result (λ copies. copies ≡ facts.now) }
{
    let mut copies = List::new(alloc);
    for fact in facts {
        copies.push(Atom {
            positive: fact.positive,
            symbol: fact.symbol,
            args: List::from_slice(alloc, fact.args.as_slice())?,
        })?;
    }
    Ok(copies)
}
