ghost use Rattle.std.specs.Prelude.{◌≡◌, ◌<◌, ◌^◌, map, IfOk};
ghost use Rattle.proof_checker.specs.Kept as kept;

use logic_core::{Atom, Slot};
use std::alloc::Global;
use text_core::{List, Memory};

/// A predicate, or its complement where `positive` is false, of elements.
#[derive(Debug, Drop)]
pub struct Fact {
    pub positive: bool,
    pub symbol: u32,
    pub args: List<u32>,
}

/// A line of a branch: facts that stand, two or more cases of which one holds, or falsehood.
#[derive(Debug, Drop)]
pub enum HeldLine {
    Facts(List<Fact>),
    Cases(List<List<Fact>>),
    Falsum,
}

/// The number of a fact's symbol, or of its complement, in a store.
pub(crate) fn signed_number(fact: &Fact) -> u32
    requires { kept.signed_number fact.now < 2 ^ 32 }
    ensures { result ≡ kept.signed_number fact.now }
{
    let twice = 2 * fact.symbol;
    if fact.positive { twice } else { twice + 1 }
}

fn element_at(elements: &[u32], slot: Slot) -> u32
    ensures { result ≡ kept.element_at elements.now slot }
{
    match slot {
        Slot::Variable(variable) => match elements.get(variable as usize) {
            Some(element) => *element,
            None => 0,
        },
        Slot::Constant(element) => element,
    }
}

/// An atom of a form at elements for its variables. `Memory` is want of memory.
pub(crate) fn fact_at(alloc: Global, elements: &[u32], atom: &Atom) -> Result<Fact, Memory>
    ensures { IfOk result (λ fact. fact ≡ kept.fact_at elements.now atom.now) }
{
    let mut args = List::new(alloc);
    for slot in atom.args.as_slice() {
        args.push(element_at(elements, *slot))?;
    }
    Ok(Fact {
        positive: atom.positive,
        symbol: atom.symbol,
        args,
    })
}

/// Atoms of a form at elements. `Memory` is want of memory.
pub(crate) fn facts_at(
    alloc: Global,
    elements: &[u32],
    atoms: &[Atom],
) -> Result<List<Fact>, Memory>
    ensures { IfOk result (λ facts. facts ≡ map (kept.fact_at elements.now) atoms.now) }
{
    let mut facts = List::new(alloc);
    for atom in atoms {
        facts.push(fact_at(alloc, elements, atom)?)?;
    }
    Ok(facts)
}

fn lists_at(
    alloc: Global,
    elements: &[u32],
    disjuncts: &[List<Atom>],
) -> Result<List<List<Fact>>, Memory>
    ensures { IfOk result (λ lists. lists ≡ map (map (kept.fact_at elements.now)) disjuncts.now) }
{
    let mut lists = List::new(alloc);
    for atoms in disjuncts {
        lists.push(facts_at(alloc, elements, atoms.as_slice())?)?;
    }
    Ok(lists)
}

fn held_line(lists: List<List<Fact>>) -> HeldLine
    ensures { result ≡ kept.held_line lists }
{
    if lists.len() > 1 {
        return HeldLine::Cases(lists);
    }
    let mut lists = lists.into_vec();
    match lists.pop() {
        Some(facts) => HeldLine::Facts(facts),
        None => HeldLine::Falsum,
    }
}

/// The line of the disjuncts of a form at elements: falsehood of none, facts of one, cases of more.
/// `Memory` is want of memory.
pub(crate) fn line_at(
    alloc: Global,
    elements: &[u32],
    disjuncts: &[List<Atom>],
) -> Result<HeldLine, Memory>
    ensures { IfOk result (λ line.
        line ≡ kept.held_line (map (map (kept.fact_at elements.now)) disjuncts.now)) }
{
    let lists = lists_at(alloc, elements, disjuncts)?;
    Ok(held_line(lists))
}

/// A copy of facts. `Memory` is want of memory.
pub(crate) fn copy_facts(alloc: Global, facts: &[Fact]) -> Result<List<Fact>, Memory>
    ensures { IfOk result (λ copy. copy ≡ facts.now) }
{
    let mut copies = List::new(alloc);
    for fact in facts {
        copies.push(Fact {
            positive: fact.positive,
            symbol: fact.symbol,
            args: List::from_slice(alloc, fact.args.as_slice())?,
        })?;
    }
    Ok(copies)
}
