ghost use Rattle.std.specs.Prelude.{◌≡◌, ◌+◌, ◌<◌, length, map, IfOk};
ghost use Rattle.std.specs.List.{AllByRecursion};
ghost use Rattle.proof_text.specs.Branches.{predicate_of};
ghost use Rattle.proof_text.specs.Printing.{printed, printed_slot, printed_atom, printed_facts, printed_line};
ghost use Rattle.proof_text.specs.Showing.{IsElement, FactFits, LineFits};

use crate::body::{NamedAtom, Shown};
use coherent_form::Task;
use logic_core::{Atom, Slot};
use std::alloc::Global;
use text_core::{List, Memory, Name};
use vernacular_tree::Line;

/// The printed names of elements. `Memory` is want of memory.
pub fn element_names(alloc: Global, task: &Task, elements: &[u32]) -> Result<List<Name>, Memory>
    ensures { IfOk result (λ names. names ≡ map (printed task.now) elements.now) }
{
    let mut names = List::new(alloc);
    for element in elements {
        names.push(task.element_name(alloc, *element)?)?;
    }
    Ok(names)
}

// The printed name of an argument of a line's atom.
fn argument_name(alloc: Global, task: &Task, slot: Slot) -> Result<Name, Memory>
    requires { IsElement slot }
    ensures { IfOk result (λ name. name ≡ printed_slot task.now slot) }
{
    match slot {
        Slot::Constant(element) => task.element_name(alloc, element),
        Slot::Variable(_) => unreachable!(),
    }
}

fn argument_names(alloc: Global, task: &Task, slots: &[Slot]) -> Result<List<Name>, Memory>
    requires { AllByRecursion IsElement slots.now }
    ensures { IfOk result (λ names. names ≡ map (printed_slot task.now) slots.now) }
{
    let mut names = List::new(alloc);
    for slot in slots {
        names.push(argument_name(alloc, task, *slot)?)?;
    }
    Ok(names)
}

// The name of a symbol; equality has none.
fn predicate_name(alloc: Global, task: &Task, symbol: u32) -> Result<Option<Name>, Memory>
    requires { symbol < length task.now.tables.symbols + 1 }
    ensures { IfOk result (λ name. name ≡ predicate_of task.now.tables symbol) }
{
    if symbol == 0 {
        return Ok(None);
    }
    let name = task.tables().symbol_name(symbol).try_copy(alloc)?;
    Ok(Some(name))
}

fn named_atom(alloc: Global, task: &Task, atom: &Atom) -> Result<NamedAtom, Memory>
    requires { FactFits task.now.tables atom.now }
    ensures { IfOk result (λ named. named ≡ printed_atom task.now atom.now) }
{
    Ok(NamedAtom {
        positive: atom.positive,
        predicate: predicate_name(alloc, task, atom.symbol)?,
        args: argument_names(alloc, task, atom.args.as_slice())?,
    })
}

/// Facts with printed names. `Memory` is want of memory.
pub fn named_facts(alloc: Global, task: &Task, facts: &[Atom]) -> Result<List<NamedAtom>, Memory>
    requires { AllByRecursion (FactFits task.now.tables) facts.now }
    ensures { IfOk result (λ named. named ≡ printed_facts task.now facts.now) }
{
    let mut named = List::new(alloc);
    for fact in facts {
        named.push(named_atom(alloc, task, fact)?)?;
    }
    Ok(named)
}

fn named_lists(
    alloc: Global,
    task: &Task,
    lists: &[List<Atom>],
) -> Result<List<List<NamedAtom>>, Memory>
    requires { AllByRecursion (AllByRecursion (FactFits task.now.tables)) lists.now }
    ensures { IfOk result (λ named. named ≡ map (printed_facts task.now) lists.now) }
{
    let mut named = List::new(alloc);
    for facts in lists {
        named.push(named_facts(alloc, task, facts.as_slice())?)?;
    }
    Ok(named)
}

/// A line with printed names. `Memory` is want of memory.
pub fn named_line(alloc: Global, task: &Task, line: &Line) -> Result<Shown, Memory>
    requires { LineFits task.now.tables line.now }
    ensures { IfOk result (λ named. named ≡ printed_line task.now line.now) }
{
    match line {
        Line::Facts(facts) => Ok(Shown::Facts(named_facts(alloc, task, facts.as_slice())?)),
        Line::Cases(lists) => Ok(Shown::Cases(named_lists(alloc, task, lists.as_slice())?)),
        Line::Falsum => Ok(Shown::Falsum),
    }
}
