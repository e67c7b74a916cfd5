ghost use Rattle.std.specs.Prelude.{◌≡◌, ◌∷◌, map};
ghost use Rattle.std.specs.Bool.{Decides};
ghost use Rattle.coherent_form.specs.Kept.{name_at};
ghost use Rattle.proof_text.specs.Branches as branches;
ghost use Rattle.proof_checker.specs.Kept as kept;

use crate::fact::{Fact, HeldLine};
use proof_text::{NamedAtom, Shown};
use signature::Tables;
use text_core::{List, Name};

/// Whether a name is that of an element.
fn is_named(names: &[Name], name: &Name, element: u32) -> bool
    ensures { Decides result (name.now ≡ name_at names.now element) }
{
    // A name has a byte.
    let _bytes = name.bytes();
    match names.get(element as usize) {
        Some(other) => name == other,
        None => false,
    }
}

fn are_named(names: &[Name], shown: &[Name], elements: &[u32]) -> bool
    ensures { Decides result (shown.now ≡ map (name_at names.now) elements.now) }
{
    if shown.len() != elements.len() {
        return false;
    }
    for at in 0..shown.len() {
        if !is_named(names, &shown[at], elements[at]) {
            return false;
        }
    }
    true
}

/// Whether a predicate is that of a symbol.
fn is_predicate(tables: &Tables, predicate: &Option<Name>, symbol: u32) -> bool
    ensures { Decides result (predicate.now ≡ branches.predicate_of tables.now symbol) }
{
    let named = symbol > 0 && symbol < tables.symbols();
    match predicate {
        Some(name) => named && name == tables.symbol_name(symbol),
        None => !named,
    }
}

fn shows_fact(tables: &Tables, names: &[Name], atom: &NamedAtom, fact: &Fact) -> bool
    ensures { Decides result
        (atom.now ≡ branches.named_atom tables.now names.now (kept.atom_seen fact.now)) }
{
    if atom.positive != fact.positive {
        return false;
    }
    if !is_predicate(tables, &atom.predicate, fact.symbol) {
        return false;
    }
    are_named(names, atom.args.as_slice(), fact.args.as_slice())
}

/// Whether atoms show facts, with these names of elements.
pub(crate) fn shows_facts(
    tables: &Tables,
    names: &[Name],
    atoms: &[NamedAtom],
    facts: &[Fact],
) -> bool
    ensures { Decides result (atoms.now
        ≡ branches.named_facts tables.now names.now (map kept.atom_seen facts.now)) }
{
    if atoms.len() != facts.len() {
        return false;
    }
    for at in 0..atoms.len() {
        if !shows_fact(tables, names, &atoms[at], &facts[at]) {
            return false;
        }
    }
    true
}

fn shows_lists(
    tables: &Tables,
    names: &[Name],
    shown: &[List<NamedAtom>],
    lists: &[List<Fact>],
) -> bool
    ensures { Decides result (shown.now ≡ map (branches.named_facts tables.now names.now)
        (map (map kept.atom_seen) lists.now)) }
{
    if shown.len() != lists.len() {
        return false;
    }
    for at in 0..shown.len() {
        if !shows_facts(tables, names, shown[at].as_slice(), lists[at].as_slice()) {
            return false;
        }
    }
    true
}

/// Whether a line is shown so, with these names of elements.
pub(crate) fn shows_line(tables: &Tables, names: &[Name], shown: &Shown, line: &HeldLine) -> bool
    ensures { Decides result
        (shown.now ≡ branches.shown_line tables.now names.now (kept.line_seen line.now)) }
{
    match (shown, line) {
        (Shown::Facts(atoms), HeldLine::Facts(facts)) => {
            shows_facts(tables, names, atoms.as_slice(), facts.as_slice())
        }
        (Shown::Cases(shown), HeldLine::Cases(lists)) => {
            shows_lists(tables, names, shown.as_slice(), lists.as_slice())
        }
        (Shown::Falsum, HeldLine::Falsum) => true,
        _ => false,
    }
}
