ghost use Rattle.std.specs.Prelude.{◌≡◌, ◌+◌, ◌*◌, ◌<◌, ◌≤◌, ◌^◌, [], length, map, sum_by};
ghost use Rattle.std.specs.List.{AllByRecursion};
ghost use Rattle.text_core.specs.declared.limits.TheConstants.{MOST_FORM_ATOMS, MOST_ARGUMENTS};
ghost use Rattle.vernacular_tree.specs.Contexts.{atom_at, line_of};
ghost use Rattle.kept_context.specs.Lent.{facts_in, args_in};
ghost use Rattle.kept_context.specs.Noted.{IsSmall, LineIsSmall, Adds, AreNoted, IsNoted};
ghost use Rattle.kept_context.specs.Cased.{line_made};

use crate::fact::add_facts;
use crate::kept::OwnLine;
use fact_store::Store;
use logic_core::{Atom, List};
use vernacular_tree::Line;

// Notes a line of a context that is lent.
fn note_line(store: &mut Store, falsum: &mut bool, line: &Line)
    requires small { LineIsSmall store.old.signed line.now }
    requires few_symbols { store.old.signed < 2 ^ 32 }
    requires spare_facts { facts_in line.now ≤ store.old.spare_facts }
    requires spare_args { args_in line.now ≤ store.old.spare_args }
    ensures noted { IsNoted line.now store.old falsum.old store.new falsum.new }
    ensures adds { Adds (facts_in line.now) (args_in line.now) store.old store.new }
{
    match line {
        Line::Facts(facts) => add_facts(store, &[], facts.as_slice()),
        Line::Cases(_) => {}
        Line::Falsum => *falsum = true,
    }
}

/// Notes the lines of a context that is lent.
pub(crate) fn note_lines(store: &mut Store, falsum: &mut bool, lines: &[Line])
    requires empty { AreNoted store.old.facts falsum.old [] }
    requires small { AllByRecursion (LineIsSmall store.old.signed) lines.now }
    requires few_symbols { store.old.signed < 2 ^ 32 }
    requires spare_facts { sum_by facts_in lines.now ≤ store.old.spare_facts }
    requires spare_args { sum_by args_in lines.now ≤ store.old.spare_args }
    ensures noted { AreNoted store.new.facts falsum.new lines.now }
    ensures adds { Adds (sum_by facts_in lines.now) (sum_by args_in lines.now)
        store.old store.new }
{
    for line in lines {
        note_line(store, falsum, line);
    }
}

/// Notes the line of a form's lists at elements: the facts of a single list, or falsehood where
/// there is none.
pub(crate) fn note_lists(
    store: &mut Store,
    falsum: &mut bool,
    elements: &[u32],
    lists: &[List<Atom>],
)
    requires small { AllByRecursion (AllByRecursion (IsSmall store.old.signed)) lists.now }
    requires few_symbols { store.old.signed < 2 ^ 32 }
    requires few { sum_by length lists.now ≤ MOST_FORM_ATOMS }
    requires spare_facts { MOST_FORM_ATOMS ≤ store.old.spare_facts }
    requires spare_args { MOST_FORM_ATOMS * MOST_ARGUMENTS ≤ store.old.spare_args }
    ensures noted { IsNoted (line_of (map (map (atom_at elements.now)) lists.now))
        store.old falsum.old store.new falsum.new }
    ensures adds { Adds MOST_FORM_ATOMS (MOST_FORM_ATOMS * MOST_ARGUMENTS) store.old store.new }
{
    if lists.len() > 1 {
        return;
    }
    match lists.first() {
        Some(facts) => add_facts(store, elements, facts.as_slice()),
        None => *falsum = true,
    }
}

/// How a line of so many lists is kept, where they are those of a form, at elements in a row.
pub(crate) fn own_line(lists: usize, form: u32, start: usize, count: usize) -> OwnLine
    ensures { result ≡ line_made lists form start count }
{
    if lists == 0 {
        return OwnLine::Falsum;
    }
    if lists == 1 {
        return OwnLine::Facts;
    }
    OwnLine::Cases { form, start, count }
}
