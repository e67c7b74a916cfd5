ghost use Rattle.std.specs.Prelude.{◌≡◌, ◌+◌, ◌*◌, ◌<◌, ◌≤◌, ◌^◌, ℕ, Bool, List as Lst, length, slice_get, Some};
ghost use Rattle.std.specs.List.{AllByRecursion};
ghost use Rattle.std.specs.Option.{option_copied};
ghost use Rattle.text_core.specs.declared.limits.TheConstants.{MOST_FORM_ATOMS, MOST_ARGUMENTS};
ghost use Rattle.logic_core.specs.declared.form.Atom.{Atom as AtomValue};
ghost use Rattle.vernacular_tree.specs.declared.context.Line.TheVariants as line_value;
ghost use Rattle.kept_context.specs.Kept.{IsWithin, line_seen, lists_at};
ghost use Rattle.kept_context.specs.Noted.{LineIsSmall, Adds, IsNoted};
ghost use Rattle.kept_context.specs.Cased as cased;

use crate::fact::add_facts;
use crate::kept::OwnLine;
use coherent_form::Task;
use fact_store::Store;
use logic_core::{Atom, List};
use vernacular_tree::Line;

// The number of cases of a lent line; `None` where it has none.
fn lent_cases(line: &Line) -> Option<usize>
    ensures { result ≡ cased.case_count line.now }
{
    match line {
        Line::Cases(lists) => Some(lists.len()),
        _ => None,
    }
}

// The number of cases of a line of one's own; `None` where it has none.
fn own_cases(task: &Task, line: OwnLine) -> Option<usize>
    ensures { (values : Lst ℕ) → result ≡ cased.case_count (line_seen task.now values line) }
{
    match line {
        OwnLine::Cases { form, .. } => Some(disjunct_count(task, form)),
        _ => None,
    }
}

fn disjunct_count(task: &Task, form: u32) -> usize
    ensures { (elements : Lst ℕ)
        → result ≡ length (lists_at (slice_get task.now.forms form) elements) }
{
    match task.forms().get(form as usize) {
        Some(form) => form.disjuncts.len(),
        None => 0,
    }
}

// The atoms of a disjunct of a form.
fn disjunct(task: &Task, form: u32, number: usize) -> Option<&List<Atom>>
    ensures { option_copied result ≡ cased.disjunct_at task.now form number }
{
    match task.forms().get(form as usize) {
        Some(form) => form.disjuncts.get(number),
        None => None,
    }
}

// The facts of a case of a lent line.
fn lent_case(line: &Line, case: usize) -> Option<&List<Atom>>
    ensures { option_copied result ≡ cased.case_of line.now case }
{
    match line {
        Line::Cases(lists) => lists.get(case),
        _ => None,
    }
}

// Adds the facts of a case of a lent line.
fn add_lent_case(store: &mut Store, line: &Line, case: usize)
    requires small { LineIsSmall store.old.signed line.now }
    requires few_symbols { store.old.signed < 2 ^ 32 }
    requires spare_facts { MOST_FORM_ATOMS ≤ store.old.spare_facts }
    requires spare_args { MOST_FORM_ATOMS * MOST_ARGUMENTS ≤ store.old.spare_args }
    ensures noted { (facts : Lst AtomValue) (falsum : Bool)
        → cased.case_of line.now case ≡ Some facts
        → IsNoted (line_value.Facts facts) store.old falsum store.new falsum }
    ensures adds { Adds MOST_FORM_ATOMS (MOST_FORM_ATOMS * MOST_ARGUMENTS) store.old store.new }
{
    if let Some(facts) = lent_case(line, case) {
        add_facts(store, &[], facts.as_slice());
    }
}

// Adds the facts of a case of the disjuncts of a form at elements.
fn add_disjunct(store: &mut Store, task: &Task, form: u32, elements: &[u32], number: usize)
    requires signed { store.old.signed ≡ 2 * (length task.now.tables.symbols + 1) }
    requires spare_facts { MOST_FORM_ATOMS ≤ store.old.spare_facts }
    requires spare_args { MOST_FORM_ATOMS * MOST_ARGUMENTS ≤ store.old.spare_args }
    ensures noted { (facts : Lst AtomValue) (falsum : Bool)
        → slice_get (lists_at (slice_get task.now.forms form) elements.now) number ≡ Some facts
        → IsNoted (line_value.Facts facts) store.old falsum store.new falsum }
    ensures adds { Adds MOST_FORM_ATOMS (MOST_FORM_ATOMS * MOST_ARGUMENTS) store.old store.new }
{
    // The task has few symbols, and its forms are within limits.
    let _forms = task.forms();
    if let Some(atoms) = disjunct(task, form, number) {
        add_facts(store, elements, atoms.as_slice());
    }
}

// Adds the facts of a case of a line of one's own.
fn add_own_case(store: &mut Store, task: &Task, values: &[u32], line: OwnLine, case: usize)
    requires within { IsWithin (length values.now) line }
    requires signed { store.old.signed ≡ 2 * (length task.now.tables.symbols + 1) }
    requires spare_facts { MOST_FORM_ATOMS ≤ store.old.spare_facts }
    requires spare_args { MOST_FORM_ATOMS * MOST_ARGUMENTS ≤ store.old.spare_args }
    ensures noted { (facts : Lst AtomValue) (falsum : Bool)
        → cased.case_of (line_seen task.now values.now line) case ≡ Some facts
        → IsNoted (line_value.Facts facts) store.old falsum store.new falsum }
    ensures adds { Adds MOST_FORM_ATOMS (MOST_FORM_ATOMS * MOST_ARGUMENTS) store.old store.new }
{
    if let OwnLine::Cases { form, start, count } = line {
        add_disjunct(store, task, form, &values[start..start + count], case);
    }
}

/// The number of cases of a line, behind those of the lent context or among them; `None` where it
/// has none.
pub(crate) fn case_count(task: &Task, lent: &[Line], own: &[OwnLine], line: usize) -> Option<usize>
    ensures { (values : Lst ℕ)
        → result ≡ cased.count_at (cased.lines_seen task.now lent.now values own.now) line }
{
    if line < lent.len() {
        return lent_cases(&lent[line]);
    }
    match own.get(line - lent.len()) {
        Some(line) => own_cases(task, *line),
        None => None,
    }
}

/// Adds the facts of a case of a line, behind those of the lent context or among them.
pub(crate) fn add_case(
    store: &mut Store,
    task: &Task,
    lent: &[Line],
    values: &[u32],
    own: &[OwnLine],
    line: usize,
    case: usize,
)
    requires small { AllByRecursion (LineIsSmall store.old.signed) lent.now }
    requires within { AllByRecursion (IsWithin (length values.now)) own.now }
    requires signed { store.old.signed ≡ 2 * (length task.now.tables.symbols + 1) }
    requires spare_facts { MOST_FORM_ATOMS ≤ store.old.spare_facts }
    requires spare_args { MOST_FORM_ATOMS * MOST_ARGUMENTS ≤ store.old.spare_args }
    ensures noted { (facts : Lst AtomValue) (falsum : Bool) → cased.case_at
        (cased.lines_seen task.now lent.now values.now own.now) line case ≡ Some facts
        → IsNoted (line_value.Facts facts) store.old falsum store.new falsum }
    ensures adds { Adds MOST_FORM_ATOMS (MOST_FORM_ATOMS * MOST_ARGUMENTS) store.old store.new }
{
    // The task has few symbols.
    let _forms = task.forms();
    if line < lent.len() {
        add_lent_case(store, &lent[line], case);
    } else if let Some(own) = own.get(line - lent.len()) {
        add_own_case(store, task, values, *own, case);
    }
}
