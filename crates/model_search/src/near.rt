ghost use Rattle.std.specs.Prelude.{ℕ, List, ◌≡◌, ◌<◌, ◌≤◌, ◌++◌, length, IfOk, OnOk};
ghost use Rattle.std.specs.List.{AllByRecursion};
ghost use Rattle.logic_core.specs.Forms.{IsWellFormed};
ghost use Rattle.model_search.specs.Candidates.{Candidate};
ghost use Rattle.model_search.specs.Nearness.{AreNear, NearTrue, IsNearFair, GoesNear, GoesNearBy};
ghost use Rattle.model_search.specs.Orders.{AreFormedRules, IsFair};
ghost use Rattle.model_search.specs.Rules.{SomeTrue};
ghost use Rattle.model_search.specs.Sheets.{Covers, Goes, GoesIf};

use crate::choices::{MOST_OPTIONS, choices};
use crate::formed::is_well_formed;
use crate::instance::{are_elements, oppose_each};
use crate::options::add_disjuncts;
use crate::rule::Rule;
use crate::sheet::Sheet;
use logic_core::{Atom, Form};
use std::alloc::Global;
use text_core::{List, Memory};

/// Adds the literals of the disjuncts at these values and each choice of near elements for so many
/// further variables: each is one of the first elements, or the next one, which adds to these.
fn add_near_options(
    alloc: Global,
    sheet: &mut Sheet,
    disjuncts: &[List<Atom>],
    values: &mut Vec<u32>,
    size: u32,
    near: u32,
    further: u32,
) -> Result<(), Memory>
    ensures values { OnOk result (values.new.items ≡ values.old.items) }
    ensures goes { OnOk result (Goes sheet.old sheet.new) }
    ensures covers { OnOk result ((c : Candidate) (xs : List ℕ) → length xs ≡ further
        → AllByRecursion (λ x. x < size) xs → AreNear near xs
        → SomeTrue c (values.old.items ++ xs) disjuncts.now → Covers c sheet.new) }
{
    if sheet.is_settled() {
        return Ok(());
    }
    if further == 0 {
        return add_disjuncts(alloc, sheet, disjuncts, values.as_slice(), &[]);
    }
    for element in 0..size.min(near.saturating_add(1)) {
        values.push(element)?;
        let more = near.max(element + 1);
        add_near_options(alloc, sheet, disjuncts, values, size, more, further - 1)?;
        values.pop();
    }
    Ok(())
}

/// Adds the clause of an instance whose options have near elements alone for the existential
/// variables. `Memory` is want of memory, or a form with constants.
fn add_near_instance(
    alloc: Global,
    sheet: &mut Sheet,
    form: &Form,
    values: &mut Vec<u32>,
    size: u32,
    near: u32,
) -> Result<(), Memory>
    ensures { OnOk result
        (GoesIf (NearTrue size near form.now values.old.items) sheet.old sheet.new) }
{
    sheet.begin();
    let premises = form.premises.as_slice();
    oppose_each(alloc, sheet, premises, values.as_slice(), &[])?;
    let disjuncts = form.disjuncts.as_slice();
    add_near_options(
        alloc,
        sheet,
        disjuncts,
        values,
        size,
        near,
        form.existentials,
    )?;
    sheet.finish()
}

/// The elements of a choice of so many, each below `base`, told by its number.
fn chosen(alloc: Global, number: u64, base: u32, count: u32) -> Result<Vec<u32>, Memory>
    requires { 1 ≤ base }
{
    let base = u64::from(base);
    let mut rest = number;
    let mut values = Vec::new(alloc);
    for _ in 0..count {
        values.push((rest % base) as u32)?;
        rest /= base;
    }
    Ok(values)
}

/// Adds the clause of an instance at a choice of elements, told by its number, of which one is
/// `greatest` and none is greater. It gives the number of the first elements, which the witnesses
/// add to; where a clause would say nothing new, they stay.
fn add_near_choice(
    alloc: Global,
    sheet: &mut Sheet,
    form: &Form,
    number: u64,
    greatest: u32,
    near: u32,
    size: u32,
) -> Result<u32, Memory>
    requires closed { IsWellFormed 0 form.now }
    requires element { greatest < size }
    ensures { IfOk result (λ more. GoesNearBy size form.now near more sheet.old sheet.new) }
{
    let mut values = chosen(alloc, number, greatest + 1, form.universals)?;
    let is_new = values.as_slice().contains(&greatest) || (values.is_empty() && greatest == 0);
    let first = near.max(greatest + 1);
    if !is_new || first >= size || !are_elements(values.as_slice(), first) {
        return Ok(near);
    }
    if values.len() != form.universals as usize {
        return Ok(near);
    }
    let Some(more) = first.checked_add(form.existentials) else {
        return Ok(near);
    };
    add_near_instance(alloc, sheet, form, &mut values, size, first)?;
    Ok(more)
}

/// Adds the clauses of a form's instances at elements of which one is `greatest` and none is
/// greater. A form with constants, or with too many choices, gives none.
fn add_near_form(
    alloc: Global,
    sheet: &mut Sheet,
    form: &Form,
    greatest: u32,
    near: u32,
    size: u32,
) -> Result<u32, Memory>
    requires { greatest < size }
    ensures { IfOk result (λ more. GoesNearBy size form.now near more sheet.old sheet.new) }
{
    if form.existentials == 0 || !is_well_formed(form, 0) {
        return Ok(near);
    }
    if choices(size, form.existentials, MOST_OPTIONS).is_none() {
        return Ok(near);
    }
    let Some(count) = choices(greatest + 1, form.universals, MOST_OPTIONS) else {
        return Ok(near);
    };
    let mut more = near;
    for number in 0..count {
        if more.saturating_add(1) >= size {
            return Ok(more);
        }
        more = add_near_choice(alloc, sheet, form, number, greatest, more, size)?;
    }
    Ok(more)
}

/// The same of each rule's form.
fn add_near_rules(
    alloc: Global,
    sheet: &mut Sheet,
    rules: &[Rule<'_>],
    greatest: u32,
    near: u32,
    size: u32,
) -> Result<u32, Memory>
    requires { greatest < size }
    ensures { IfOk result (λ more. GoesNear size rules.now near more sheet.old sheet.new) }
{
    let mut more = near;
    for rule in rules {
        more = add_near_form(alloc, sheet, rule.form, greatest, more, size)?;
    }
    Ok(more)
}

/// Adds clauses that witnesses are near, where this many constants and parameters are in order: as
/// many as there are elements which nothing tells apart.
pub(crate) fn add_near(
    alloc: Global,
    sheet: &mut Sheet,
    rules: &[Rule<'_>],
    count: u32,
    size: u32,
) -> Result<(), Memory>
    requires { AreFormedRules count rules.now }
    ensures { OnOk result (IsNearFair size rules.now count count sheet.old
        → IsFair size rules.now sheet.new) }
{
    let mut near = count;
    for greatest in 0..size {
        near = add_near_rules(alloc, sheet, rules, greatest, near, size)?;
    }
    Ok(())
}
