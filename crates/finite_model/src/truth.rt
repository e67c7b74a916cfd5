ghost use Rattle.std.specs.Prelude.{◌≡◌, map, IfOk, OnOk};
ghost use Rattle.logic_core.specs.Truth.{IsTrueIn, OpTrue, term_value};
ghost use Rattle.finite_model.specs.Structures.{finite};
ghost use Rattle.finite_model.specs.Decided.{Decides, DecidesMember, DecidesChoice};

use crate::connective::{connected, decided};
use crate::lookup::Lookup;
use crate::values::Values;
use logic_core::{Formula, Op, Term};
use std::alloc::Global;
use text_core::{List, Memory, Name};

/// The value of a term.
fn value(term: &Term, lookup: &Lookup<'_>, values: &Values<'_>) -> u32
    ensures { result ≡ term_value (finite lookup.now) values.now term.now }
{
    match term {
        Term::Variable(name) => values.value(name),
        Term::Constant(name) => lookup.place(name).unwrap_or(0),
    }
}

/// Whether a predicate holds of the values of terms.
fn atom_is_true(
    alloc: Global,
    predicate: &Name,
    terms: &[Term],
    lookup: &Lookup<'_>,
    values: &Values<'_>,
) -> Result<bool, Memory>
    ensures { IfOk result (λ truth. truth ≡ (finite lookup.now).holds predicate.now
        (map (term_value (finite lookup.now) values.now) terms.now)) }
{
    let mut arguments = List::new(alloc);
    for term in terms {
        arguments.push(value(term, lookup, values))?;
    }
    Ok(lookup.holds(predicate, arguments.as_slice()))
}

/// Whether some formula is true, or false, as it is wanted.
#[cycle(truth)]
fn has_member<'f>(
    wanted: bool,
    formulas: &'f [Formula],
    alloc: Global,
    lookup: &Lookup<'_>,
    values: &mut Values<'f>,
) -> Result<bool, Memory>
    ensures values { OnOk result (values.new ≡ values.old) }
    ensures found { IfOk result (λ found. DecidesMember found wanted
        (λ g. IsTrueIn (finite lookup.now) g values.old) formulas.now) }
{
    for formula in formulas {
        if is_true(formula, alloc, lookup, values)? == wanted {
            return Ok(true);
        }
    }
    Ok(false)
}

/// Whether some choice of elements for the variables makes a formula true, or false, as it is
/// wanted.
#[cycle(truth)]
fn has_choice<'f>(
    wanted: bool,
    variables: &'f [Name],
    formula: &'f Formula,
    alloc: Global,
    lookup: &Lookup<'_>,
    values: &mut Values<'f>,
) -> Result<bool, Memory>
    ensures values { OnOk result (values.new ≡ values.old) }
    ensures found { IfOk result (λ found. DecidesChoice (finite lookup.now) found wanted
        (IsTrueIn (finite lookup.now) formula.now) variables.now values.old) }
{
    match variables {
        [] => Ok(is_true(formula, alloc, lookup, values)? == wanted),
        [first, rest @ ..] => {
            for element in 0..lookup.size() {
                values.bind(first, element)?;
                let found = has_choice(wanted, rest, formula, alloc, lookup, values)?;
                values.unbind();
                if found {
                    return Ok(true);
                }
            }
            Ok(false)
        }
    }
}

/// Whether two formulas with a connective between them are true.
#[cycle(truth)]
fn both_true<'f>(
    op: Op,
    left: &'f Formula,
    right: &'f Formula,
    alloc: Global,
    lookup: &Lookup<'_>,
    values: &mut Values<'f>,
) -> Result<bool, Memory>
    ensures values { OnOk result (values.new ≡ values.old) }
    ensures truth { IfOk result (λ truth. Decides truth (OpTrue op
        (IsTrueIn (finite lookup.now) left.now values.old)
        (IsTrueIn (finite lookup.now) right.now values.old))) }
{
    let first = is_true(left, alloc, lookup, values)?;
    match decided(op, first) {
        Some(truth) => Ok(truth),
        None => Ok(connected(op, first, is_true(right, alloc, lookup, values)?)),
    }
}

/// Whether a formula is true in a finite structure, for these values of its variables. A quantifier
/// over so many variables costs at most as many looks as there are choices of elements for them.
/// `Memory` is want of memory.
#[cycle(truth)]
pub(crate) fn is_true<'f>(
    formula: &'f Formula,
    alloc: Global,
    lookup: &Lookup<'_>,
    values: &mut Values<'f>,
) -> Result<bool, Memory>
    ensures values { OnOk result (values.new ≡ values.old) }
    ensures truth { IfOk result (λ truth. Decides truth
        (IsTrueIn (finite lookup.now) formula.now values.old)) }
{
    match formula {
        Formula::True => Ok(true),
        Formula::False => Ok(false),
        Formula::Pred(name, terms) => atom_is_true(alloc, name, terms.as_slice(), lookup, values),
        Formula::Equal(left, right) => {
            Ok(value(left, lookup, values) == value(right, lookup, values))
        }
        Formula::Not(body) => Ok(!is_true(body.get(), alloc, lookup, values)?),
        Formula::And(members) => {
            Ok(!has_member(false, members.as_slice(), alloc, lookup, values)?)
        }
        Formula::Or(members) => has_member(true, members.as_slice(), alloc, lookup, values),
        Formula::Binary(op, left, right) => {
            both_true(*op, left.get(), right.get(), alloc, lookup, values)
        }
        Formula::ForAll(variables, body) => Ok(!has_choice(
            false,
            variables.as_slice(),
            body.get(),
            alloc,
            lookup,
            values,
        )?),
        Formula::Exists(variables, body) => {
            has_choice(
                true,
                variables.as_slice(),
                body.get(),
                alloc,
                lookup,
                values,
            )
        }
    }
}
