ghost use Rattle.std.specs.Prelude.{◌≡◌, true, [], ◌∷◌, ◌++◌, map, IfOk, OnOk};
ghost use Rattle.coherent_form.specs.Each.{nothing, choices_in, offers_in};
ghost use Rattle.coherent_form.specs.Reading.{alternative_joined, alternatives_joined, alternative_bound, atoms_of, alternatives as alternatives_of};

use crate::alternative::Alternative;
use crate::atoms::{push_atoms, push_moved, sum_of};
use crate::numbering::number_of;
use crate::scope::bind;
use logic_core::Formula;
use signature::Tables;
use std::alloc::Global;
use text_core::{List, Memory, Name};

/// Whether there is one alternative, which asks for nothing.
fn is_nothing(alternatives: &[Alternative]) -> bool
    ensures { result ≡ true → alternatives.now ≡ nothing ∷ [] }
{
    match alternatives {
        [only] => only.variables == 0 && only.atoms.len() == 0,
        _ => false,
    }
}

/// One alternative and then another, where so many variables are in scope.
fn followed(
    alloc: Global,
    scope: u32,
    first: Alternative,
    second: &Alternative,
) -> Result<Alternative, Memory>
    ensures { IfOk result (λ both. both ≡ alternative_joined scope first second.now) }
{
    let Alternative {
        variables,
        mut atoms,
    } = first;
    push_moved(alloc, scope, variables, second.atoms.as_slice(), &mut atoms)?;
    Ok(Alternative {
        variables: sum_of(variables, second.variables)?,
        atoms,
    })
}

/// Each alternative and then the same other one.
fn each_followed(
    alloc: Global,
    scope: u32,
    firsts: List<Alternative>,
    second: &Alternative,
) -> Result<List<Alternative>, Memory>
    ensures { IfOk result (λ all.
        all ≡ map (λ first. alternative_joined scope first second.now) firsts) }
{
    let mut all = List::new(alloc);
    for first in firsts.into_vec() {
        all.push(followed(alloc, scope, first, second)?)?;
    }
    Ok(all)
}

fn copied(alloc: Global, alternative: &Alternative) -> Result<Alternative, Memory>
    ensures { IfOk result (λ copy. copy ≡ alternative.now) }
{
    let mut atoms = List::new(alloc);
    push_moved(alloc, 0, 0, alternative.atoms.as_slice(), &mut atoms)?;
    Ok(Alternative {
        variables: alternative.variables,
        atoms,
    })
}

/// Appends an alternative followed by each of some others.
fn push_followed(
    alloc: Global,
    scope: u32,
    first: &Alternative,
    seconds: &[Alternative],
    all: &mut List<Alternative>,
) -> Result<(), Memory>
    ensures { OnOk result (all.new
        ≡ all.old ++ map (alternative_joined scope first.now) seconds.now) }
{
    for second in seconds {
        all.push(followed(alloc, scope, copied(alloc, first)?, second)?)?;
    }
    Ok(())
}

fn product(
    alloc: Global,
    scope: u32,
    firsts: &[Alternative],
    seconds: &[Alternative],
) -> Result<List<Alternative>, Memory>
    ensures { IfOk result (λ all. all ≡ alternatives_joined scope firsts.now seconds.now) }
{
    let mut all = List::new(alloc);
    for first in firsts {
        push_followed(alloc, scope, first, seconds, &mut all)?;
    }
    Ok(all)
}

/// One alternative that has no variables, and then each of some others. What stands in them is not
/// copied.
fn each_preceded(
    alloc: Global,
    scope: u32,
    first: &Alternative,
    seconds: List<Alternative>,
) -> Result<List<Alternative>, Memory>
    requires { first.now.variables ≡ 0 }
    ensures { IfOk result (λ all. all ≡ map (alternative_joined scope first.now) seconds) }
{
    let mut all = List::new(alloc);
    for second in seconds.into_vec() {
        let mut atoms = List::new(alloc);
        push_moved(alloc, scope, 0, first.atoms.as_slice(), &mut atoms)?;
        atoms.append(second.atoms)?;
        all.push(Alternative {
            variables: second.variables,
            atoms,
        })?;
    }
    Ok(all)
}

/// Each of some alternatives and then each of others.
fn each_by_each(
    alloc: Global,
    scope: u32,
    firsts: &[Alternative],
    seconds: List<Alternative>,
) -> Result<List<Alternative>, Memory>
    ensures { IfOk result (λ all. all ≡ alternatives_joined scope firsts.now seconds) }
{
    match firsts {
        [first] if first.variables == 0 => each_preceded(alloc, scope, first, seconds),
        _ => product(alloc, scope, firsts, seconds.as_slice()),
    }
}

/// Every choice of an alternative from each of two lists. What stands is not copied where the second
/// list has a single alternative, or the first one has and it has no variables.
fn joined(
    alloc: Global,
    scope: u32,
    firsts: List<Alternative>,
    seconds: List<Alternative>,
) -> Result<List<Alternative>, Memory>
    ensures { IfOk result (λ all. all ≡ alternatives_joined scope firsts seconds) }
{
    if is_nothing(seconds.as_slice()) {
        return Ok(firsts);
    }
    if is_nothing(firsts.as_slice()) {
        return Ok(seconds);
    }
    match seconds.as_slice() {
        [second] => each_followed(alloc, scope, firsts, second),
        _ => each_by_each(alloc, scope, firsts.as_slice(), seconds),
    }
}

/// Alternatives with variables in front.
fn bound(
    alloc: Global,
    count: u32,
    alternatives: List<Alternative>,
) -> Result<List<Alternative>, Memory>
    ensures { IfOk result (λ all. all ≡ map (alternative_bound count) alternatives) }
{
    let mut all = List::new(alloc);
    for alternative in alternatives.into_vec() {
        all.push(Alternative {
            variables: sum_of(count, alternative.variables)?,
            atoms: alternative.atoms,
        })?;
    }
    Ok(all)
}

/// The one alternative of a premise that is a conjunction of atoms.
fn single(
    alloc: Global,
    tables: &Tables,
    scope: &[Name],
    formula: &Formula,
) -> Result<List<Alternative>, Memory>
    ensures { IfOk result (λ all.
        all ≡ record { variables = 0; atoms = atoms_of tables.now scope.now formula.now } ∷ []) }
{
    let mut atoms = List::new(alloc);
    push_atoms(alloc, tables, scope, formula, &mut atoms)?;
    let mut all = List::new(alloc);
    all.push(Alternative {
        variables: 0,
        atoms,
    })?;
    Ok(all)
}

#[cycle(alternatives)]
fn choices(
    alloc: Global,
    tables: &Tables,
    scope: &mut List<Name>,
    members: &[Formula],
) -> Result<List<Alternative>, Memory>
    ensures value { IfOk result (λ all. all ≡ choices_in tables.now scope.old members.now) }
    ensures scope { OnOk result (scope.new ≡ scope.old) }
{
    let within = number_of(scope.len())?;
    let mut all = List::new(alloc);
    all.push(Alternative {
        variables: 0,
        atoms: List::new(alloc),
    })?;
    for member in members {
        let more = alternatives(alloc, tables, scope, member)?;
        all = joined(alloc, within, all, more)?;
    }
    Ok(all)
}

#[cycle(alternatives)]
fn offers(
    alloc: Global,
    tables: &Tables,
    scope: &mut List<Name>,
    members: &[Formula],
) -> Result<List<Alternative>, Memory>
    ensures value { IfOk result (λ all. all ≡ offers_in tables.now scope.old members.now) }
    ensures scope { OnOk result (scope.new ≡ scope.old) }
{
    let mut all = List::new(alloc);
    for member in members {
        let more = alternatives(alloc, tables, scope, member)?;
        all.append(more)?;
    }
    Ok(all)
}

/// The alternatives of a premise, where the names are in scope. After `Memory` further names may
/// be in scope.
#[cycle(alternatives)]
pub(crate) fn alternatives(
    alloc: Global,
    tables: &Tables,
    scope: &mut List<Name>,
    formula: &Formula,
) -> Result<List<Alternative>, Memory>
    ensures value { IfOk result (λ all.
        all ≡ alternatives_of tables.now scope.old formula.now) }
    ensures scope { OnOk result (scope.new ≡ scope.old) }
{
    match formula {
        Formula::And(members) => choices(alloc, tables, scope, members.as_slice()),
        Formula::Or(members) => offers(alloc, tables, scope, members.as_slice()),
        Formula::Exists(names, body) => {
            let outer = scope.len();
            bind(alloc, scope, names.as_slice())?;
            let all = alternatives(alloc, tables, scope, body.get())?;
            scope.truncate(outer);
            bound(alloc, number_of(names.len())?, all)
        }
        _ => single(alloc, tables, scope.as_slice(), formula),
    }
}
