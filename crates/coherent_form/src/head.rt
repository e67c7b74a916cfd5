ghost use Rattle.std.specs.Prelude.{◌≡◌, ◌++◌, map, IfOk, OnOk};
ghost use Rattle.coherent_form.specs.Each.{head_in};
ghost use Rattle.coherent_form.specs.Reading.{atom_moved, head_joined as heads_joined, head_of as head_at};

use crate::alternative::Head;
use crate::atoms::{push_atoms, push_moved, sum_of};
use crate::numbering::number_of;
use crate::scope::bind;
use logic_core::{Atom, Formula};
use signature::Tables;
use std::alloc::Global;
use text_core::{List, Memory, Name};

/// Copies of disjuncts whose variables from a number on are numbered higher.
pub(crate) fn disjuncts_moved(
    alloc: Global,
    from: u32,
    by: u32,
    disjuncts: &[List<Atom>],
) -> Result<List<List<Atom>>, Memory>
    ensures { IfOk result (λ moved. moved ≡ map (map (atom_moved from by)) disjuncts.now) }
{
    let mut moved = List::new(alloc);
    for disjunct in disjuncts {
        let mut atoms = List::new(alloc);
        push_moved(alloc, from, by, disjunct.as_slice(), &mut atoms)?;
        moved.push(atoms)?;
    }
    Ok(moved)
}

/// Disjuncts whose variables from a number on are numbered higher. They are not copied where
/// nothing changes.
fn disjuncts_after(
    alloc: Global,
    from: u32,
    by: u32,
    disjuncts: List<List<Atom>>,
) -> Result<List<List<Atom>>, Memory>
    ensures { IfOk result (λ moved. moved ≡ map (map (atom_moved from by)) disjuncts) }
{
    if by == 0 {
        return Ok(disjuncts);
    }
    disjuncts_moved(alloc, from, by, disjuncts.as_slice())
}

/// One conclusion or another, where so many variables are in scope.
fn head_joined(alloc: Global, scope: u32, first: Head, second: Head) -> Result<Head, Memory>
    ensures { IfOk result (λ both. both ≡ heads_joined scope first second) }
{
    let Head {
        variables,
        mut disjuncts,
    } = first;
    let Head {
        variables: further,
        disjuncts: more,
    } = second;
    disjuncts.append(disjuncts_after(alloc, scope, variables, more)?)?;
    Ok(Head {
        variables: sum_of(variables, further)?,
        disjuncts,
    })
}

#[cycle(head)]
fn head_of_each(
    alloc: Global,
    tables: &Tables,
    scope: &mut List<Name>,
    members: &[Formula],
) -> Result<Head, Memory>
    ensures value { IfOk result (λ head. head ≡ head_in tables.now scope.old members.now) }
    ensures scope { OnOk result (scope.new ≡ scope.old) }
{
    let within = number_of(scope.len())?;
    let mut all = Head {
        variables: 0,
        disjuncts: List::new(alloc),
    };
    for member in members {
        let more = head_of(alloc, tables, scope, member)?;
        all = head_joined(alloc, within, all, more)?;
    }
    Ok(all)
}

/// The variables and disjuncts of a conclusion, where the names are in scope. After `Memory`
/// further names may be in scope.
#[cycle(head)]
pub(crate) fn head_of(
    alloc: Global,
    tables: &Tables,
    scope: &mut List<Name>,
    formula: &Formula,
) -> Result<Head, Memory>
    ensures value { IfOk result (λ head. head ≡ head_at tables.now scope.old formula.now) }
    ensures scope { OnOk result (scope.new ≡ scope.old) }
{
    match formula {
        Formula::False => Ok(Head {
            variables: 0,
            disjuncts: List::new(alloc),
        }),
        Formula::Or(members) => head_of_each(alloc, tables, scope, members.as_slice()),
        Formula::Exists(names, body) => {
            let outer = scope.len();
            bind(alloc, scope, names.as_slice())?;
            let head = head_of(alloc, tables, scope, body.get())?;
            scope.truncate(outer);
            Ok(Head {
                variables: sum_of(number_of(names.len())?, head.variables)?,
                disjuncts: head.disjuncts,
            })
        }
        _ => {
            let mut atoms = List::new(alloc);
            push_atoms(alloc, tables, scope.as_slice(), formula, &mut atoms)?;
            let mut disjuncts = List::new(alloc);
            disjuncts.push(atoms)?;
            Ok(Head {
                variables: 0,
                disjuncts,
            })
        }
    }
}
