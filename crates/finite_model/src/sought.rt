ghost use Rattle.std.specs.Prelude.{IsTrue, IsFalse, IfOk, IfNone, IfSome};
ghost use Rattle.std.specs.List.{AllByRecursion};
ghost use Rattle.finite_model.specs.Structures.{finite};
ghost use Rattle.finite_model.specs.Countermodels.{IsFirst, IsPlaced, Suits, Fails};

use crate::lookup::Lookup;
use crate::truth::is_true;
use crate::values::Values;
use logic_core::{Fof, Problem, Role};
use signature::Tables;
use std::alloc::Global;
use text_core::Memory;

/// The number, from 1, of the first constant that has no place.
pub(crate) fn first_unplaced(tables: &Tables, lookup: &Lookup<'_>) -> Option<u32>
    ensures none { IfNone result (AllByRecursion (IsPlaced lookup.now) tables.now.constants) }
    ensures some { IfSome result (λ number. IsFirst (IsPlaced lookup.now)
        (λ constant. IsPlaced lookup.now constant → ⊥) tables.now.constants number) }
{
    for number in 0..tables.constants() {
        let Some(_) = lookup.place(tables.constant_name(number)) else {
            return Some(number + 1);
        };
    }
    None
}

/// Whether a formula is as it is wanted: a premise that is true, or a conjecture that is not.
fn suits(alloc: Global, fof: &Fof, lookup: &Lookup<'_>) -> Result<bool, Memory>
    ensures yes { IfOk result (λ suits. IsTrue suits → Suits (finite lookup.now) fof.now) }
    ensures no { IfOk result (λ suits. IsFalse suits → Fails (finite lookup.now) fof.now) }
{
    let mut values = Values::new(alloc);
    let truth = is_true(&fof.formula, alloc, lookup, &mut values)?;
    Ok(match fof.role {
        Role::Conjecture => !truth,
        _ => truth,
    })
}

/// The number, from 1, of the first formula that fails.
pub(crate) fn first_failing(
    alloc: Global,
    problem: &Problem,
    lookup: &Lookup<'_>,
) -> Result<Option<u32>, Memory>
    ensures none { IfOk result (λ found. IfNone found
        (AllByRecursion (Suits (finite lookup.now)) problem.now)) }
    ensures some { IfOk result (λ found. IfSome found (λ number.
        IsFirst (Suits (finite lookup.now)) (Fails (finite lookup.now)) problem.now number)) }
{
    let formulas = problem.as_slice();
    for (number, fof) in formulas.iter().enumerate() {
        if !suits(alloc, fof, lookup)? {
            return Ok(Some(number as u32 + 1));
        }
    }
    Ok(None)
}
