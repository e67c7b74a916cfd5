ghost use Rattle.clause_solver.specs.Stored.{kept_in, StaySuited};

use crate::literal::Literal;
use crate::search::{Search, open_literal};
use crate::store::Store;
use crate::trail::Trail;
use std::alloc::Global;
use text_core::Memory;

/// Gives up about half of the learnt clauses, and those with a literal that is held for certain, at
/// level 0. `Memory` is want of memory.
pub(crate) fn reduce(alloc: Global, store: &mut Store, search: &mut Search) -> Result<(), Memory>
    ensures { StaySuited (kept_in store.old) (kept_in store.new) }
{
    let (wanted, ranks) = choose(alloc, store, search)?;
    store.keep(alloc, wanted.as_slice())?;
    renew(store, search, ranks.as_slice())
}

// Which clauses are wanted, and the ranks of those.
fn choose(
    alloc: Global,
    store: &Store,
    search: &Search,
) -> Result<(Vec<bool>, Vec<Option<u32>>), Memory> {
    let middle = search.ranks.middle();
    let mut wanted = Vec::new(alloc);
    let mut ranks = Vec::new(alloc);
    for number in 0..store.len() {
        let is_wanted = search.ranks.is_useful(number, middle)
            && is_open(store, &search.trail, number);
        wanted.push(is_wanted)?;
        if is_wanted {
            ranks.push(search.ranks.rank(number))?;
        }
    }
    Ok((wanted, ranks))
}

// Whether no literal of a clause is true.
fn is_open(store: &Store, trail: &Trail, number: usize) -> bool {
    let Ok(number) = u32::try_from(number) else {
        return false;
    };
    match store.clause(number) {
        Some(clause) => is_untrue(trail, clause),
        None => false,
    }
}

/// Whether no literal of a clause is true.
pub(crate) fn is_untrue(trail: &Trail, clause: &[Literal]) -> bool {
    !clause.iter().any(|literal| trail.is_true(*literal))
}

// Lets all clauses watch literals anew.
fn renew(store: &Store, search: &mut Search, ranks: &[Option<u32>]) -> Result<(), Memory> {
    search.trail.forget_reasons();
    search.watches.clear();
    search.ranks.clear();
    for (number, rank) in ranks.iter().enumerate() {
        let Ok(number) = u32::try_from(number) else {
            return Err(Memory);
        };
        search.ranks.note(number, *rank)?;
        renew_clause(store, search, number)?;
    }
    Ok(())
}

// Lets a clause watch literals anew.
fn renew_clause(store: &Store, search: &mut Search, number: u32) -> Result<(), Memory> {
    let Some(clause) = store.clause(number) else {
        return Err(Memory);
    };
    let Some(first) = open_literal(&search.trail, clause, None) else {
        return Err(Memory);
    };
    let second = open_literal(&search.trail, clause, Some(first));
    search.watch(number, first, second)
}
