ghost use Rattle.std.specs.Prelude.{◌≡◌, ℕ, Bool, true, Ok, Some};
ghost use Rattle.clause_solver.specs.Clauses.{IsClauseTrue, Suits};
ghost use Rattle.clause_solver.specs.Stored.{kept_in, StaySuited};

use crate::analysis::learn;
use crate::literal::Literal;
use crate::propagation::propagate;
use crate::reduction::{is_untrue, reduce};
use crate::search::{Search, open_literal};
use crate::solver::Answer;
use crate::store::Store;
use std::alloc::Global;
use text_core::Memory;

/// Adds a clause at level 0. `Memory` is want of memory.
pub(crate) fn take_in(
    store: &mut Store,
    search: &mut Search,
    clause: &[Literal],
) -> Result<(), Memory>
    ensures { (sigma : ℕ → Bool) → Suits sigma (kept_in store.old)
        → IsClauseTrue sigma clause.now → Suits sigma (kept_in store.new) }
{
    settle_all(store, search)?;
    if !is_untrue(&search.trail, clause) {
        return Ok(());
    }
    let number = store.add(clause)?;
    search.ranks.note(number, None)?;
    let Some(first) = open_literal(&search.trail, clause, None) else {
        return store.refute(number);
    };
    let second = open_literal(&search.trail, clause, Some(first));
    search.watch(number, first, second)
}

// Holds the values of level 0 for certain. `Memory` is want of memory.
fn settle_all(store: &mut Store, search: &mut Search) -> Result<(), Memory>
    ensures { StaySuited (kept_in store.old) (kept_in store.new) }
{
    for at in search.trail.settled()..search.trail.len() {
        let Some(literal) = search.trail.literal(at) else {
            return Err(Memory);
        };
        let Some(reason) = search.trail.reason_of(literal.variable) else {
            return Err(Memory);
        };
        store.settle(literal, reason)?;
        search.trail.note_settled(at + 1);
    }
    Ok(())
}

/// One step of a search: what clauses ask for is done, and then something is learnt from a
/// conflict, or a value is guessed. The answer where one is found. `Memory` is want of memory.
pub(crate) fn step(
    alloc: Global,
    store: &mut Store,
    search: &mut Search,
) -> Result<Option<Answer>, Memory>
    ensures kept { StaySuited (kept_in store.old) (kept_in store.new) }
    ensures none { result ≡ Ok (Some Answer.None) → store.new.refuted ≡ true }
{
    match propagate(store, &mut search.trail, &mut search.watches)? {
        Some(conflict) => meet(store, search, conflict),
        None => guess(alloc, store, search),
    }
}

// Learns from a clause all of whose literals are false; at level 0 no values suit.
fn meet(store: &mut Store, search: &mut Search, conflict: u32) -> Result<Option<Answer>, Memory>
    ensures kept { StaySuited (kept_in store.old) (kept_in store.new) }
    ensures none { result ≡ Ok (Some Answer.None) → store.new.refuted ≡ true }
{
    if search.trail.level() > 0 {
        learn(store, search, conflict)?;
        return Ok(None);
    }
    settle_all(store, search)?;
    store.refute(conflict)?;
    Ok(Some(Answer::None))
}

// Guesses a value, or goes back to level 0 where a run is over.
fn guess(alloc: Global, store: &mut Store, search: &mut Search) -> Result<Option<Answer>, Memory>
    ensures kept { StaySuited (kept_in store.old) (kept_in store.new) }
    ensures none { result ≡ Ok (Some Answer.None) → store.new.refuted ≡ true }
{
    tidy(alloc, store, search)?;
    if search.pace.is_over() {
        search.go_back(0);
        return Ok(None);
    }
    let Some(literal) = search.order.choose(&search.trail) else {
        return Ok(Some(Answer::Values));
    };
    search.trail.open_level()?;
    search.trail.assign(literal, None)?;
    Ok(None)
}

// At level 0, holds the values for certain, and gives up clauses where there are too many.
fn tidy(alloc: Global, store: &mut Store, search: &mut Search) -> Result<(), Memory>
    ensures { StaySuited (kept_in store.old) (kept_in store.new) }
{
    if search.trail.level() > 0 {
        return Ok(());
    }
    settle_all(store, search)?;
    if search.ranks.is_full() {
        reduce(alloc, store, search)?;
    }
    Ok(())
}
