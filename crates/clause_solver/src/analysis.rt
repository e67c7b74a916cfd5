ghost use Rattle.std.specs.Prelude.{OnOk};
ghost use Rattle.clause_solver.specs.Stored.{kept_in, StaySuited, Follows};

use crate::literal::Literal;
use crate::order::Order;
use crate::search::Search;
use crate::store::Store;
use crate::trail::Trail;
use text_core::Memory;

/// Learns a clause from a clause all of whose literals are false, goes back as far as the new one
/// asks for a literal, and makes that one true. `Memory` is want of memory.
pub(crate) fn learn(store: &mut Store, search: &mut Search, conflict: u32) -> Result<(), Memory>
    ensures { StaySuited (kept_in store.old) (kept_in store.new) }
{
    let asserted = derive(store, search, conflict)?;
    let number = store.add(search.working.literals())?;
    adopt(search, number, asserted)
}

// Goes back as far as the working clause asks for a literal, which is made true, and lets the
// clause, which has this number, watch literals. `Memory` is want of memory.
fn adopt(search: &mut Search, number: u32, asserted: Literal) -> Result<(), Memory> {
    let literals = search.working.literals();
    let rank = search.ranks.spread(&search.trail, literals);
    let second = latest_but(&search.trail, literals, asserted);
    let level = second.map_or(0, |literal| search.trail.level_of(literal.variable));
    search.go_back(level);
    search.ranks.note(number, Some(rank))?;
    search.order.decay();
    search.pace.count();
    if let Some(second) = second {
        search.watches.add(number, asserted, second)?;
    }
    search.trail.assign(asserted, Some(number))
}

// A literal of the highest level beside this one.
fn latest_but(trail: &Trail, literals: &[Literal], but: Literal) -> Option<Literal> {
    literals
        .iter()
        .copied()
        .filter(|literal| *literal != but)
        .max_by_key(|literal| trail.level_of(literal.variable))
}

// Makes a clause that follows with one literal of the present level, and tells that literal.
// `Memory` is want of memory.
fn derive(store: &Store, search: &mut Search, conflict: u32) -> Result<Literal, Memory>
    ensures { OnOk result (Follows (kept_in store.now) search.new.working.literals.items) }
{
    let mut open = begin(store, search, conflict)?;
    for at in (0..search.trail.len()).rev() {
        let Some(literal) = search.trail.literal(at) else {
            return Err(Memory);
        };
        if search.working.holds(literal.opposite()) {
            if open <= 1 {
                shorten(store, search, literal.opposite())?;
                return Ok(literal.opposite());
            }
            open = (open - 1).saturating_add(replace(store, search, literal)?);
        }
    }
    Err(Memory)
}

// Begins with a clause, and tells how many of its literals are of the present level.
fn begin(store: &Store, search: &mut Search, conflict: u32) -> Result<usize, Memory>
    ensures { OnOk result (Follows (kept_in store.now) search.new.working.literals.items) }
{
    let Some(clause) = store.clause(conflict) else {
        return Err(Memory);
    };
    search.working.start(store, clause)?;
    Ok(note(
        &mut search.order,
        &search.trail,
        search.working.literals(),
        0,
    ))
}

// Replaces the opposite of a true literal by the other literals of the clause that asks for it, and
// tells how many of those that are new are of the present level. `Memory` where no clause asks for
// it, and for want of memory.
fn replace(store: &Store, search: &mut Search, literal: Literal) -> Result<usize, Memory>
    ensures { OnOk result (Follows (kept_in store.now) search.old.working.literals.items
        → Follows (kept_in store.now) search.new.working.literals.items) }
{
    let Some(reason) = search.trail.reason_of(literal.variable) else {
        return Err(Memory);
    };
    let Some(clause) = store.clause(reason) else {
        return Err(Memory);
    };
    let before = search.working.literals().len();
    search.working.resolve(store, literal, clause)?;
    Ok(note(
        &mut search.order,
        &search.trail,
        search.working.literals(),
        before.saturating_sub(1),
    ))
}

// Leaves literals out that the others ask for, but not this one. `Memory` is want of memory.
fn shorten(store: &Store, search: &mut Search, asserted: Literal) -> Result<(), Memory>
    ensures { OnOk result (Follows (kept_in store.now) search.old.working.literals.items
        → Follows (kept_in store.now) search.new.working.literals.items) }
{
    for at in (0..search.working.literals().len()).rev() {
        leave_out(store, search, at, asserted)?;
    }
    Ok(())
}

// Leaves the literal at a place out where the others ask for it; not this one. `Memory` is want of
// memory.
fn leave_out(store: &Store, search: &mut Search, at: usize, asserted: Literal) -> Result<(), Memory>
    ensures { OnOk result (Follows (kept_in store.now) search.old.working.literals.items
        → Follows (kept_in store.now) search.new.working.literals.items) }
{
    let Some(literal) = search.working.literals().get(at).copied() else {
        return Ok(());
    };
    if literal == asserted {
        return Ok(());
    }
    let Some(reason) = search.trail.reason_of(literal.variable) else {
        return Ok(());
    };
    let Some(clause) = store.clause(reason) else {
        return Ok(());
    };
    if !search.working.covers(store, clause, literal.opposite()) {
        return Ok(());
    }
    search.working.resolve(store, literal.opposite(), clause)
}

// Raises the variables of the literals from this place on, and tells how many of them are of the
// present level.
fn note(order: &mut Order, trail: &Trail, literals: &[Literal], from: usize) -> usize {
    let literals = literals.get(from..).unwrap_or(&[]);
    for literal in literals {
        order.raise(literal.variable);
    }
    literals
        .iter()
        .filter(|literal| trail.level_of(literal.variable) == trail.level())
        .count()
}
