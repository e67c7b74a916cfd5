use crate::literal::Literal;
use crate::store::Store;
use crate::trail::Trail;
use crate::watches::{Watcher, Watches};
use text_core::Memory;

// What becomes of a watcher.
enum Fate {
    // It stays with the literal, as it is told here.
    Stays(Watcher),
    // It has gone to another literal.
    Leaves,
    // All literals of its clause are false.
    Conflict,
}

// What becomes of a list of watchers: how many stay, at its front, and which clause has no literal
// that may be true.
#[derive(Clone, Copy)]
struct Round {
    kept: usize,
    conflict: Option<u32>,
}

/// Makes the literals true that clauses ask for, and tells a clause all of whose literals are
/// false, where it meets one. `Memory` is want of memory.
pub(crate) fn propagate(
    store: &Store,
    trail: &mut Trail,
    watches: &mut Watches,
) -> Result<Option<u32>, Memory> {
    for _ in 0..trail.variables() {
        let Some(literal) = trail.next() else {
            return Ok(None);
        };
        let conflict = visit(store, trail, watches, literal.opposite())?;
        if conflict.is_some() {
            return Ok(conflict);
        }
    }
    Ok(None)
}

// Looks at the clauses that watch a literal that has become false.
fn visit(
    store: &Store,
    trail: &mut Trail,
    watches: &mut Watches,
    literal: Literal,
) -> Result<Option<u32>, Memory> {
    let mut list = watches.take(literal);
    let round = go_round(store, trail, watches, literal, list.as_mut_slice())?;
    list.truncate(round.kept);
    watches.exchange(literal, &mut list);
    Ok(round.conflict)
}

fn go_round(
    store: &Store,
    trail: &mut Trail,
    watches: &mut Watches,
    literal: Literal,
    list: &mut [Watcher],
) -> Result<Round, Memory> {
    let mut kept = 0;
    for at in 0..list.len() {
        match turn(store, trail, watches, literal, list[at])? {
            Fate::Leaves => {}
            Fate::Stays(watcher) => {
                list[kept] = watcher;
                kept += 1;
            }
            Fate::Conflict => {
                let conflict = Some(list[at].clause);
                let rest = list.len() - at;
                list.copy_within(at.., kept);
                let kept = kept + rest;
                return Ok(Round { kept, conflict });
            }
        }
    }
    let conflict = None;
    Ok(Round { kept, conflict })
}

fn turn(
    store: &Store,
    trail: &mut Trail,
    watches: &mut Watches,
    literal: Literal,
    watcher: Watcher,
) -> Result<Fate, Memory> {
    if trail.is_true(watcher.blocker) {
        return Ok(Fate::Stays(watcher));
    }
    let clause = watcher.clause;
    let Some(other) = watches.other(clause, literal) else {
        return Ok(Fate::Leaves);
    };
    let watcher = Watcher {
        clause,
        blocker: other,
    };
    if trail.is_true(other) {
        return Ok(Fate::Stays(watcher));
    }
    let Some(literals) = store.clause(clause) else {
        return Ok(Fate::Leaves);
    };
    if let Some(next) = next_watched(trail, literals, literal, other) {
        watches.turn(watcher, next)?;
        return Ok(Fate::Leaves);
    }
    if trail.is_false(other) {
        return Ok(Fate::Conflict);
    }
    trail.assign(other, Some(clause))?;
    Ok(Fate::Stays(watcher))
}

// A literal of a clause beside these two that is not false.
fn next_watched(
    trail: &Trail,
    literals: &[Literal],
    one: Literal,
    other: Literal,
) -> Option<Literal> {
    for literal in literals {
        if !trail.is_false(*literal) && *literal != one && *literal != other {
            return Some(*literal);
        }
    }
    None
}
