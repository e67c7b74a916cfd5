//! Where the steps of a plan stand.

ghost use Rattle.std.specs.Prelude.{◌≡◌, ℕ, List, Some, slice_get};
ghost use Rattle.vernacular_tree.specs.Contexts.{Task};
ghost use Rattle.vernacular_tree.specs.declared.context.Context.{Context};
ghost use Rattle.proof_plans.specs.Runs.{Case, Fire};
ghost use Rattle.proof_plans.specs.Places.{LeadsTo, IsDeeper, PlaceHolds, NextHolds, Follows};
ghost use Rattle.proof_plans.specs.declared.draft.PlanTie.TheVariants as tie_value;

use crate::draft::{Node, PlanTie};
use crate::item::item_at;
use crate::word::leads_to;

/// How many steps come before a step at least, and a branch that leads to where it stands; branch 0
/// tells nothing.
#[derive(Clone, Copy, Debug)]
pub struct Place {
    pub rank: u32,
    pub level: u32,
}

/// The deeper one of two branches that lead to a third.
#[derive(Clone, Copy, Debug)]
pub enum Deeper {
    Level(u32),
    /// They lead to no branch in common.
    Apart,
    Unknown,
}

/// What follows of one more tie.
#[derive(Clone, Copy, Debug)]
pub enum Next {
    /// Nothing new.
    Same,
    /// A place of a step.
    At { step: u32, place: Place },
    /// That the steps stand nowhere.
    Dead,
    Unknown,
}

/// The deeper one of two branches.
fn deeper_of(nodes: &[Node], one: u32, other: u32) -> Deeper
    ensures { (task : Task) (lent : Context) (values : List ℕ) (own : List Case)
        → LeadsTo task lent nodes.now values one own → LeadsTo task lent nodes.now values other own
        → IsDeeper task lent nodes.now values own result }
{
    if one == 0 {
        return Deeper::Level(other);
    }
    if other == 0 {
        return Deeper::Level(one);
    }
    let down = leads_to(nodes, one, other);
    if down == Some(true) {
        return Deeper::Level(other);
    }
    let up = leads_to(nodes, other, one);
    if up == Some(true) {
        return Deeper::Level(one);
    }
    if down == Some(false) && up == Some(false) {
        Deeper::Apart
    } else {
        Deeper::Unknown
    }
}

/// A place with a deeper branch, and with as many steps before it.
fn lowered(nodes: &[Node], step: u32, old: Place, rank: u32, level: u32) -> Next
    ensures { (task : Task) (lent : Context) (values : List ℕ) (fires : List Fire) (indices : List ℕ)
        → PlaceHolds task lent nodes.now values fires indices step old
        → PlaceHolds task lent nodes.now values fires indices step (record { rank = rank; level = level })
        → ((index : ℕ) × (fire : Fire) × (slice_get indices step ≡ Some index)
        × (slice_get fires index ≡ Some fire))
        → NextHolds task lent nodes.now values fires indices result }
{
    match deeper_of(nodes, old.level, level) {
        Deeper::Level(level) => {
            let rank = old.rank.max(rank);
            if rank == old.rank && level == old.level {
                Next::Same
            } else {
                Next::At {
                    step,
                    place: Place { rank, level },
                }
            }
        }
        Deeper::Apart => Next::Dead,
        Deeper::Unknown => Next::Unknown,
    }
}

/// What follows where a step comes before another one.
fn after_before(nodes: &[Node], places: &[Place], lower: u32, upper: u32) -> Next
    ensures { (task : Task) (lent : Context) (values : List ℕ) (fires : List Fire) (indices : List ℕ)
        → Follows task lent nodes.now values fires indices places.now
        (tie_value.Before lower upper) result }
{
    let (Some(low), Some(high)) = (
        item_at(places, lower as usize),
        item_at(places, upper as usize),
    ) else {
        return Next::Unknown;
    };
    match low.rank.checked_add(1) {
        Some(rank) if (rank as usize) < places.len() => {
            lowered(nodes, upper, high, rank, low.level)
        }
        Some(_) => Next::Dead,
        None => Next::Unknown,
    }
}

/// What follows where a step stands in a branch or in one to which that leads.
fn after_under(nodes: &[Node], places: &[Place], step: u32, node: u32) -> Next
    ensures { (task : Task) (lent : Context) (values : List ℕ) (fires : List Fire) (indices : List ℕ)
        → Follows task lent nodes.now values fires indices places.now
        (tie_value.Under step node) result }
{
    match item_at(places, step as usize) {
        Some(old) => lowered(nodes, step, old, old.rank, node),
        None => Next::Unknown,
    }
}

/// What follows where a step is seen from a branch.
fn after_over(nodes: &[Node], places: &[Place], step: u32, node: u32) -> Next
    ensures { (task : Task) (lent : Context) (values : List ℕ) (fires : List Fire) (indices : List ℕ)
        → Follows task lent nodes.now values fires indices places.now
        (tie_value.Over step node) result }
{
    match item_at(places, step as usize) {
        Some(place) if place.level != 0 && leads_to(nodes, place.level, node) == Some(false) => {
            Next::Dead
        }
        _ => Next::Same,
    }
}

/// What follows of one more tie.
pub(crate) fn after_tie(nodes: &[Node], places: &[Place], tie: PlanTie) -> Next
    ensures { (task : Task) (lent : Context) (values : List ℕ) (fires : List Fire) (indices : List ℕ)
        → Follows task lent nodes.now values fires indices places.now tie result }
{
    match tie {
        PlanTie::Before { lower, upper } => after_before(nodes, places, lower, upper),
        PlanTie::Under { step, node } => after_under(nodes, places, step, node),
        PlanTie::Over { step, node } => after_over(nodes, places, step, node),
    }
}
