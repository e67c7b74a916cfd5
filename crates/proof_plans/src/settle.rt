//! Whether the ties of a plan can hold together.

ghost use Rattle.std.specs.Prelude.{◌≡◌, ◌≢◌, ◌<◌, ℕ, List, length, true};
ghost use Rattle.std.specs.Bool.{OnTrue};
ghost use Rattle.std.specs.List.{AllByRecursion};
ghost use Rattle.vernacular_tree.specs.Contexts.{Task};
ghost use Rattle.vernacular_tree.specs.declared.context.Context.{Context};
ghost use Rattle.proof_plans.specs.Hopes.{Hope};
ghost use Rattle.proof_plans.specs.declared.draft.Node.{Node as NodeValue};
ghost use Rattle.proof_plans.specs.Plans.{Tie};
ghost use Rattle.proof_plans.specs.Runs.{Fire};
ghost use Rattle.proof_plans.specs.Embeds.{TieHolds};
ghost use Rattle.proof_plans.specs.Drafts.{Both, IsTie};
ghost use Rattle.proof_plans.specs.Places.{PlacesHold, IsSettled};

use crate::draft::{Draft, Node, PlanTie, push_if_room};
use crate::item::item_at;
use crate::place::{Next, Place, after_tie};

/// What follows of all ties, taken once.
#[derive(Clone, Copy, Debug)]
pub enum Settled {
    /// Nothing new.
    Same,
    Changed,
    /// That the steps stand nowhere.
    Dead,
}

/// Takes a tie.
fn settle_one(nodes: &[Node], tie: PlanTie, places: &mut Vec<Place>) -> Settled
    ensures { (task : Task) (lent : Context) (values : List ℕ) (fires : List Fire) (indices : List ℕ)
        (holding : Tie) → IsTie task lent nodes.now tie holding → TieHolds fires values indices holding
        → PlacesHold task lent nodes.now values fires indices places.old.items
        → IsSettled task lent nodes.now values fires indices places.new.items result }
{
    match after_tie(nodes, places, tie) {
        Next::At { step, place } => {
            if (step as usize) >= places.len() {
                return Settled::Same;
            }
            places[step as usize] = place;
            Settled::Changed
        }
        Next::Dead => Settled::Dead,
        Next::Same | Next::Unknown => Settled::Same,
    }
}

/// Takes each tie once, the newest one first: a step before another one is newer most often, so
/// that a row of steps is followed in one go.
fn settle_once(nodes: &[Node], ties: &[PlanTie], places: &mut Vec<Place>) -> Settled
    ensures { (task : Task) (lent : Context) (values : List ℕ) (fires : List Fire) (indices : List ℕ)
        (holding : List Tie) → Both (IsTie task lent nodes.now) ties.now holding
        → AllByRecursion (TieHolds fires values indices) holding
        → PlacesHold task lent nodes.now values fires indices places.old.items
        → IsSettled task lent nodes.now values fires indices places.new.items result }
{
    let mut settled = Settled::Same;
    for number in (0..ties.len()).rev() {
        if let Some(tie) = item_at(ties, number) {
            match settle_one(nodes, tie, places) {
                Settled::Same => {}
                Settled::Changed => settled = Settled::Changed,
                Settled::Dead => return Settled::Dead,
            }
        }
    }
    settled
}

/// As many places as steps, of which nothing is known.
fn unknown_places(places: &mut Vec<Place>, count: usize) -> bool
    ensures { OnTrue result ((task : Task) (lent : Context) (nodes : List NodeValue) (values : List ℕ)
        (fires : List Fire) (indices : List ℕ) → length indices ≡ count
        → PlacesHold task lent nodes values fires indices places.new.items) }
{
    places.truncate(0);
    for done in 0..count {
        if !push_if_room(places, Place { rank: 0, level: 0 }) {
            return false;
        }
    }
    true
}

/// Whether the steps of a plan stand nowhere in a proof, as its ties have it.
pub(crate) fn is_impossible(draft: &Draft, places: &mut Vec<Place>) -> bool
    ensures { OnTrue result ((task : Task) (lent : Context) (n : ℕ) → Hope task lent n draft.now → ⊥) }
{
    if !unknown_places(places, draft.steps().len()) {
        return false;
    }
    for round in 0..draft.steps().len() {
        match settle_once(draft.nodes(), draft.ties(), places) {
            Settled::Same => return false,
            Settled::Changed => {}
            Settled::Dead => return true,
        }
    }
    matches!(
        settle_once(draft.nodes(), draft.ties(), places),
        Settled::Dead
    )
}
