//! Branches whose case says nothing new: a proof is as good without the split.

ghost use Rattle.std.specs.Prelude.{ℕ};
ghost use Rattle.std.specs.Bool.{OnTrue};
ghost use Rattle.std.specs.List.{AllByRecursion};
ghost use Rattle.vernacular_tree.specs.Contexts.{Task};
ghost use Rattle.vernacular_tree.specs.declared.context.Context.{Context};
ghost use Rattle.proof_plans.specs.Hopes.{Hope};
ghost use Rattle.proof_plans.specs.Scenes.{IsScene};
ghost use Rattle.proof_plans.specs.Repeats.{StandsAt};

use crate::barren::{is_given, is_in_case, is_of_step};
use crate::draft::{Draft, PlanTie};
use crate::item::{item_at, place_at};
use crate::scene::{Read, Scene, base_of, list_at};
use crate::word::lifted;
use logic_core::Atom;

/// Whether a tie has it that a step with a fact is seen from a branch.
fn is_seen(scene: &Scene<'_>, draft: &Draft, read: &Read<'_>, node: u32, tie: usize) -> bool
    ensures { OnTrue result (StandsAt scene.now draft.now node read.now.base read.now.atom.now) }
{
    match item_at(draft.ties(), tie) {
        Some(PlanTie::Over { step, node: below }) => {
            below == node && is_of_step(scene, draft, read, step as usize)
        }
        _ => false,
    }
}

/// Whether a fact is one of the case with which a branch begins, or of a step that it sees.
fn stands_here(scene: &Scene<'_>, draft: &Draft, read: &Read<'_>, node: u32) -> bool
    ensures { OnTrue result (StandsAt scene.now draft.now node read.now.base read.now.atom.now) }
{
    if is_in_case(scene, draft, read, node) {
        return true;
    }
    for tie in 0..draft.ties().len() {
        if is_seen(scene, draft, read, node, tie) {
            return true;
        }
    }
    false
}

/// Whether a fact is known to stand in a branch.
fn stands_at(scene: &Scene<'_>, draft: &Draft, read: &Read<'_>, node: u32) -> bool
    ensures { OnTrue result (StandsAt scene.now draft.now node read.now.base read.now.atom.now) }
{
    if is_given(scene, draft, read) {
        return true;
    }
    for count in 0..draft.nodes().len() {
        let Some(upper) = lifted(draft.nodes(), node, count) else {
            return false;
        };
        if stands_here(scene, draft, read, upper) {
            return true;
        }
    }
    false
}

/// Whether each of these facts stands in a branch.
fn all_stand(scene: &Scene<'_>, draft: &Draft, facts: &[Atom], base: u32, node: u32) -> bool
    ensures { OnTrue result (AllByRecursion (StandsAt scene.now draft.now node base) facts.now) }
{
    for number in 0..facts.len() {
        let Some(atom) = place_at(facts, number) else {
            return false;
        };
        if !stands_at(scene, draft, &Read { atom, base }, node) {
            return false;
        }
    }
    true
}

/// Whether the case of an open branch says nothing new.
fn is_useless(scene: &Scene<'_>, draft: &Draft, number: usize) -> bool
    ensures { OnTrue result ((task : Task) (lent : Context) (n : ℕ) → IsScene task lent scene.now
        → Hope task lent n draft.now → ⊥) }
{
    let Some(node) = item_at(draft.branches(), number) else {
        return false;
    };
    if node == 0 {
        return false;
    }
    let Some(kept) = item_at(draft.nodes(), node as usize) else {
        return false;
    };
    let Some(facts) = list_at(scene, kept.of) else {
        return false;
    };
    all_stand(
        scene,
        draft,
        facts.as_slice(),
        base_of(kept.of),
        kept.parent,
    )
}

/// Whether a plan has an open branch whose case says nothing new.
pub(crate) fn has_useless(scene: &Scene<'_>, draft: &Draft) -> bool
    ensures { OnTrue result ((task : Task) (lent : Context) (n : ℕ) → IsScene task lent scene.now
        → Hope task lent n draft.now → ⊥) }
{
    for number in 0..draft.branches().len() {
        if is_useless(scene, draft, number) {
            return true;
        }
    }
    false
}
