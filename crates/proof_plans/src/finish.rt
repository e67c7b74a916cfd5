//! A plan of which nothing is open: each step comes behind those whose new elements it has.

ghost use Rattle.std.specs.Prelude.{ℕ, ◌≡◌, ◌⊎◌, IfSome};
ghost use Rattle.std.specs.Bool.{OnTrue, OnFalse};
ghost use Rattle.vernacular_tree.specs.Contexts.{Task};
ghost use Rattle.vernacular_tree.specs.declared.context.Context.{Context};
ghost use Rattle.proof_plans.specs.declared.draft.PlanTie.TheVariants as tie;
ghost use Rattle.proof_plans.specs.Drafts.{with_tie};
ghost use Rattle.proof_plans.specs.Hopes.{Hope};
ghost use Rattle.proof_plans.specs.Scenes.{IsScene, Extends};
ghost use Rattle.proof_plans.specs.Creators.{IsSpan, TiesArgument, GetsTies};

use crate::draft::{Draft, PlanStep, PlanTie};
use crate::item::{item_at, place_at};
use crate::joining::root;
use crate::place::Place;
use crate::scene::Scene;
use crate::settle::is_impossible;

/// The variables of a step: the first one, the first new element, and the end of them.
#[derive(Clone, Copy, Debug)]
pub struct Span {
    pub first: u32,
    pub new: u32,
    pub end: u32,
}

/// The variables of a step.
fn span_of(scene: &Scene<'_>, step: PlanStep) -> Option<Span>
    ensures { IfSome result (IsSpan scene.now.forms.now step) }
{
    let form = place_at(scene.forms, step.form as usize)?;
    let new = step.base.checked_add(form.universals)?;
    Some(Span {
        first: step.base,
        new,
        end: new.checked_add(form.existentials)?,
    })
}

/// Whether it is known that a step comes before another one.
fn has_before(ties: &[PlanTie], low: u32, high: u32) -> bool {
    for number in 0..ties.len() {
        if let Some(PlanTie::Before { lower, upper }) = item_at(ties, number) {
            if lower == low && upper == high {
                return true;
            }
        }
    }
    false
}

/// A step comes before another one.
fn add_before(draft: &mut Draft, lower: usize, upper: usize) -> bool
    ensures { OnTrue result ((draft.new ≡ draft.old)
        ⊎ (draft.new ≡ with_tie (tie.Before lower upper) draft.old)) }
{
    if lower > u32::MAX as usize || upper > u32::MAX as usize {
        return false;
    }
    let (lower, upper) = (lower as u32, upper as u32);
    has_before(draft.ties(), lower, upper) || draft.push_tie(PlanTie::Before { lower, upper })
}

/// A step comes before the one with this argument, where the argument is a new element of it.
fn tie_creator(scene: &Scene<'_>, draft: &mut Draft, low: usize, user: usize, argument: u32) -> bool
    ensures { OnTrue result (TiesArgument scene.now draft.old user argument draft.new) }
{
    let Some(step) = item_at(draft.steps(), low) else {
        return false;
    };
    let Some(span) = span_of(scene, step) else {
        return false;
    };
    if argument < span.new || span.end <= argument {
        return true;
    }
    add_before(draft, low, user)
}

/// The step that has an argument as a new element comes before the one with the argument.
fn tie_argument(scene: &Scene<'_>, draft: &mut Draft, user: usize, argument: u32) -> bool
    ensures { OnTrue result (TiesArgument scene.now draft.old user argument draft.new) }
{
    for low in 0..draft.steps().len() {
        if !tie_creator(scene, draft, low, user, argument) {
            return false;
        }
    }
    true
}

/// The steps whose new elements are arguments of a step come before it.
fn tie_arguments(scene: &Scene<'_>, draft: &mut Draft, user: usize) -> bool
    ensures { OnTrue result (GetsTies scene.now draft.old draft.new) }
{
    let Some(step) = item_at(draft.steps(), user) else {
        return false;
    };
    let Some(span) = span_of(scene, step) else {
        return false;
    };
    for variable in span.first..span.new {
        let Some(argument) = root(draft.start(), draft.bound(), variable) else {
            return false;
        };
        if !tie_argument(scene, draft, user, argument) {
            return false;
        }
    }
    true
}

/// Each step comes behind those whose new elements are its arguments; `false` where there is no
/// room, or a number is out of range.
fn add_creators(scene: &Scene<'_>, draft: &mut Draft) -> bool
    ensures more { OnTrue result (Extends draft.old draft.new) }
    ensures hope { OnTrue result ((task : Task) (lent : Context) (n : ℕ)
        → IsScene task lent scene.now → Hope task lent n draft.old → Hope task lent n draft.new) }
{
    for user in 0..draft.steps().len() {
        if !tie_arguments(scene, draft, user) {
            return false;
        }
    }
    true
}

/// Whether a plan of which nothing is open may be a part of a proof, as its arguments have it.
pub(crate) fn may_stand(scene: &Scene<'_>, draft: &mut Draft, places: &mut Vec<Place>) -> bool
    ensures draft { OnFalse result (draft.new ≡ draft.old) }
    ensures hopeless { OnFalse result ((task : Task) (lent : Context) (n : ℕ)
        → IsScene task lent scene.now → Hope task lent n draft.old → ⊥) }
{
    let mark = draft.mark();
    if !add_creators(scene, draft) || !is_impossible(draft, places) {
        return true;
    }
    draft.back(mark);
    false
}
