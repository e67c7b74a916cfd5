//! The search for a plan that no proof within a bound rules out.

ghost use Rattle.std.specs.Prelude.{◌≡◌, true};
ghost use Rattle.std.specs.Bool.{OnFalse};
ghost use Rattle.vernacular_tree.specs.Contexts.{Task};
ghost use Rattle.vernacular_tree.specs.declared.context.Context.{Context};
ghost use Rattle.proof_plans.specs.Drafts as drafts;
ghost use Rattle.proof_plans.specs.Hopes.{with_open, IsHopeless};
ghost use Rattle.proof_plans.specs.Landmarks.{AreLandmarks};
ghost use Rattle.proof_plans.specs.Scenes.{IsScene};

use crate::barren::has_barren;
use crate::choice::Choice;
use crate::draft::{Draft, Pair, PlanGoal};
use crate::finish::may_stand;
use crate::item::{count, item_at};
use crate::joining::{Joined, join};
use crate::landmarks::least_cost;
use crate::open::{Open, gather, take};
use crate::pick::{is_standing, next_goal};
use crate::place::Place;
use crate::reach::is_out_of_reach;
use crate::scene::Scene;
use crate::settle::is_impossible;
use crate::sign_table::SignTable;
use crate::useless::has_useless;

/// What a search keeps besides the plan: the ways that are left, room to work out where steps stand,
/// the signs that may stand in each branch, whether the bound cut something off, and how many more
/// plans it looks at.
#[derive(Drop)]
pub(crate) struct Work {
    pub(crate) choices: Vec<Choice>,
    pub(crate) places: Vec<Place>,
    pub(crate) signs: SignTable,
    pub(crate) cut: bool,
    pub(crate) fuel: u64,
}

/// Whether the plan may be a part of a proof within the bound; where it may, it stands as the search
/// left it.
#[cycle(run)]
pub(crate) fn run(
    scene: &Scene<'_>,
    landmarks: &[u32],
    draft: &mut Draft,
    work: &mut Work,
    most: usize,
    depth: u32,
) -> bool
    ensures cut { work.old.cut ≡ true → work.new.cut ≡ true }
    ensures draft { OnFalse result (draft.new ≡ draft.old) }
    ensures choices { OnFalse result (work.new.choices.items ≡ work.old.choices.items) }
    ensures hopeless { OnFalse result ((task : Task) (lent : Context) → IsScene task lent scene.now
        → AreLandmarks task lent landmarks.now → IsHopeless task lent most work.new.cut draft.old) }
{
    if depth == 0 || work.fuel == 0 {
        return true;
    }
    work.fuel -= 1;
    let Some(cost) = least_cost(landmarks, draft) else {
        return true;
    };
    if cost > most {
        work.cut = true;
        return false;
    }
    if let Some(pair) = draft.pop_pair() {
        return take_pair(scene, landmarks, draft, work, most, depth - 1, pair);
    }
    if is_impossible(draft, &mut work.places) {
        return false;
    }
    if has_barren(scene, draft) {
        return false;
    }
    if has_useless(scene, draft) {
        return false;
    }
    work.signs.update(scene, draft);
    let at = next_goal(scene, draft, &work.signs, cost == most);
    if let Some(goal) = draft.take_goal(at) {
        return close_goal(scene, landmarks, draft, work, most, depth - 1, goal)
            || !draft.put_goal(at, goal);
    }
    if let Some(node) = draft.pop_branch() {
        return close(
            scene,
            landmarks,
            draft,
            work,
            most,
            depth - 1,
            Open::Branch(node),
        ) || !draft.push_branch(node);
    }
    may_stand(scene, draft, &mut work.places)
}

/// Whether the plan may be a part of a proof, where two variables stand for one element.
#[cycle(run)]
fn take_pair(
    scene: &Scene<'_>,
    landmarks: &[u32],
    draft: &mut Draft,
    work: &mut Work,
    most: usize,
    depth: u32,
    pair: Pair,
) -> bool
    ensures cut { work.old.cut ≡ true → work.new.cut ≡ true }
    ensures draft { OnFalse result (draft.new ≡ drafts.with_pair pair draft.old) }
    ensures choices { OnFalse result (work.new.choices.items ≡ work.old.choices.items) }
    ensures hopeless { OnFalse result ((task : Task) (lent : Context) → IsScene task lent scene.now
        → AreLandmarks task lent landmarks.now
        → IsHopeless task lent most work.new.cut (drafts.with_pair pair draft.old)) }
{
    match join(
        draft.start(),
        draft.bound(),
        draft.fixed(),
        pair.left,
        pair.right,
    ) {
        Joined::Clash => !draft.push_pair(pair),
        Joined::Same => run(scene, landmarks, draft, work, most, depth) || !draft.push_pair(pair),
        Joined::Bind { at, to } => {
            let Some(free) = item_at(draft.bound(), at) else {
                return true;
            };
            draft.bind(at, to);
            if run(scene, landmarks, draft, work, most, depth) {
                return true;
            }
            draft.bind(at, free);
            !draft.push_pair(pair)
        }
        Joined::Unknown => true,
    }
}

/// Whether the plan may be a part of a proof in which the goal stands.
#[cycle(run)]
fn close_goal(
    scene: &Scene<'_>,
    landmarks: &[u32],
    draft: &mut Draft,
    work: &mut Work,
    most: usize,
    depth: u32,
    goal: PlanGoal,
) -> bool
    ensures cut { work.old.cut ≡ true → work.new.cut ≡ true }
    ensures draft { OnFalse result (draft.new ≡ draft.old) }
    ensures choices { OnFalse result (work.new.choices.items ≡ work.old.choices.items) }
    ensures hopeless { OnFalse result ((task : Task) (lent : Context) → IsScene task lent scene.now
        → AreLandmarks task lent landmarks.now
        → IsHopeless task lent most work.new.cut (drafts.with_goal goal draft.old)) }
{
    if is_out_of_reach(scene, draft, work.signs.row(goal.node), goal) {
        return false;
    }
    if is_standing(scene, draft, goal) {
        run(scene, landmarks, draft, work, most, depth)
    } else {
        close(scene, landmarks, draft, work, most, depth, Open::Goal(goal))
    }
}

/// Whether the plan may be a part of a proof in which the goal stands, or the branch is closed.
#[cycle(run)]
fn close(
    scene: &Scene<'_>,
    landmarks: &[u32],
    draft: &mut Draft,
    work: &mut Work,
    most: usize,
    depth: u32,
    left: Open,
) -> bool
    ensures cut { work.old.cut ≡ true → work.new.cut ≡ true }
    ensures draft { OnFalse result (draft.new ≡ draft.old) }
    ensures choices { OnFalse result (work.new.choices.items ≡ work.old.choices.items) }
    ensures hopeless { OnFalse result ((task : Task) (lent : Context) → IsScene task lent scene.now
        → AreLandmarks task lent landmarks.now → IsHopeless task lent most work.new.cut (with_open left draft.old)) }
{
    let first = count(&work.choices);
    if !gather(scene, draft, &mut work.choices, left) {
        return true;
    }
    let mark = draft.mark();
    let end = count(&work.choices);
    for at in first..end {
        let Some(choice) = item_at(work.choices.as_slice(), at) else {
            return true;
        };
        if !take(scene, draft, left, choice) || run(scene, landmarks, draft, work, most, depth) {
            return true;
        }
        draft.back(mark);
    }
    work.choices.truncate(first);
    false
}
