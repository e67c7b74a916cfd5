//! Forms that every proof needs: a set of facts in which all other forms hold, and no disjunct of
//! the goal, shows it.

ghost use Rattle.std.specs.Prelude.{ℕ, List, ◌≡◌, ◌≢◌, ◌∷◌, ◌++◌, ◌≤◌, IfSome};
ghost use Rattle.std.specs.Bool.{OnTrue};
ghost use Rattle.std.specs.List.{AllByRecursion};
ghost use Rattle.vernacular_tree.specs.Contexts.{Task, counted};
ghost use Rattle.vernacular_tree.specs.Tasks.{IsTask};
ghost use Rattle.vernacular_tree.specs.Witnessed.{IsContext};
ghost use Rattle.vernacular_tree.specs.declared.context.Context.{Context};
ghost use Rattle.proof_plans.specs.Hopes.{Hope};
ghost use Rattle.proof_plans.specs.Scenes.{IsScene};
ghost use Rattle.proof_plans.specs.Landmarks.{SomeTold, LineHolds, HoldsFrom, FormHolds, FormsHold, IsRefuted, IsLandmark, AreLandmarks, IsMissing, HasMissing};

use crate::draft::{Draft, PlanStep, count_if_room, push_if_room};
use crate::fact_set::{FactSet, are_told, is_one_missing, is_one_told};
use crate::item::{item_at, place_at};
use crate::label_table::{LabelTable, MOST_FORMS};
use crate::scene::Scene;
use logic_core::Form;
use vernacular_tree::Line;

/// In how many ways one of several cases is chosen.
const MOST_WAYS: usize = 3;

/// Whether a form holds in a set, where its universal variables have these elements.
fn holds_at(set: &FactSet<'_>, form: &Form, fresh: u32, values: &mut Vec<u32>) -> bool
    ensures values { OnTrue result (values.new.items ≡ values.old.items) }
    ensures holds { OnTrue result (SomeTold set.now (values.old.items
        ++ counted fresh form.now.existentials) form.now.disjuncts) }
{
    let count = values.as_slice().len();
    if !count_if_room(values, fresh as usize, form.existentials) {
        return false;
    }
    if !is_one_told(set, values.as_slice(), form.disjuncts.as_slice()) {
        return false;
    }
    values.truncate(count);
    true
}

/// Whether a form holds in a set, where its first universal variables have these elements; `false`
/// also where that was followed too far.
fn holds_from(
    set: &FactSet<'_>,
    form: &Form,
    fresh: u32,
    values: &mut Vec<u32>,
    left: u32,
    fuel: &mut u64,
) -> bool
    ensures values { OnTrue result (values.new.items ≡ values.old.items) }
    ensures holds { OnTrue result (HoldsFrom set.now form.now fresh values.old.items) }
{
    if left == 0 || *fuel == 0 {
        return false;
    }
    *fuel -= 1;
    if is_one_missing(set, values.as_slice(), form.premises.as_slice()) {
        return true;
    }
    let count = values.as_slice().len();
    if count >= form.universals as usize {
        return holds_at(set, form, fresh, values);
    }
    for element in 0..set.elements {
        if !push_if_room(values, element) {
            return false;
        }
        if !holds_from(set, form, fresh, values, left - 1, fuel) {
            return false;
        }
        values.truncate(count);
    }
    true
}

/// Whether a form holds in a set.
fn form_holds(
    set: &FactSet<'_>,
    form: &Form,
    fresh: u32,
    values: &mut Vec<u32>,
    fuel: &mut u64,
) -> bool
    ensures { OnTrue result (FormHolds set.now fresh form.now) }
{
    let Some(end) = fresh.checked_add(form.existentials) else {
        return false;
    };
    if end > set.elements {
        return false;
    }
    let Some(left) = form.universals.checked_add(1) else {
        return false;
    };
    values.truncate(0);
    holds_from(set, form, fresh, values, left, fuel)
}

/// Whether all forms hold in a set, but for the one with this number.
fn forms_hold(
    set: &FactSet<'_>,
    forms: &[Form],
    but: usize,
    values: &mut Vec<u32>,
    fuel: &mut u64,
) -> bool
    ensures { OnTrue result (FormsHold set.now forms.now but) }
{
    for number in 0..forms.len() {
        if number == but {
            continue;
        }
        let Some(form) = place_at(forms, number) else {
            return false;
        };
        let Some(fresh) = item_at(set.fresh, number) else {
            return false;
        };
        if !form_holds(set, form, fresh, values, fuel) {
            return false;
        }
    }
    true
}

/// Whether a line holds in a set.
fn line_holds(set: &FactSet<'_>, line: &Line) -> bool
    ensures { OnTrue result (LineHolds set.now line.now) }
{
    match line {
        Line::Facts(facts) => are_told(set, &[], facts.as_slice()),
        Line::Cases(lists) => is_one_told(set, &[], lists.as_slice()),
        Line::Falsum => false,
    }
}

/// Whether all lines hold in a set.
fn lines_hold(set: &FactSet<'_>, lines: &[Line]) -> bool
    ensures { OnTrue result (AllByRecursion (LineHolds set.now) lines.now) }
{
    for number in 0..lines.len() {
        let Some(line) = place_at(lines, number) else {
            return false;
        };
        if !line_holds(set, line) {
            return false;
        }
    }
    true
}

/// Whether a set has the premises of a form for no elements.
fn is_refuted(set: &FactSet<'_>, form: &Form, values: &mut Vec<u32>, fuel: &mut u64) -> bool
    ensures { OnTrue result (IsRefuted set.now form.now) }
{
    if form.disjuncts.as_slice().len() != 0 {
        return false;
    }
    form_holds(set, form, 0, values, fuel)
}

/// Whether it is so for each of these forms.
fn are_refuted(set: &FactSet<'_>, forms: &[Form], values: &mut Vec<u32>, fuel: &mut u64) -> bool
    ensures { OnTrue result (AllByRecursion (IsRefuted set.now) forms.now) }
{
    for number in 0..forms.len() {
        let Some(form) = place_at(forms, number) else {
            return false;
        };
        if !is_refuted(set, form, values, fuel) {
            return false;
        }
    }
    true
}

/// Whether a set shows that each proof from a context with this number of elements needs the form
/// with this number.
fn is_landmark(
    scene: &Scene<'_>,
    elements: u32,
    set: &FactSet<'_>,
    form: usize,
    values: &mut Vec<u32>,
    fuel: &mut u64,
) -> bool
    ensures { OnTrue result ((constants : ℕ) (task : Task) (lent : Context) → IsTask constants task
        → IsContext task lent → IsScene task lent scene.now → lent.elements ≡ elements
        → IsLandmark task lent form) }
{
    if elements > set.elements {
        return false;
    }
    if !lines_hold(set, scene.lines) {
        return false;
    }
    if !are_refuted(set, scene.answers, values, fuel) {
        return false;
    }
    forms_hold(set, scene.forms, form, values, fuel)
}

/// Whether a number is none of these.
fn is_further(numbers: &[u32], number: u32) -> bool
    ensures { OnTrue result (AllByRecursion (λ other. other ≢ number) numbers.now) }
{
    for at in 0..numbers.len() {
        let Some(other) = item_at(numbers, at) else {
            return false;
        };
        if other == number {
            return false;
        }
    }
    true
}

/// Puts a form behind those that each proof needs, where a table shows that it is one and it is none
/// of them yet; `false` where there is no room.
fn push_landmark(
    scene: &Scene<'_>,
    elements: u32,
    table: &mut LabelTable,
    form: u32,
    landmarks: &mut Vec<u32>,
) -> bool
    ensures { OnTrue result ((constants : ℕ) (task : Task) (lent : Context) → IsTask constants task
        → IsContext task lent → IsScene task lent scene.now → lent.elements ≡ elements
        → AreLandmarks task lent landmarks.old.items → AreLandmarks task lent landmarks.new.items) }
{
    if !is_further(landmarks.as_slice(), form) || !table.tell(form) {
        return true;
    }
    let set = FactSet {
        elements: table.elements,
        starts: table.starts.as_slice(),
        fresh: table.fresh.as_slice(),
        told: table.told.as_slice(),
    };
    if !is_landmark(
        scene,
        elements,
        &set,
        form as usize,
        &mut table.values,
        &mut table.fuel,
    ) {
        return true;
    }
    push_if_room(landmarks, form)
}

/// Puts all forms that a table shows to be such behind those that each proof needs; `false` where
/// there is no room.
fn push_landmarks(
    scene: &Scene<'_>,
    elements: u32,
    table: &mut LabelTable,
    landmarks: &mut Vec<u32>,
) -> bool
    ensures { OnTrue result ((constants : ℕ) (task : Task) (lent : Context) → IsTask constants task
        → IsContext task lent → IsScene task lent scene.now → lent.elements ≡ elements
        → AreLandmarks task lent landmarks.old.items → AreLandmarks task lent landmarks.new.items) }
{
    for form in 0..MOST_FORMS {
        if !push_landmark(scene, elements, table, form, landmarks) {
            return false;
        }
    }
    true
}

/// Finds forms that each proof from a context with this number of elements needs; `false` where
/// there is no room.
pub(crate) fn find_landmarks(
    scene: &Scene<'_>,
    elements: u32,
    table: &mut LabelTable,
    landmarks: &mut Vec<u32>,
) -> bool
    ensures { OnTrue result ((constants : ℕ) (task : Task) (lent : Context) → IsTask constants task
        → IsContext task lent → IsScene task lent scene.now → lent.elements ≡ elements
        → AreLandmarks task lent landmarks.new.items) }
{
    landmarks.truncate(0);
    if !table.begin(scene, elements) {
        return true;
    }
    for way in 0..MOST_WAYS {
        table.spread(scene, way);
        if !push_landmarks(scene, elements, table, landmarks) {
            return false;
        }
    }
    true
}

/// Whether a plan has no step by the form with this number.
fn is_missing(steps: &[PlanStep], form: u32) -> bool
    ensures { OnTrue result (IsMissing steps.now form) }
{
    for number in 0..steps.len() {
        let Some(step) = item_at(steps, number) else {
            return false;
        };
        if step.form == form {
            return false;
        }
    }
    true
}

/// How many of the forms that every proof needs a plan has no step by.
fn count_missing(landmarks: &[u32], steps: &[PlanStep]) -> usize
    ensures { (task : Task) (lent : Context) → AreLandmarks task lent landmarks.now
        → HasMissing task lent steps.now result }
{
    let mut missing = 0usize;
    for number in 0..landmarks.len() {
        let Some(form) = item_at(landmarks, number) else {
            return 0;
        };
        if !is_missing(steps, form) {
            continue;
        }
        missing += 1;
    }
    missing
}

/// How many applications a proof that has a plan as a part has at least.
pub(crate) fn least_cost(landmarks: &[u32], draft: &Draft) -> Option<usize>
    ensures { IfSome result (λ cost. (task : Task) (lent : Context) (n : ℕ)
        → AreLandmarks task lent landmarks.now → Hope task lent n draft.now → cost ≤ n) }
{
    let own = draft.cost()?;
    let cost = own.checked_add(count_missing(landmarks, draft.steps()))?;
    Some(cost)
}
