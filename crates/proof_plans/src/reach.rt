//! Signs of symbols that may stand in a branch: a goal with another one has no way.

ghost use Rattle.std.specs.Prelude.{ℕ, List, ◌≡◌, slice_get};
ghost use Rattle.std.specs.Bool.{OnTrue, OnFalse};
ghost use Rattle.std.specs.List.{AllByRecursion};
ghost use Rattle.vernacular_tree.specs.Contexts.{Task};
ghost use Rattle.vernacular_tree.specs.declared.context.Context.{Context};
ghost use Rattle.vernacular_tree.specs.declared.context.Line.{Line as LineValue};
ghost use Rattle.proof_plans.specs.Runs.{Case, all_facts};
ghost use Rattle.proof_plans.specs.Drafts.{Drafted, with_goal, IsBranch};
ghost use Rattle.proof_plans.specs.Hopes.{Hope};
ghost use Rattle.proof_plans.specs.Scenes.{IsScene};
ghost use Rattle.proof_plans.specs.Signs.{told_of, MayStand, MayDiffer, Differ, IsReached, PremiseReached};
ghost use Rattle.proof_plans.specs.Signs.{IsKept, LineReached, CaseReached, IsUnmet};

use crate::barren::only_list;
use crate::draft::{Draft, GoalOf, PlanGoal};
use crate::idle::is_idle;
use crate::item::{item_at, place_at};
use crate::scene::{Scene, goal_at, list_at};
use logic_core::{Atom, Form};
use vernacular_tree::Line;

/// Whether atoms of one symbol and one sign may stand: any, and one with two arguments that differ.
#[derive(Clone, Copy, Debug)]
pub struct Told {
    pub any: bool,
    pub differing: bool,
}

/// With which signs a symbol may stand.
#[derive(Clone, Copy, Debug)]
pub struct Reached {
    pub positive: Told,
    pub negative: Told,
}

/// What is told of the sign of an atom.
fn told_of(row: &[Reached], atom: &Atom) -> Option<Told>
    ensures { result ≡ told_of (slice_get row.now atom.now.symbol) atom.now.positive }
{
    match item_at(row, atom.symbol as usize) {
        Some(told) if atom.positive => Some(told.positive),
        Some(told) => Some(told.negative),
        None => None,
    }
}

/// Whether the sign of an atom is reached; that of a symbol of which nothing is told is.
pub(crate) fn is_reached(row: &[Reached], atom: &Atom) -> bool
    ensures there { OnTrue result (MayStand row.now atom.now) }
    ensures out { OnFalse result (MayStand row.now atom.now → ⊥) }
{
    match told_of(row, atom) {
        Some(told) => told.any,
        None => true,
    }
}

/// Whether an atom with the sign of this one and two arguments that differ is reached.
fn may_differ(row: &[Reached], atom: &Atom) -> bool
    ensures there { OnTrue result (MayDiffer row.now atom.now) }
    ensures out { OnFalse result (MayDiffer row.now atom.now → ⊥) }
{
    match told_of(row, atom) {
        Some(told) => told.differing,
        None => true,
    }
}

/// Whether an atom has two slots that differ.
pub(crate) fn has_two(atom: &Atom) -> bool
    ensures { OnFalse result (Differ atom.now.args → ⊥) }
{
    match atom.args.as_slice() {
        [left, right] => *left != *right,
        _ => false,
    }
}

/// Whether an atom is reached.
fn atom_reached(row: &[Reached], atom: &Atom) -> bool
    ensures { OnTrue result (IsReached row.now atom.now) }
{
    if !is_reached(row, atom) {
        return false;
    }
    if !has_two(atom) {
        return true;
    }
    may_differ(row, atom)
}

/// Whether each of these atoms is reached.
fn all_reached(row: &[Reached], atoms: &[Atom]) -> bool
    ensures { OnTrue result (AllByRecursion (IsReached row.now) atoms.now) }
{
    for number in 0..atoms.len() {
        let Some(atom) = place_at(atoms, number) else {
            return false;
        };
        if !atom_reached(row, atom) {
            return false;
        }
    }
    true
}

/// Whether a premise of a form of one list is not reached, in an application that makes something
/// new.
fn is_lacking(row: &[Reached], form: &Form, facts: &[Atom], premise: &Atom) -> bool
    ensures { OnTrue result (PremiseReached row.now form.now facts.now premise.now → ⊥) }
{
    if !is_reached(row, premise) {
        return true;
    }
    if may_differ(row, premise) {
        return false;
    }
    is_idle(form, facts, premise)
}

/// Whether some premise of a form of one list is not reached.
pub(crate) fn lacks_premise(row: &[Reached], form: &Form, facts: &[Atom]) -> bool
    ensures { OnTrue result
        (AllByRecursion (PremiseReached row.now form.now facts.now) form.now.premises → ⊥) }
{
    let premises = form.premises.as_slice();
    for number in 0..premises.len() {
        if let Some(premise) = place_at(premises, number)
            && is_lacking(row, form, facts, premise)
        {
            return true;
        }
    }
    false
}

/// Whether a form leads to no further sign.
fn is_kept(row: &[Reached], form: &Form) -> bool
    ensures { OnTrue result (IsKept row.now form.now) }
{
    if form.disjuncts.as_slice().len() != 1 {
        return true;
    }
    let Some(facts) = only_list(form) else {
        return false;
    };
    if lacks_premise(row, form, facts.as_slice()) {
        return true;
    }
    all_reached(row, facts.as_slice())
}

/// Whether no form leads to a further sign.
fn all_kept(row: &[Reached], forms: &[Form]) -> bool
    ensures { OnTrue result (AllByRecursion (IsKept row.now) forms.now) }
{
    for number in 0..forms.len() {
        let Some(form) = place_at(forms, number) else {
            return false;
        };
        if !is_kept(row, form) {
            return false;
        }
    }
    true
}

/// Whether the facts of a line are reached.
fn line_reached(row: &[Reached], line: &Line) -> bool
    ensures { OnTrue result (LineReached row.now line.now) }
{
    match line {
        Line::Facts(facts) => all_reached(row, facts.as_slice()),
        _ => true,
    }
}

/// Whether the facts of the context are reached.
fn lines_reached(row: &[Reached], lines: &[Line]) -> bool
    ensures { OnTrue result (AllByRecursion (LineReached row.now) lines.now) }
{
    for number in 0..lines.len() {
        let Some(line) = place_at(lines, number) else {
            return false;
        };
        if !line_reached(row, line) {
            return false;
        }
    }
    true
}

/// Whether the facts of the cases of a branch are reached, where those of the context are; `false`
/// where the branch was followed too far.
fn cases_reached(scene: &Scene<'_>, draft: &Draft, row: &[Reached], node: u32, fuel: usize) -> bool
    ensures { OnTrue result ((task : Task) (lent : Context) (branch : List Case)
        → IsScene task lent scene.now → AllByRecursion (LineReached row.now) lent.lines
        → IsBranch task lent draft.now.nodes node branch
        → AllByRecursion (CaseReached row.now) branch) }
{
    if node == 0 {
        return true;
    }
    if fuel == 0 {
        return false;
    }
    let Some(kept) = item_at(draft.nodes(), node as usize) else {
        return false;
    };
    let Some(facts) = list_at(scene, kept.of) else {
        return false;
    };
    if !all_reached(row, facts.as_slice()) {
        return false;
    }
    cases_reached(scene, draft, row, kept.parent, fuel - 1)
}

/// Whether a goal has a sign that is not reached.
fn lacks_sign(scene: &Scene<'_>, row: &[Reached], goal: PlanGoal) -> bool
    ensures { OnTrue result ((d : Drafted) → IsUnmet row.now scene.now d goal) }
{
    let Some(read) = goal_at(scene, goal) else {
        return false;
    };
    if is_reached(row, read.atom) {
        return false;
    }
    true
}

/// Whether a goal is a premise without which its step makes nothing new unless its two arguments
/// differ, and no such atom is reached.
fn lacks_difference(scene: &Scene<'_>, draft: &Draft, row: &[Reached], goal: PlanGoal) -> bool
    ensures { OnTrue result (IsUnmet row.now scene.now draft.now goal) }
{
    let (GoalOf::Premises { form, base }, Some(user)) = (goal.of, goal.user) else {
        return false;
    };
    let Some(step) = item_at(draft.steps(), user as usize) else {
        return false;
    };
    if step.form != form || step.base != base {
        return false;
    }
    let Some(form) = place_at(scene.forms, form as usize) else {
        return false;
    };
    let Some(premise) = place_at(form.premises.as_slice(), goal.number as usize) else {
        return false;
    };
    if may_differ(row, premise) {
        return false;
    }
    let Some(facts) = only_list(form) else {
        return false;
    };
    is_idle(form, facts.as_slice(), premise)
}

/// Whether a goal is none of the atoms that are reached.
pub(crate) fn is_unmet(scene: &Scene<'_>, draft: &Draft, row: &[Reached], goal: PlanGoal) -> bool
    ensures { OnTrue result (IsUnmet row.now scene.now draft.now goal) }
{
    if lacks_sign(scene, row, goal) {
        return true;
    }
    lacks_difference(scene, draft, row, goal)
}

/// Whether a goal has a sign that stands nowhere in its branch, as these signs have it.
pub(crate) fn is_out_of_reach(
    scene: &Scene<'_>,
    draft: &Draft,
    row: &[Reached],
    goal: PlanGoal,
) -> bool
    ensures { OnTrue result ((task : Task) (lent : Context) (n : ℕ) → IsScene task lent scene.now
        → Hope task lent n (with_goal goal draft.now) → ⊥) }
{
    if !is_unmet(scene, draft, row, goal) {
        return false;
    }
    if !lines_reached(row, scene.lines) {
        return false;
    }
    if !all_kept(row, scene.forms) {
        return false;
    }
    cases_reached(scene, draft, row, goal.node, draft.nodes().len())
}
