//! Steps that make nothing new: a proof is as good without them.

ghost use Rattle.std.specs.Prelude.{ℕ, List, [], ◌∷◌, ◌≡◌, Some, slice_get, IfSome};
ghost use Rattle.std.specs.Bool.{OnTrue};
ghost use Rattle.std.specs.List.{AllByRecursion};
ghost use Rattle.logic_core.specs.declared.form.Atom.{Atom as AtomValue};
ghost use Rattle.vernacular_tree.specs.declared.context.Line.TheVariants as line_value;
ghost use Rattle.vernacular_tree.specs.Contexts.{Task};
ghost use Rattle.vernacular_tree.specs.declared.context.Context.{Context};
ghost use Rattle.proof_plans.specs.Hopes.{Hope};
ghost use Rattle.proof_plans.specs.Scenes.{IsScene};
ghost use Rattle.proof_plans.specs.Repeats.{AreOne, AreSame, HasSame, IsGiven, IsInCases, IsOfStep, StandsBefore};

use crate::draft::{Draft, PlanTie};
use crate::item::{item_at, place_at};
use crate::joining::root;
use crate::scene::{Read, Scene, base_of, list_at, variable_of};
use crate::word::lifted;
use logic_core::{Atom, Form, List as Atoms, Slot};
use vernacular_tree::Line;

/// How many steps are followed back from one.
const MOST_FOLLOWED: u32 = 4;

/// Whether two slots are known to stand for one element.
fn are_one(draft: &Draft, base: u32, slot: Slot, other_base: u32, other: Slot) -> bool
    ensures { OnTrue result (AreOne draft.now base slot other_base other) }
{
    let (Some(left), Some(right)) = (variable_of(base, slot), variable_of(other_base, other)) else {
        return false;
    };
    let (Some(one), Some(two)) = (
        root(draft.start(), draft.bound(), left),
        root(draft.start(), draft.bound(), right),
    ) else {
        return false;
    };
    one == two
}

/// Whether two atoms are known to stand for one fact.
fn are_same(draft: &Draft, read: &Read<'_>, other: &Atom, other_base: u32) -> bool
    ensures { OnTrue result (AreSame draft.now read.now.base read.now.atom.now other_base other.now) }
{
    let slots = read.atom.args.as_slice();
    let others = other.args.as_slice();
    if read.atom.symbol != other.symbol
        || read.atom.positive != other.positive
        || slots.len() != others.len()
    {
        return false;
    }
    for at in 0..slots.len() {
        let (Some(slot), Some(other)) = (item_at(slots, at), item_at(others, at)) else {
            return false;
        };
        if !are_one(draft, read.base, slot, other_base, other) {
            return false;
        }
    }
    true
}

/// Whether an atom is known to stand for one of these facts.
fn has_same(draft: &Draft, read: &Read<'_>, facts: &[Atom], base: u32) -> bool
    ensures { OnTrue result (HasSame draft.now read.now.base read.now.atom.now base facts.now) }
{
    for number in 0..facts.len() {
        if let Some(fact) = place_at(facts, number)
            && are_same(draft, read, fact, base)
        {
            return true;
        }
    }
    false
}

/// Whether a line of facts has a fact.
fn is_in_line(draft: &Draft, read: &Read<'_>, line: &Line) -> bool
    ensures { OnTrue result ((facts : List AtomValue) × (line.now ≡ line_value.Facts facts)
        × HasSame draft.now read.now.base read.now.atom.now 0 facts) }
{
    match line {
        Line::Facts(facts) => has_same(draft, read, facts.as_slice(), 0),
        _ => false,
    }
}

/// Whether a fact is one of the context.
pub(crate) fn is_given(scene: &Scene<'_>, draft: &Draft, read: &Read<'_>) -> bool
    ensures { OnTrue result (IsGiven scene.now draft.now read.now.base read.now.atom.now) }
{
    for number in 0..scene.lines.len() {
        if let Some(line) = place_at(scene.lines, number)
            && is_in_line(draft, read, line)
        {
            return true;
        }
    }
    false
}

/// Whether the case with which a branch begins has a fact.
pub(crate) fn is_in_case(scene: &Scene<'_>, draft: &Draft, read: &Read<'_>, node: u32) -> bool
    ensures { OnTrue result (IsInCases scene.now draft.now read.now.base read.now.atom.now node) }
{
    if node == 0 {
        return false;
    }
    let Some(kept) = item_at(draft.nodes(), node as usize) else {
        return false;
    };
    let Some(facts) = list_at(scene, kept.of) else {
        return false;
    };
    has_same(draft, read, facts.as_slice(), base_of(kept.of))
}

/// Whether a case of a branch has a fact.
fn is_in_cases(scene: &Scene<'_>, draft: &Draft, read: &Read<'_>, node: u32) -> bool
    ensures { OnTrue result (IsInCases scene.now draft.now read.now.base read.now.atom.now node) }
{
    for count in 0..draft.nodes().len() {
        let Some(upper) = lifted(draft.nodes(), node, count) else {
            return false;
        };
        if is_in_case(scene, draft, read, upper) {
            return true;
        }
    }
    false
}

/// The list of a form that gives one list.
pub(crate) fn only_list(form: &Form) -> Option<&Atoms<Atom>>
    ensures { IfSome result (λ facts. form.now.disjuncts ≡ facts.now ∷ []) }
{
    if form.disjuncts.as_slice().len() != 1 {
        return None;
    }
    place_at(form.disjuncts.as_slice(), 0)
}

/// Whether a fact is one of a step.
pub(crate) fn is_of_step(scene: &Scene<'_>, draft: &Draft, read: &Read<'_>, step: usize) -> bool
    ensures { OnTrue result (IsOfStep scene.now draft.now read.now.base read.now.atom.now step) }
{
    let Some(kept) = item_at(draft.steps(), step) else {
        return false;
    };
    let Some(form) = place_at(scene.forms, kept.form as usize) else {
        return false;
    };
    let Some(facts) = only_list(form) else {
        return false;
    };
    has_same(draft, read, facts.as_slice(), kept.base)
}

/// Whether a tie has it that a fact stands before a step.
#[cycle(stands_before)]
fn stands_by(
    scene: &Scene<'_>,
    draft: &Draft,
    read: &Read<'_>,
    step: usize,
    tie: usize,
    fuel: u32,
) -> bool
    ensures { OnTrue result (StandsBefore scene.now draft.now step read.now.base read.now.atom.now) }
{
    match item_at(draft.ties(), tie) {
        Some(PlanTie::Under { step: user, node }) => {
            user as usize == step && is_in_cases(scene, draft, read, node)
        }
        Some(PlanTie::Before { lower, upper }) => {
            if upper as usize != step {
                return false;
            }
            is_of_step(scene, draft, read, lower as usize)
                || stands_before(scene, draft, read, lower as usize, fuel)
        }
        _ => false,
    }
}

/// Whether the ties of a plan have it that a fact stands before a step, where so many steps are
/// followed back.
#[cycle(stands_before)]
fn stands_before(scene: &Scene<'_>, draft: &Draft, read: &Read<'_>, step: usize, fuel: u32) -> bool
    ensures { OnTrue result (StandsBefore scene.now draft.now step read.now.base read.now.atom.now) }
{
    if fuel == 0 {
        return false;
    }
    for tie in 0..draft.ties().len() {
        if stands_by(scene, draft, read, step, tie, fuel - 1) {
            return true;
        }
    }
    false
}

/// Whether a fact is known to stand before a step.
fn stands(scene: &Scene<'_>, draft: &Draft, read: &Read<'_>, step: usize) -> bool
    ensures { OnTrue result (StandsBefore scene.now draft.now step read.now.base read.now.atom.now) }
{
    is_given(scene, draft, read) || stands_before(scene, draft, read, step, MOST_FOLLOWED)
}

/// Whether each of these facts stands before a step.
fn all_stand(scene: &Scene<'_>, draft: &Draft, facts: &[Atom], base: u32, step: usize) -> bool
    ensures { OnTrue result (AllByRecursion (StandsBefore scene.now draft.now step base) facts.now) }
{
    for number in 0..facts.len() {
        let Some(atom) = place_at(facts, number) else {
            return false;
        };
        if !stands(scene, draft, &Read { atom, base }, step) {
            return false;
        }
    }
    true
}

/// Whether a step makes nothing new.
fn is_barren(scene: &Scene<'_>, draft: &Draft, step: usize) -> bool
    ensures { OnTrue result ((task : Task) (lent : Context) (n : ℕ) → IsScene task lent scene.now
        → Hope task lent n draft.now → ⊥) }
{
    let Some(kept) = item_at(draft.steps(), step) else {
        return false;
    };
    let Some(form) = place_at(scene.forms, kept.form as usize) else {
        return false;
    };
    if form.existentials != 0 {
        return false;
    }
    let Some(facts) = only_list(form) else {
        return false;
    };
    all_stand(scene, draft, facts.as_slice(), kept.base, step)
}

/// Whether a plan has a step that makes nothing new.
pub(crate) fn has_barren(scene: &Scene<'_>, draft: &Draft) -> bool
    ensures { OnTrue result ((task : Task) (lent : Context) (n : ℕ) → IsScene task lent scene.now
        → Hope task lent n draft.now → ⊥) }
{
    for step in 0..draft.steps().len() {
        if is_barren(scene, draft, step) {
            return true;
        }
    }
    false
}
