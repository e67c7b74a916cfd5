//! The ways in which a goal may stand, or in which a branch may be closed.

ghost use Rattle.std.specs.Prelude.{ℕ, List, ◌≡◌, ◌≢◌, ◌<◌};
ghost use Rattle.std.specs.Bool.{OnTrue};
ghost use Rattle.proof_plans.specs.declared.choice.Choice.{Choice as ChoiceValue};
ghost use Rattle.proof_plans.specs.declared.choice.Choice.TheVariants as choice;
ghost use Rattle.proof_plans.specs.Choices.{Begins, numbered, Numbered, HasAll};
ghost use Rattle.proof_plans.specs.Drafts.{with_goal, with_branch};
ghost use Rattle.proof_plans.specs.Hopes.{Hope, GoalBy, BranchBy};
ghost use Rattle.proof_plans.specs.Scenes.{IsScene};
ghost use Rattle.proof_plans.specs.Ways.{IsByFact, IsByFacts, IsByLine, IsByGiven, IsByList};
ghost use Rattle.proof_plans.specs.Ways.{IsByCase, IsByOne, IsByOld, IsByNew};
ghost use Rattle.proof_plans.specs.Ways.{IsSplitting, IsSplitByLine, IsSplitByNew, IsSplitByOld};
ghost use Rattle.logic_core.specs.declared.form.Atom.{Atom as AtomValue};
ghost use Rattle.vernacular_tree.specs.declared.context.Line.TheVariants as line_value;
ghost use Rattle.vernacular_tree.specs.Contexts.{Task};
ghost use Rattle.vernacular_tree.specs.Tasks.{IsTask};
ghost use Rattle.vernacular_tree.specs.Witnessed.{IsContext};
ghost use Rattle.vernacular_tree.specs.declared.context.Context.{Context};

use crate::choice::Choice;
use crate::draft::{Draft, ListOf, PlanGoal, PlanStep, push_if_room};
use crate::item::{item_at, place_at};
use crate::scene::{Scene, goal_at, list_at};
use logic_core::{Atom, Form};
use vernacular_tree::Line;

/// A way of this kind, by the fact with this number.
fn with_number(choice: Choice, number: u32) -> Choice
    ensures { result ≡ numbered choice number }
{
    match choice {
        Choice::Given { line, .. } => Choice::Given { line, number },
        Choice::Case { node, .. } => Choice::Case { node, number },
        Choice::Step { step, .. } => Choice::Step { step, number },
        Choice::Form { form, .. } => Choice::Form { form, number },
        other => other,
    }
}

/// A way of this kind, if the fact with this number has the sign and the symbol of an atom; `false`
/// where there is no room.
fn push_fact(
    choices: &mut Vec<Choice>,
    atom: &Atom,
    fact: &Atom,
    kind: Choice,
    number: usize,
) -> bool
    ensures { OnTrue result (HasAll choices.old.items choices.new.items
        (IsByFact atom.now fact.now kind number)) }
{
    if fact.positive != atom.positive || fact.symbol != atom.symbol {
        return true;
    }
    number <= u32::MAX as usize && push_if_room(choices, with_number(kind, number as u32))
}

/// A way of this kind for each of the facts that has the sign and the symbol of an atom.
fn push_facts(choices: &mut Vec<Choice>, atom: &Atom, facts: &[Atom], kind: Choice) -> bool
    ensures { OnTrue result (HasAll choices.old.items choices.new.items
        (IsByFacts atom.now facts.now kind)) }
{
    for number in 0..facts.len() {
        if !push_fact(choices, atom, &facts[number], kind, number) {
            return false;
        }
    }
    true
}

/// By the facts of a line.
fn push_line_facts(choices: &mut Vec<Choice>, atom: &Atom, given: &Line, line: usize) -> bool
    ensures { OnTrue result (HasAll choices.old.items choices.new.items
        (IsByLine atom.now given.now line)) }
{
    let Line::Facts(facts) = given else {
        return true;
    };
    if line > u32::MAX as usize {
        return false;
    }
    let kind = Choice::Given {
        line: line as u32,
        number: 0,
    };
    push_facts(choices, atom, facts.as_slice(), kind)
}

/// By the facts of the lines of the context.
fn push_given(choices: &mut Vec<Choice>, atom: &Atom, lines: &[Line]) -> bool
    ensures { OnTrue result (HasAll choices.old.items choices.new.items
        (Numbered (IsByGiven atom.now lines.now))) }
{
    for line in 0..lines.len() {
        if !push_line_facts(choices, atom, &lines[line], line) {
            return false;
        }
    }
    true
}

/// By the facts of a list.
fn push_list(
    scene: &Scene<'_>,
    choices: &mut Vec<Choice>,
    atom: &Atom,
    of: ListOf,
    kind: Choice,
) -> bool
    ensures more { OnTrue result (Begins choices.old.items choices.new.items) }
    ensures all { OnTrue result ((task : Task) (lent : Context) → IsScene task lent scene.now
        → HasAll choices.old.items choices.new.items (IsByList task lent atom.now of kind)) }
{
    let Some(facts) = list_at(scene, of) else {
        return false;
    };
    push_facts(choices, atom, facts.as_slice(), kind)
}

/// By the facts of the cases of a branch.
fn push_cases(
    scene: &Scene<'_>,
    draft: &Draft,
    choices: &mut Vec<Choice>,
    atom: &Atom,
    node: u32,
) -> bool
    ensures more { OnTrue result (Begins choices.old.items choices.new.items) }
    ensures all { OnTrue result ((task : Task) (lent : Context) → IsScene task lent scene.now
        → HasAll choices.old.items choices.new.items
        (Numbered (IsByCase task lent atom.now draft.now.nodes node))) }
{
    let nodes = draft.nodes();
    let mut at = node;
    for done in 0..nodes.len() {
        if at == 0 {
            return true;
        }
        let Some(kept) = item_at(nodes, at as usize) else {
            return false;
        };
        let kind = Choice::Case {
            node: at,
            number: 0,
        };
        if !push_list(scene, choices, atom, kept.of, kind) {
            return false;
        }
        at = kept.parent;
    }
    false
}

/// By the facts of a form that gives one list.
fn push_form(
    choices: &mut Vec<Choice>,
    atom: &Atom,
    forms: &[Form],
    form: u32,
    kind: Choice,
) -> bool
    ensures { OnTrue result (HasAll choices.old.items choices.new.items
        (IsByOne atom.now forms.now form kind)) }
{
    let Some(form) = place_at(forms, form as usize) else {
        return false;
    };
    match form.disjuncts.as_slice() {
        [facts] => push_facts(choices, atom, facts.as_slice(), kind),
        _ => true,
    }
}

/// By the facts of the steps.
fn push_steps(choices: &mut Vec<Choice>, atom: &Atom, forms: &[Form], steps: &[PlanStep]) -> bool
    ensures { OnTrue result (HasAll choices.old.items choices.new.items
        (Numbered (IsByOld atom.now forms.now steps.now))) }
{
    for number in 0..steps.len() {
        let Some(step) = item_at(steps, number) else {
            return false;
        };
        if number > u32::MAX as usize {
            return false;
        }
        let kind = Choice::Step {
            step: number as u32,
            number: 0,
        };
        if !push_form(choices, atom, forms, step.form, kind) {
            return false;
        }
    }
    true
}

/// By new steps.
fn push_forms(choices: &mut Vec<Choice>, atom: &Atom, forms: &[Form]) -> bool
    ensures { OnTrue result (HasAll choices.old.items choices.new.items
        (Numbered (IsByNew atom.now forms.now))) }
{
    for number in 0..forms.len() {
        if number > u32::MAX as usize {
            return false;
        }
        let kind = Choice::Form {
            form: number as u32,
            number: 0,
        };
        if !push_form(choices, atom, forms, number as u32, kind) {
            return false;
        }
    }
    true
}

/// Each way in which a goal may stand, behind those that are there; `false` where there is no room.
pub(crate) fn goal_choices(
    scene: &Scene<'_>,
    draft: &Draft,
    choices: &mut Vec<Choice>,
    goal: PlanGoal,
) -> bool
    ensures more { OnTrue result (Begins choices.old.items choices.new.items) }
    ensures all { OnTrue result ((constants : ℕ) (task : Task) (lent : Context) (n : ℕ)
        → IsTask constants task → IsContext task lent → IsScene task lent scene.now
        → HasAll choices.old.items choices.new.items (λ (way : ChoiceValue).
        (h : Hope task lent n (with_goal goal draft.now))
        × GoalBy task lent n draft.now goal h way)) }
{
    let Some(read) = goal_at(scene, goal) else {
        return false;
    };
    if !push_given(choices, read.atom, scene.lines) {
        return false;
    }
    if !push_cases(scene, draft, choices, read.atom, goal.node) {
        return false;
    }
    if !push_steps(choices, read.atom, scene.forms, draft.steps()) {
        return false;
    }
    push_forms(choices, read.atom, scene.forms)
}

/// By the disjuncts of the goal, as many as there are.
fn push_answers(choices: &mut Vec<Choice>, count: usize) -> bool
    ensures { OnTrue result (HasAll choices.old.items choices.new.items (λ (way : ChoiceValue).
        (disjunct : ℕ) × (disjunct < count) × (way ≡ choice.Answer disjunct))) }
{
    for disjunct in 0..count {
        if disjunct > u32::MAX as usize {
            return false;
        }
        let way = Choice::Answer {
            disjunct: disjunct as u32,
        };
        if !push_if_room(choices, way) {
            return false;
        }
    }
    true
}

/// By a line, if it is not one of facts.
fn push_split_line(choices: &mut Vec<Choice>, given: &Line, line: usize) -> bool
    ensures { OnTrue result (HasAll choices.old.items choices.new.items (λ (way : ChoiceValue).
        ((facts : List AtomValue) → given.now ≢ line_value.Facts facts)
        × (way ≡ choice.Line line))) }
{
    if matches!(given, Line::Facts(_)) {
        return true;
    }
    if line > u32::MAX as usize {
        return false;
    }
    push_if_room(choices, Choice::Line { line: line as u32 })
}

/// By the lines of the context that are not facts.
fn push_lines(choices: &mut Vec<Choice>, lines: &[Line]) -> bool
    ensures { OnTrue result (HasAll choices.old.items choices.new.items
        (Numbered (IsSplitByLine lines.now))) }
{
    for line in 0..lines.len() {
        if !push_split_line(choices, &lines[line], line) {
            return false;
        }
    }
    true
}

/// Appends a way, if a form does not give one list.
fn push_splitting(choices: &mut Vec<Choice>, forms: &[Form], form: u32, way: Choice) -> bool
    ensures { OnTrue result (HasAll choices.old.items choices.new.items (λ (other : ChoiceValue).
        IsSplitting forms.now form × (other ≡ way))) }
{
    let Some(form) = place_at(forms, form as usize) else {
        return false;
    };
    form.disjuncts.len() == 1 || push_if_room(choices, way)
}

/// By new steps by the forms that do not give one list.
fn push_new(choices: &mut Vec<Choice>, forms: &[Form]) -> bool
    ensures { OnTrue result (HasAll choices.old.items choices.new.items
        (Numbered (IsSplitByNew forms.now))) }
{
    for number in 0..forms.len() {
        if number > u32::MAX as usize {
            return false;
        }
        let way = Choice::New {
            form: number as u32,
        };
        if !push_splitting(choices, forms, number as u32, way) {
            return false;
        }
    }
    true
}

/// By the steps whose forms do not give one list.
fn push_old(choices: &mut Vec<Choice>, forms: &[Form], steps: &[PlanStep]) -> bool
    ensures { OnTrue result (HasAll choices.old.items choices.new.items
        (Numbered (IsSplitByOld forms.now steps.now))) }
{
    for number in 0..steps.len() {
        let Some(step) = item_at(steps, number) else {
            return false;
        };
        if number > u32::MAX as usize {
            return false;
        }
        let way = Choice::Old {
            step: number as u32,
        };
        if !push_splitting(choices, forms, step.form, way) {
            return false;
        }
    }
    true
}

/// By the disjuncts of the goal, the lines of the context, the steps and new ones.
pub(crate) fn branch_choices(scene: &Scene<'_>, draft: &Draft, choices: &mut Vec<Choice>) -> bool
    ensures more { OnTrue result (Begins choices.old.items choices.new.items) }
    ensures all { OnTrue result ((task : Task) (lent : Context) (n node : ℕ)
        → IsScene task lent scene.now
        → HasAll choices.old.items choices.new.items (λ (way : ChoiceValue).
        (h : Hope task lent n (with_branch node draft.now))
        × BranchBy task lent n draft.now node h way)) }
{
    if !push_answers(choices, scene.answers.len()) {
        return false;
    }
    if !push_lines(choices, scene.lines) {
        return false;
    }
    if !push_new(choices, scene.forms) {
        return false;
    }
    push_old(choices, scene.forms, draft.steps())
}
