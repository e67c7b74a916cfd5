//! A way is taken: the plan grows by what it asks for.

ghost use Rattle.std.specs.Prelude.{ℕ, List, ◌≡◌, ◌+◌, ◌++◌, ◌<◌, length, Some, slice_get, IfSome};
ghost use Rattle.std.specs.Bool.{OnTrue};
ghost use Rattle.text_core.specs.Lists.{IsAmong};
ghost use Rattle.logic_core.specs.declared.form.Atom.{Atom as AtomValue};
ghost use Rattle.logic_core.specs.declared.form.Form.{Form as FormValue};
ghost use Rattle.vernacular_tree.specs.Contexts.{Task};
ghost use Rattle.vernacular_tree.specs.declared.context.Context.{Context};
ghost use Rattle.proof_plans.specs.declared.draft.GoalOf.TheVariants as goal_of;
ghost use Rattle.proof_plans.specs.Runs.{given_lists};
ghost use Rattle.proof_plans.specs.Drafts.{with_goal, with_branch, goals_from, grown_draft};
ghost use Rattle.proof_plans.specs.Splits.{numbered_list, with_child, split_draft, IsAnsweredBy, IsSplitByLine, IsSplitByStep};
ghost use Rattle.proof_plans.specs.Hopes.{Hope, GoalBy, BranchBy};
ghost use Rattle.proof_plans.specs.Scenes.{IsScene, Extends};
ghost use Rattle.proof_plans.specs.Taking.{tied_under, tied_step, IsPaired, IsCased, IsStepped, IsFormed, IsTaken};

use crate::choice::Choice;
use crate::draft::{Draft, GoalOf, ListOf, Node, PlanGoal, PlanStep, PlanTie};
use crate::item::{item_at, place_at};
use crate::scene::{Scene, fact_at, goal_at, push_pairs};
use logic_core::Form;
use vernacular_tree::Line;

/// The goal stands for the same fact as the one with this number of a list.
fn by_fact(scene: &Scene<'_>, draft: &mut Draft, goal: PlanGoal, of: ListOf, number: u32) -> bool
    ensures { OnTrue result (IsPaired scene.now goal of number draft.old draft.new) }
{
    match (goal_at(scene, goal), fact_at(scene, of, number as usize)) {
        (Some(left), Some(right)) => push_pairs(
            draft,
            left.base,
            left.atom.args.as_slice(),
            right.base,
            right.atom.args.as_slice(),
        ),
        _ => false,
    }
}

/// The user of a goal, if it is a step, stands in a branch or in one to which that leads.
fn tie_under(draft: &mut Draft, goal: PlanGoal, node: u32) -> bool
    ensures { OnTrue result (draft.new ≡ tied_under goal.user node draft.old) }
{
    match goal.user {
        Some(step) => draft.push_tie(PlanTie::Under { step, node }),
        None => true,
    }
}

/// A step is seen from the branch of a goal, and comes before the goal's user, if that is a step.
fn tie_step(draft: &mut Draft, goal: PlanGoal, step: u32) -> bool
    ensures { OnTrue result (draft.new ≡ tied_step step goal draft.old) }
{
    let node = goal.node;
    draft.push_tie(PlanTie::Over { step, node })
        && match goal.user {
            Some(upper) => draft.push_tie(PlanTie::Before { lower: step, upper }),
            None => true,
        }
}

/// A new step by a form, whose premises are goals seen from a branch; its number and its first
/// variable.
fn grow(scene: &Scene<'_>, draft: &mut Draft, form: u32, node: u32) -> Option<(u32, u32)>
    ensures { IfSome result (λ made. (f : FormValue) × (slice_get scene.now.forms.now form ≡ Some f)
        × (made.0 ≡ length draft.old.steps)
        × (made.1 ≡ draft.old.start + length draft.old.bound)
        × (draft.new ≡ grown_draft form f node draft.old)) }
{
    let f = place_at(scene.forms, form as usize)?;
    let base = (draft.start() as usize).checked_add(draft.bound().len())?;
    let number = draft.steps().len();
    if base > u32::MAX as usize || number > u32::MAX as usize {
        return None;
    }
    let (base, number) = (base as u32, number as u32);
    if push_form(draft, f, form, base, number, node) {
        Some((number, base))
    } else {
        None
    }
}

/// A new step with this number by a form, whose first variable is told.
fn push_form(draft: &mut Draft, f: &Form, form: u32, base: u32, number: u32, node: u32) -> bool
    requires base { base ≡ draft.old.start + length draft.old.bound }
    requires number { number ≡ length draft.old.steps }
    ensures { OnTrue result (draft.new ≡ grown_draft form f.now node draft.old) }
{
    if !draft.push_step(PlanStep { form, base }) {
        return false;
    }
    if !draft.widen(f.universals, false) || !draft.widen(f.existentials, true) {
        return false;
    }
    push_premises(draft, f, form, base, number, node)
}

/// The premises of a step are goals, which it has, seen from a branch.
fn push_premises(draft: &mut Draft, f: &Form, form: u32, base: u32, user: u32, node: u32) -> bool
    ensures { OnTrue result (draft.new ≡ record draft.old {
      goals = draft.old.goals
          ++ goals_from (goal_of.Premises form base) (Some user) node 0 (length f.now.premises);
    }) }
{
    push_goals(
        draft,
        GoalOf::Premises { form, base },
        f.premises.len(),
        Some(user),
        node,
    )
}

/// As many goals as atoms, which one user has.
fn push_goals(draft: &mut Draft, of: GoalOf, count: usize, user: Option<u32>, node: u32) -> bool
    ensures { OnTrue result (draft.new ≡ record draft.old {
      goals = draft.old.goals ++ goals_from of user node 0 count;
    }) }
{
    for number in 0..count {
        if number > u32::MAX as usize
            || !draft.push_goal(PlanGoal {
                of,
                number: number as u32,
                user,
                node,
            })
        {
            return false;
        }
    }
    true
}

/// A goal stands by a fact of a case.
fn by_case(scene: &Scene<'_>, draft: &mut Draft, goal: PlanGoal, node: u32, number: u32) -> bool
    ensures { OnTrue result (IsCased scene.now goal node number draft.old draft.new) }
{
    let Some(kept) = item_at(draft.nodes(), node as usize) else {
        return false;
    };
    tie_under(draft, goal, node) && by_fact(scene, draft, goal, kept.of, number)
}

/// A goal stands by a fact of a step.
fn by_step(scene: &Scene<'_>, draft: &mut Draft, goal: PlanGoal, step: u32, number: u32) -> bool
    ensures { OnTrue result (IsStepped scene.now goal step number draft.old draft.new) }
{
    let Some(PlanStep { form, base }) = item_at(draft.steps(), step as usize) else {
        return false;
    };
    let of = ListOf::Disjunct {
        form,
        base,
        number: 0,
    };
    tie_step(draft, goal, step) && by_fact(scene, draft, goal, of, number)
}

/// A goal stands by a fact of a new step.
fn by_form(scene: &Scene<'_>, draft: &mut Draft, goal: PlanGoal, form: u32, number: u32) -> bool
    ensures { OnTrue result (IsFormed scene.now goal form number draft.old draft.new) }
{
    let Some((step, base)) = grow(scene, draft, form, goal.node) else {
        return false;
    };
    let of = ListOf::Disjunct {
        form,
        base,
        number: 0,
    };
    tie_step(draft, goal, step) && by_fact(scene, draft, goal, of, number)
}

/// A goal stands in this way.
fn by_choice(scene: &Scene<'_>, draft: &mut Draft, goal: PlanGoal, choice: Choice) -> bool
    ensures { OnTrue result (IsTaken scene.now goal choice draft.old draft.new) }
{
    match choice {
        Choice::Given { line, number } => {
            by_fact(scene, draft, goal, ListOf::Line { line }, number)
        }
        Choice::Case { node, number } => by_case(scene, draft, goal, node, number),
        Choice::Step { step, number } => by_step(scene, draft, goal, step, number),
        Choice::Form { form, number } => by_form(scene, draft, goal, form, number),
        _ => false,
    }
}

/// A goal stands in this way; `false` where pairs wait to be joined.
pub(crate) fn take_goal(
    scene: &Scene<'_>,
    draft: &mut Draft,
    goal: PlanGoal,
    choice: Choice,
) -> bool
    ensures more { OnTrue result (Extends draft.old draft.new) }
    ensures hope { OnTrue result ((task : Task) (lent : Context) (n : ℕ) → IsScene task lent scene.now
        → (h : Hope task lent n (with_goal goal draft.old))
        → GoalBy task lent n draft.old goal h choice → Hope task lent n draft.new) }
{
    if draft.is_joined() {
        by_choice(scene, draft, goal, choice)
    } else {
        false
    }
}

/// One more branch, split out of another one.
fn push_child(draft: &mut Draft, child: Node) -> bool
    ensures { OnTrue result (draft.new ≡ with_child child draft.old) }
{
    let number = draft.nodes().len();
    number <= u32::MAX as usize && draft.push_node(child) && draft.push_branch(number as u32)
}

/// A branch is split into so many, whose cases are those of a line or of a step.
fn push_split(draft: &mut Draft, node: u32, count: usize, of: ListOf) -> bool
    ensures rooted { OnTrue result (0 < length draft.old.nodes) }
    ensures split { OnTrue result (draft.new ≡ split_draft of node count draft.old) }
{
    if draft.nodes().is_empty() {
        return false;
    }
    for case in 0..count {
        if case > u32::MAX as usize {
            return false;
        }
        let child = Node {
            parent: node,
            of: with_case(of, case as u32),
        };
        if !push_child(draft, child) {
            return false;
        }
    }
    draft.close_one()
}

fn with_case(of: ListOf, number: u32) -> ListOf
    ensures { result ≡ numbered_list of number }
{
    match of {
        ListOf::Case { line, .. } => ListOf::Case { line, number },
        ListOf::Disjunct { form, base, .. } => ListOf::Disjunct { form, base, number },
        other => other,
    }
}

/// A branch is closed by a disjunct of the goal.
fn answer(scene: &Scene<'_>, draft: &mut Draft, node: u32, disjunct: u32) -> bool
    ensures { OnTrue result (IsAnsweredBy scene.now.answers.now disjunct node draft.old draft.new) }
{
    let Some(form) = place_at(scene.answers, disjunct as usize) else {
        return false;
    };
    let Some(base) = (draft.start() as usize).checked_add(draft.bound().len()) else {
        return false;
    };
    if base > u32::MAX as usize {
        return false;
    }
    let of = GoalOf::Disjunct {
        number: disjunct,
        base: base as u32,
    };
    draft.widen(form.universals, false)
        && push_goals(draft, of, form.premises.len(), None, node)
        && draft.close_one()
}

/// As many cases as a line has, if it has some or is falsehood.
fn case_count(line: &Line) -> Option<usize>
    ensures { IfSome result (λ count. (lists : List (List AtomValue))
        → IsAmong lists (given_lists line.now) → length lists ≡ count) }
{
    match line {
        Line::Facts(_) => None,
        Line::Cases(lists) => Some(lists.len()),
        Line::Falsum => Some(0),
    }
}

/// A branch is split by a line of the context.
fn split_line(scene: &Scene<'_>, draft: &mut Draft, node: u32, line: u32) -> bool
    ensures { OnTrue result (IsSplitByLine scene.now.lines.now line node draft.old draft.new) }
{
    let Some(given) = place_at(scene.lines, line as usize) else {
        return false;
    };
    match case_count(given) {
        Some(count) => push_split(draft, node, count, ListOf::Case { line, number: 0 }),
        None => false,
    }
}

/// A branch is split by a step.
fn split_step(
    scene: &Scene<'_>,
    draft: &mut Draft,
    node: u32,
    step: u32,
    form: u32,
    base: u32,
) -> bool
    ensures { OnTrue result
        (IsSplitByStep scene.now.forms.now step form base node draft.old draft.new) }
{
    let Some(f) = place_at(scene.forms, form as usize) else {
        return false;
    };
    let of = ListOf::Disjunct {
        form,
        base,
        number: 0,
    };
    draft.push_tie(PlanTie::Over { step, node }) && push_split(draft, node, f.disjuncts.len(), of)
}

/// A branch is closed in this way; `false` where pairs wait to be joined.
pub(crate) fn take_branch(scene: &Scene<'_>, draft: &mut Draft, node: u32, choice: Choice) -> bool
    ensures more { OnTrue result (Extends draft.old draft.new) }
    ensures hope { OnTrue result ((task : Task) (lent : Context) (n : ℕ) → IsScene task lent scene.now
        → (h : Hope task lent n (with_branch node draft.old))
        → BranchBy task lent n draft.old node h choice → Hope task lent n draft.new) }
{
    if !draft.is_joined() {
        return false;
    }
    match choice {
        Choice::Answer { disjunct } => answer(scene, draft, node, disjunct),
        Choice::Line { line } => split_line(scene, draft, node, line),
        Choice::Old { step } => match item_at(draft.steps(), step as usize) {
            Some(PlanStep { form, base }) => split_step(scene, draft, node, step, form, base),
            None => false,
        },
        Choice::New { form } => match grow(scene, draft, form, node) {
            Some((step, base)) => split_step(scene, draft, node, step, form, base),
            None => false,
        },
        _ => false,
    }
}
