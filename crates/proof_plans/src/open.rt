//! What is open in a plan, and the ways in which it is closed.

ghost use Rattle.std.specs.Prelude.{ℕ};
ghost use Rattle.std.specs.Bool.{OnTrue};
ghost use Rattle.vernacular_tree.specs.Contexts.{Task};
ghost use Rattle.vernacular_tree.specs.Tasks.{IsTask};
ghost use Rattle.vernacular_tree.specs.Witnessed.{IsContext};
ghost use Rattle.vernacular_tree.specs.declared.context.Context.{Context};
ghost use Rattle.proof_plans.specs.declared.choice.Choice.{Choice as ChoiceValue};
ghost use Rattle.proof_plans.specs.Choices.{Begins, HasAll};
ghost use Rattle.proof_plans.specs.Hopes.{Hope, with_open, OpenBy};
ghost use Rattle.proof_plans.specs.Scenes.{IsScene, Extends};

use crate::apply::{take_branch, take_goal};
use crate::choice::Choice;
use crate::collect::{branch_choices, goal_choices};
use crate::draft::{Draft, PlanGoal};
use crate::scene::Scene;

/// A goal or a branch of a plan that is open.
#[derive(Clone, Copy, Debug)]
pub enum Open {
    Goal(PlanGoal),
    Branch(u32),
}

/// Each way in which it is closed, behind those that are there; `false` where there is no room.
pub(crate) fn gather(
    scene: &Scene<'_>,
    draft: &Draft,
    choices: &mut Vec<Choice>,
    left: Open,
) -> bool
    ensures more { OnTrue result (Begins choices.old.items choices.new.items) }
    ensures all { OnTrue result ((constants : ℕ) (task : Task) (lent : Context) (n : ℕ)
        → IsTask constants task → IsContext task lent → IsScene task lent scene.now
        → HasAll choices.old.items choices.new.items (λ (way : ChoiceValue).
        (h : Hope task lent n (with_open left draft.now)) × OpenBy task lent n draft.now left h way)) }
{
    match left {
        Open::Goal(goal) => goal_choices(scene, draft, choices, goal),
        Open::Branch(_) => branch_choices(scene, draft, choices),
    }
}

/// It is closed in this way; `false` where there is no room.
pub(crate) fn take(scene: &Scene<'_>, draft: &mut Draft, left: Open, choice: Choice) -> bool
    ensures more { OnTrue result (Extends draft.old draft.new) }
    ensures hope { OnTrue result ((task : Task) (lent : Context) (n : ℕ) → IsScene task lent scene.now
        → (h : Hope task lent n (with_open left draft.old))
        → OpenBy task lent n draft.old left h choice → Hope task lent n draft.new) }
{
    match left {
        Open::Goal(goal) => take_goal(scene, draft, goal, choice),
        Open::Branch(node) => take_branch(scene, draft, node, choice),
    }
}
