ghost use Rattle.std.specs.Prelude.{◌≡◌, ◌-◌, ◌<◌, ◌≤◌, IfSome, IfNone};
ghost use Rattle.std.specs.Bool.{OnTrue, OnFalse};
ghost use Rattle.vernacular_tree.specs.declared.context.Context.{Context as ContextValue};
ghost use Rattle.coherent_form.specs.Tasks.{proof_task};
ghost use Rattle.kept_context.specs.Kept.{Represents};
ghost use Rattle.coherent_form.specs.Kept.{IsRight};
ghost use Rattle.proof_plans.specs.Scenes.{IsScene};
ghost use Rattle.trail_search.specs.Answers.{AreAnswers};
ghost use Rattle.trail_search.specs.Least.{HasNone};
ghost use Rattle.trail_search.specs.Searches.{IsReady, HasCursors, CanNote, IsNoted};

use crate::done::Done;
use crate::found::Found;
use crate::outline::Outline;
use crate::plan::outline_plan;
use crate::replay::replay;
use crate::scene::Scene;
use crate::search::search;
use instance_cursor::Cursor;
use kept_context::KeptContext;
use proof_plans::{Planner, Scene as Parts, Verdict};

// Whether an outline is a proof with at most `budget` rule applications from what is kept; it is
// noted.
fn replay_whole(
    scene: &Scene<'_>,
    kept: &mut KeptContext,
    cursors: &mut [Cursor],
    found: &mut Found,
    outline: &Outline,
    done: &mut [Done],
    budget: u32,
) -> bool
    requires ready { IsReady scene.now.task.now scene.now.answers.now scene.now.lent.now budget kept.old }
    requires cursors { HasCursors budget cursors.old }
    requires note { CanNote budget found.old }
    ensures kept { kept.new ≡ kept.old }
    ensures cursors { HasCursors budget cursors.new }
    ensures noted { OnTrue result ((context : ContextValue)
        → Represents scene.now.task.now scene.now.lent.now kept.old context
        → IsNoted (proof_task scene.now.task.now) context budget found.old found.new) }
    ensures same { OnFalse result (found.new ≡ found.old) }
{
    let [cursor, ..] = cursors else {
        return false;
    };
    replay(scene, kept, cursor, found, outline, done, 0, 0, budget)
}

// Whether there is a proof with at most `budget` rule applications from what is kept; it is noted.
// An outline is tried first.
fn look_within(
    scene: &Scene<'_>,
    kept: &mut KeptContext,
    cursors: &mut [Cursor],
    found: &mut Found,
    outline: &Outline,
    done: &mut [Done],
    budget: u32,
) -> bool
    requires ready { IsReady scene.now.task.now scene.now.answers.now scene.now.lent.now budget kept.old }
    requires cursors { HasCursors budget cursors.old }
    requires note { CanNote budget found.old }
    ensures kept { kept.new ≡ kept.old }
    ensures cursors { HasCursors budget cursors.new }
    ensures noted { OnTrue result ((context : ContextValue)
        → Represents scene.now.task.now scene.now.lent.now kept.old context
        → IsNoted (proof_task scene.now.task.now) context budget found.old found.new) }
    ensures none { OnFalse result ((context : ContextValue)
        → Represents scene.now.task.now scene.now.lent.now kept.old context
        → HasNone (proof_task scene.now.task.now) context budget) }
    ensures same { OnFalse result (found.new ≡ found.old) }
{
    if replay_whole(scene, kept, cursors, found, outline, done, budget) {
        return true;
    }
    search(scene, kept, cursors, found, budget)
}

/// The fewest rule applications of a proof from the context that is lent and kept, where they are at
/// most `within`; the proof is noted. A planner is asked first whether there may be one.
pub(crate) fn look_least(
    scene: &Scene<'_>,
    kept: &mut KeptContext,
    cursors: &mut [Cursor],
    found: &mut Found,
    planner: &mut Planner,
    outline: &mut Outline,
    done: &mut [Done],
    within: u32,
) -> Option<u32>
    requires ready { IsReady scene.now.task.now scene.now.answers.now scene.now.lent.now within kept.old }
    requires lent { Represents scene.now.task.now scene.now.lent.now kept.old scene.now.lent.now }
    requires cursors { HasCursors within cursors.old }
    requires note { CanNote within found.old }
    ensures kept { kept.new ≡ kept.old }
    ensures cursors { HasCursors within cursors.new }
    ensures within { IfSome result (λ n. (0 < n) × (n ≤ within)) }
    ensures noted { IfSome result (λ n.
        IsNoted (proof_task scene.now.task.now) scene.now.lent.now n found.old found.new) }
    ensures least { IfSome result (λ n.
        HasNone (proof_task scene.now.task.now) scene.now.lent.now (n - 1)) }
    ensures none { IfNone result (HasNone (proof_task scene.now.task.now) scene.now.lent.now within) }
    ensures same { IfNone result (found.new ≡ found.old) }
{
    let parts = parts_of(scene);
    for smaller in 0..within {
        match planner.look(&parts, scene.lent.elements, smaller + 1) {
            Verdict::Never => return None,
            Verdict::NotWithin => continue,
            Verdict::Perhaps => {}
        }
        let _whole = outline_plan(outline, planner, &parts);
        if look_within(scene, kept, cursors, found, outline, done, smaller + 1) {
            return Some(smaller + 1);
        }
    }
    None
}

// What a planner looks at.
fn parts_of<'b>(scene: &Scene<'b>) -> Parts<'b>
    requires task { IsRight scene.now.task.now }
    requires answers { AreAnswers scene.now.task.now scene.now.answers.now }
    ensures { IsScene (proof_task scene.now.task.now) scene.now.lent.now result }
{
    Parts {
        forms: scene.task.forms().as_slice(),
        answers: scene.answers,
        lines: scene.lent.lines.as_slice(),
    }
}
