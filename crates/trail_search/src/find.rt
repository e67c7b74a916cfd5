ghost use Rattle.std.specs.Prelude.{◌≡◌, ◌^◌, ◌<◌, ◌≤◌, ◌++◌, length, reverse, IfSome, IfNone};
ghost use Rattle.vernacular_tree.specs.Preorders.{preorder};
ghost use Rattle.vernacular_tree.specs.Rules.{IsProof};
ghost use Rattle.vernacular_tree.specs.Sizes.{size};
ghost use Rattle.vernacular_tree.specs.declared.tree.Body.{Body};
ghost use Rattle.coherent_form.specs.Kept.{IsRight};
ghost use Rattle.coherent_form.specs.Tasks.{proof_task};
ghost use Rattle.kept_context.specs.Kept.{IsEmpty, HasRoom, HasSpare};
ghost use Rattle.kept_context.specs.Lent.{IsContextOf, fact_count, arg_count};
ghost use Rattle.trail_search.specs.Answers.{AreAnswers};
ghost use Rattle.trail_search.specs.Least.{HasNone, LeastFrom};
ghost use Rattle.trail_search.specs.Searches.{HasCursors, CanNote};

use crate::done::Done;
use crate::found::Found;
use crate::look::look_least;
use crate::outline::Outline;
use crate::scene::Scene;
use instance_cursor::Cursor;
use kept_context::KeptContext;
use proof_plans::Planner;

/// The fewest rule applications of a proof from the context that is lent, where they are at most
/// `within`; the proof is noted. Nothing is kept before and after.
pub(crate) fn find_least(
    scene: &Scene<'_>,
    kept: &mut KeptContext,
    cursors: &mut [Cursor],
    found: &mut Found,
    planner: &mut Planner,
    outline: &mut Outline,
    done: &mut [Done],
    within: u32,
) -> Option<u32>
    requires task { IsRight scene.now.task.now }
    requires answers { AreAnswers scene.now.task.now scene.now.answers.now }
    requires few_answers { length scene.now.answers.now < 2 ^ 32 }
    requires lent { IsContextOf scene.now.task.now scene.now.lent.now }
    requires empty { IsEmpty kept.old }
    requires few { within ≤ 200 }
    requires room { HasRoom scene.now.task.now within kept.old }
    requires spare { HasSpare within (fact_count scene.now.lent.now) (arg_count scene.now.lent.now)
        kept.old }
    requires cursors { HasCursors within cursors.old }
    requires note { CanNote within found.old }
    ensures kept { kept.new ≡ kept.old }
    ensures cursors { HasCursors within cursors.new }
    ensures within { IfSome result (λ n. n ≤ within) }
    ensures least { IfSome result (LeastFrom (proof_task scene.now.task.now) scene.now.lent.now) }
    ensures none { IfNone result (HasNone (proof_task scene.now.task.now) scene.now.lent.now within) }
    ensures noted { IfSome result (λ n. (body : Body)
        × IsProof (proof_task scene.now.task.now) scene.now.lent.now body
        × (found.new.nodes ≡ found.old.nodes ++ reverse (preorder body)) × (size body ≡ n)) }
    ensures room { found.new.room ≡ found.old.room }
{
    let point = kept.point();
    kept.enter(scene.task, scene.lent);
    let least = look_least(scene, kept, cursors, found, planner, outline, done, within);
    kept.back(point);
    least
}
