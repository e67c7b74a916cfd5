ghost use Rattle.std.specs.Prelude.{◌≡◌, ◌≤◌};
ghost use Rattle.std.specs.Bool.{OnTrue, OnFalse};
ghost use Rattle.vernacular_tree.specs.declared.context.Context.{Context as ContextValue};
ghost use Rattle.coherent_form.specs.Tasks.{proof_task};
ghost use Rattle.kept_context.specs.Kept.{Represents};
ghost use Rattle.trail_search.specs.Searches.{IsReady, IsWide, CanNote, IsNoted, IsOpen};

use crate::found::Found;
use crate::scene::Scene;
use instance_cursor::Cursor;
use kept_context::KeptContext;

/// Whether falsehood or a disjunct of the goal ends the proof at once; the end is noted.
pub(crate) fn close(
    scene: &Scene<'_>,
    kept: &KeptContext,
    cursor: &mut Cursor,
    found: &mut Found,
) -> bool
    requires ready { IsReady scene.now.task.now scene.now.answers.now scene.now.lent.now 0 kept.now }
    requires cursor { IsWide cursor.old }
    requires note { CanNote 1 found.old }
    ensures wide { IsWide cursor.new }
    ensures noted { OnTrue result ((context : ContextValue)
        → Represents scene.now.task.now scene.now.lent.now kept.now context
        → IsNoted (proof_task scene.now.task.now) context 1 found.old found.new) }
    ensures open { OnFalse result ((context : ContextValue)
        → Represents scene.now.task.now scene.now.lent.now kept.now context
        → IsOpen (proof_task scene.now.task.now) context) }
    ensures same { OnFalse result (found.new ≡ found.old) }
{
    if kept.has_falsum() {
        found.push_falsum();
        return true;
    }
    let store = kept.store();
    let elements = kept.elements();
    for (disjunct, answer) in scene.answers.iter().enumerate() {
        cursor.start(answer, store, elements);
        if cursor.next(answer, store, elements) {
            found.push_answer(disjunct as u32 + 1, cursor.args());
            return true;
        }
    }
    false
}
