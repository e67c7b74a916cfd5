ghost use Rattle.std.specs.Prelude.{◌≡◌, ◌+◌, ◌^◌, ◌<◌, ◌≤◌, List as Lst, length, take, slice_get, Some, IfSome, IfNone};
ghost use Rattle.std.specs.Bool.{OnTrue, OnFalse};
ghost use Rattle.logic_core.specs.declared.form.Atom.{Atom as AtomValue};
ghost use Rattle.logic_core.specs.declared.form.Form.{Form as FormValue};
ghost use Rattle.vernacular_tree.specs.Rules.{IsInstance};
ghost use Rattle.vernacular_tree.specs.declared.context.Context.{Context as ContextValue};
ghost use Rattle.vernacular_tree.specs.declared.context.Line.TheVariants as line_value;
ghost use Rattle.coherent_form.specs.Kept.{IsRight};
ghost use Rattle.coherent_form.specs.Tasks.{proof_task};
ghost use Rattle.kept_context.specs.Kept.{Represents};
ghost use Rattle.trail_search.specs.Branches.{AreNoted};
ghost use Rattle.trail_search.specs.Searches.{IsReady, IsWide, CanNote, IsNoted};

use crate::close::close;
use crate::done::{Done, line_split, note_done, write_args};
use crate::found::Found;
use crate::outline::{Outline, OutlineStep};
use crate::scene::Scene;
use crate::search::few_cases;
use instance_cursor::Cursor;
use kept_context::KeptContext;
use text_core::MOST_FORM_VARIABLES;

/// Whether a branch of an outline, from the step with a number on, is a proof with at most `budget`
/// rule applications from what is kept; it is noted.
#[cycle(replay)]
pub(crate) fn replay(
    scene: &Scene<'_>,
    kept: &mut KeptContext,
    cursor: &mut Cursor,
    found: &mut Found,
    outline: &Outline,
    done: &mut [Done],
    branch: u32,
    from: usize,
    budget: u32,
) -> bool
    requires ready { IsReady scene.now.task.now scene.now.answers.now scene.now.lent.now budget kept.old }
    requires cursor { IsWide cursor.old }
    requires note { CanNote budget found.old }
    ensures kept { kept.new ≡ kept.old }
    ensures cursor { IsWide cursor.new }
    ensures noted { OnTrue result ((context : ContextValue)
        → Represents scene.now.task.now scene.now.lent.now kept.old context
        → IsNoted (proof_task scene.now.task.now) context budget found.old found.new) }
    ensures same { OnFalse result (found.new ≡ found.old) }
{
    if budget == 0 {
        return false;
    }
    if let Some(number) = outline.next_in(branch, from) {
        return replay_step(
            scene,
            kept,
            cursor,
            found,
            outline,
            done,
            number,
            budget - 1,
        );
    }
    if close(scene, kept, cursor, found) {
        return true;
    }
    replay_split(scene, kept, cursor, found, outline, done, branch, budget)
}

// Whether a form of the task may be applied to elements in what is kept.
fn is_applicable(scene: &Scene<'_>, kept: &KeptContext, form: u32, args: &[u32]) -> bool
    requires { IsRight scene.now.task.now }
    ensures { OnTrue result ((context : ContextValue)
        → Represents scene.now.task.now scene.now.lent.now kept.now context
        → (f : FormValue) × (slice_get scene.now.task.now.forms form ≡ Some f)
        × IsInstance context f args.now) }
{
    match scene.task.forms().get(form as usize) {
        Some(form) => kept.is_instance(form, args),
        None => false,
    }
}

// The step with a number, where it may be done in what is kept: its elements are written at the
// front of a buffer, and it is noted as done.
fn begin_step(
    scene: &Scene<'_>,
    kept: &KeptContext,
    outline: &Outline,
    done: &mut [Done],
    number: usize,
    buffer: &mut [u32],
) -> Option<OutlineStep>
    requires { IsRight scene.now.task.now }
    ensures fits { IfSome result (λ step. step.count ≤ length buffer.new) }
    ensures instance { IfSome result (λ step. (context : ContextValue)
        → Represents scene.now.task.now scene.now.lent.now kept.now context
        → (f : FormValue) × (slice_get scene.now.task.now.forms step.form ≡ Some f)
        × IsInstance context f (take step.count buffer.new)) }
{
    let step = outline.step(number)?;
    if !write_args(buffer, outline, done, step) {
        return None;
    }
    if !is_applicable(scene, kept, step.form, &buffer[..step.count]) {
        return None;
    }
    let first = kept.elements();
    let line = kept.line_count(scene.lent);
    note_done(done, number, Done { first, line });
    Some(step)
}

// Whether the step with a number may be done and its branch goes on behind it, with at most `left`
// rule applications; it is noted with the step.
#[cycle(replay)]
fn replay_step(
    scene: &Scene<'_>,
    kept: &mut KeptContext,
    cursor: &mut Cursor,
    found: &mut Found,
    outline: &Outline,
    done: &mut [Done],
    number: usize,
    left: u32,
) -> bool
    requires number { number < 2 ^ 63 }
    requires ready { IsReady scene.now.task.now scene.now.answers.now scene.now.lent.now (left + 1) kept.old }
    requires cursor { IsWide cursor.old }
    requires note { CanNote (left + 1) found.old }
    ensures kept { kept.new ≡ kept.old }
    ensures cursor { IsWide cursor.new }
    ensures noted { OnTrue result ((context : ContextValue)
        → Represents scene.now.task.now scene.now.lent.now kept.old context
        → IsNoted (proof_task scene.now.task.now) context (left + 1) found.old found.new) }
    ensures same { OnFalse result (found.new ≡ found.old) }
{
    let mut buffer = [0; MOST_FORM_VARIABLES as usize];
    let Some(step) = begin_step(scene, kept, outline, done, number, &mut buffer) else {
        return false;
    };
    let args = &buffer[..step.count];
    let point = kept.point();
    kept.apply(scene.task, step.form, args);
    let closed = replay(
        scene,
        kept,
        cursor,
        found,
        outline,
        done,
        step.branch,
        number + 1,
        left,
    );
    kept.back(point);
    if closed {
        found.push_mp(step.form, args);
    }
    closed
}

// Whether the split at the end of a branch is a proof with at most `budget` rule applications; it
// is noted.
#[cycle(replay)]
fn replay_split(
    scene: &Scene<'_>,
    kept: &mut KeptContext,
    cursor: &mut Cursor,
    found: &mut Found,
    outline: &Outline,
    done: &mut [Done],
    branch: u32,
    budget: u32,
) -> bool
    requires some { 0 < budget }
    requires ready { IsReady scene.now.task.now scene.now.answers.now scene.now.lent.now budget kept.old }
    requires cursor { IsWide cursor.old }
    requires note { CanNote budget found.old }
    ensures kept { kept.new ≡ kept.old }
    ensures cursor { IsWide cursor.new }
    ensures noted { OnTrue result ((context : ContextValue)
        → Represents scene.now.task.now scene.now.lent.now kept.old context
        → IsNoted (proof_task scene.now.task.now) context budget found.old found.new) }
    ensures same { OnFalse result (found.new ≡ found.old) }
{
    let Some(line) = line_split(outline, done, branch) else {
        return false;
    };
    let Some(count) = few_cases(scene, kept, line, budget) else {
        return false;
    };
    let closed = replay_cases(
        scene,
        kept,
        cursor,
        found,
        outline,
        done,
        branch,
        line,
        count,
        budget - 1,
    );
    if closed {
        found.push_split(line as u32, count);
    }
    closed
}

// Whether the branches of the first `count` cases of a line are proofs with at most `left` rule
// applications in all; they are noted, the last case first.
#[cycle(replay)]
fn replay_cases(
    scene: &Scene<'_>,
    kept: &mut KeptContext,
    cursor: &mut Cursor,
    found: &mut Found,
    outline: &Outline,
    done: &mut [Done],
    branch: u32,
    line: usize,
    count: u32,
    left: u32,
) -> bool
    requires ready { IsReady scene.now.task.now scene.now.answers.now scene.now.lent.now (left + 1) kept.old }
    requires cursor { IsWide cursor.old }
    requires note { CanNote left found.old }
    requires there { (context : ContextValue)
        → Represents scene.now.task.now scene.now.lent.now kept.old context
        → (lists : Lst (Lst AtomValue))
        × (slice_get context.lines line ≡ Some (line_value.Cases lists)) × (count ≤ length lists) }
    requires few { count ≤ left }
    ensures kept { kept.new ≡ kept.old }
    ensures cursor { IsWide cursor.new }
    ensures noted { OnTrue result ((context : ContextValue) (lists : Lst (Lst AtomValue))
        → Represents scene.now.task.now scene.now.lent.now kept.old context
        → slice_get context.lines line ≡ Some (line_value.Cases lists)
        → AreNoted (proof_task scene.now.task.now) context (take count lists) left
        found.old found.new) }
    ensures same { OnFalse result (found.new ≡ found.old) }
{
    if count == 0 {
        return true;
    }
    let others = count - 1;
    let Some(child) = outline.child_of(branch, others) else {
        return false;
    };
    let point = kept.point();
    let noted = found.point();
    kept.enter_case(scene.task, scene.lent, line, others as usize);
    let closed = replay_branch(
        scene,
        kept,
        cursor,
        found,
        outline,
        done,
        child,
        left - others,
    );
    kept.back(point);
    let Some(size) = closed else {
        return false;
    };
    let closed = replay_cases(
        scene,
        kept,
        cursor,
        found,
        outline,
        done,
        branch,
        line,
        others,
        left - size,
    );
    if !closed {
        found.back(noted);
    }
    closed
}

// The rule applications of a branch, where it is a proof with at most `within` of them; it is
// noted.
#[cycle(replay)]
fn replay_branch(
    scene: &Scene<'_>,
    kept: &mut KeptContext,
    cursor: &mut Cursor,
    found: &mut Found,
    outline: &Outline,
    done: &mut [Done],
    branch: u32,
    within: u32,
) -> Option<u32>
    requires ready { IsReady scene.now.task.now scene.now.answers.now scene.now.lent.now within kept.old }
    requires cursor { IsWide cursor.old }
    requires note { CanNote within found.old }
    ensures kept { kept.new ≡ kept.old }
    ensures cursor { IsWide cursor.new }
    ensures within { IfSome result (λ n. (0 < n) × (n ≤ within)) }
    ensures noted { IfSome result (λ n. (context : ContextValue)
        → Represents scene.now.task.now scene.now.lent.now kept.old context
        → IsNoted (proof_task scene.now.task.now) context n found.old found.new) }
    ensures same { IfNone result (found.new ≡ found.old) }
{
    let before = found.point();
    if !replay(scene, kept, cursor, found, outline, done, branch, 0, within) {
        return None;
    }
    Some((found.point() - before) as u32)
}
