ghost use Rattle.std.specs.Prelude.{ℕ, ◌≡◌, ◌-◌, ◌+◌, ◌<◌, ◌≤◌, List as Lst, length, take, slice_get, Some, IfSome, IfNone};
ghost use Rattle.std.specs.Bool.{OnTrue, OnFalse};
ghost use Rattle.logic_core.specs.declared.form.Atom.{Atom as AtomValue};
ghost use Rattle.logic_core.specs.declared.form.Form.{Form as FormValue};
ghost use Rattle.vernacular_tree.specs.Contexts.{after_mp};
ghost use Rattle.vernacular_tree.specs.Rules.{IsInstance};
ghost use Rattle.vernacular_tree.specs.declared.context.Context.{Context as ContextValue};
ghost use Rattle.vernacular_tree.specs.declared.context.Line.TheVariants as line_value;
ghost use Rattle.coherent_form.specs.Tasks.{proof_task};
ghost use Rattle.kept_context.specs.Kept.{Represents};
ghost use Rattle.trail_search.specs.Branches.{AreNoted, HaveNone, SplitHasNone};
ghost use Rattle.trail_search.specs.Least.{HasNone};
ghost use Rattle.trail_search.specs.Searches.{IsReady, HasCursors, CanNote, IsNoted, FormHasNone};

use crate::close::close;
use crate::found::Found;
use crate::scene::Scene;
use instance_cursor::Cursor;
use kept_context::KeptContext;
use vernacular_tree::barren_step_may_be_left_out;

/// Whether there is a proof with at most `budget` rule applications from what is kept; it is noted.
#[cycle(search)]
pub(crate) fn search(
    scene: &Scene<'_>,
    kept: &mut KeptContext,
    cursors: &mut [Cursor],
    found: &mut Found,
    budget: u32,
) -> bool
    requires ready { IsReady scene.now.task.now scene.now.answers.now scene.now.lent.now budget kept.old }
    requires cursors { HasCursors budget cursors.old }
    requires note { CanNote budget found.old }
    ensures kept { kept.new ≡ kept.old }
    ensures cursors { HasCursors budget cursors.new }
    ensures noted { OnTrue result ((context : ContextValue)
        → Represents scene.now.task.now scene.now.lent.now kept.old context
        → IsNoted (proof_task scene.now.task.now) context budget found.old found.new) }
    ensures none { OnFalse result ((context : ContextValue)
        → Represents scene.now.task.now scene.now.lent.now kept.old context
        → HasNone (proof_task scene.now.task.now) context budget) }
    ensures same { OnFalse result (found.new ≡ found.old) }
{
    let [cursor, ..] = cursors else {
        return false;
    };
    if budget == 0 {
        return false;
    }
    if close(scene, kept, cursor, found) {
        return true;
    }
    if split(scene, kept, cursors, found, budget) {
        return true;
    }
    if budget == 1 {
        return false;
    }
    for form in 0..scene.task.forms().len() {
        if try_form(scene, kept, cursors, found, form, budget) {
            return true;
        }
    }
    // Barren steps need not be taken.
    barren_step_may_be_left_out();
    false
}

// Whether a proof begins with an instance of a form; it is noted.
#[cycle(search)]
fn try_form(
    scene: &Scene<'_>,
    kept: &mut KeptContext,
    cursors: &mut [Cursor],
    found: &mut Found,
    number: usize,
    budget: u32,
) -> bool
    requires ready { IsReady scene.now.task.now scene.now.answers.now scene.now.lent.now budget kept.old }
    requires cursors { HasCursors budget cursors.old }
    requires note { CanNote budget found.old }
    requires some { 0 < budget }
    requires there { number < length scene.now.task.now.forms }
    ensures kept { kept.new ≡ kept.old }
    ensures cursors { HasCursors budget cursors.new }
    ensures noted { OnTrue result ((context : ContextValue)
        → Represents scene.now.task.now scene.now.lent.now kept.old context
        → IsNoted (proof_task scene.now.task.now) context budget found.old found.new) }
    ensures none { OnFalse result ((context : ContextValue)
        → Represents scene.now.task.now scene.now.lent.now kept.old context
        → FormHasNone (proof_task scene.now.task.now) context number (budget - 1)) }
    ensures same { OnFalse result (found.new ≡ found.old) }
{
    let Some((cursor, deeper)) = cursors.split_first_mut() else {
        return false;
    };
    let form = &scene.task.forms().as_slice()[number];
    cursor.start(form, kept.store(), kept.elements());
    'instances: while cursor.next(form, kept.store(), kept.elements()) {
        if kept.is_barren(form, cursor.args()) {
            continue;
        }
        if take_step(
            scene,
            kept,
            deeper,
            found,
            number as u32,
            cursor.args(),
            budget - 1,
        ) {
            return true;
        }
    }
    false
}

// Whether a proof goes on behind an instance of a form, with at most `left` rule applications; it
// is noted with the step.
#[cycle(search)]
fn take_step(
    scene: &Scene<'_>,
    kept: &mut KeptContext,
    cursors: &mut [Cursor],
    found: &mut Found,
    form: u32,
    args: &[u32],
    left: u32,
) -> bool
    requires ready { IsReady scene.now.task.now scene.now.answers.now scene.now.lent.now (left + 1) kept.old }
    requires cursors { HasCursors left cursors.old }
    requires note { CanNote (left + 1) found.old }
    requires step { (f : FormValue) × (slice_get scene.now.task.now.forms form ≡ Some f)
        × (length args.now ≡ f.universals) }
    ensures kept { kept.new ≡ kept.old }
    ensures cursors { HasCursors left cursors.new }
    ensures noted { OnTrue result ((context : ContextValue) (f : FormValue)
        → Represents scene.now.task.now scene.now.lent.now kept.old context
        → slice_get scene.now.task.now.forms form ≡ Some f → IsInstance context f args.now
        → IsNoted (proof_task scene.now.task.now) context (left + 1) found.old found.new) }
    ensures none { OnFalse result ((context : ContextValue) (f : FormValue)
        → Represents scene.now.task.now scene.now.lent.now kept.old context
        → slice_get scene.now.task.now.forms form ≡ Some f
        → HasNone (proof_task scene.now.task.now) (after_mp context f args.now) left) }
    ensures same { OnFalse result (found.new ≡ found.old) }
{
    let point = kept.point();
    kept.apply(scene.task, form, args);
    let done = search(scene, kept, cursors, found, left);
    kept.back(point);
    if done {
        found.push_mp(form, args);
    }
    done
}

/// The number of cases of a line, where it is below `budget`.
pub(crate) fn few_cases(
    scene: &Scene<'_>,
    kept: &KeptContext,
    line: usize,
    budget: u32,
) -> Option<u32>
    ensures some { IfSome result (λ count. (count < budget) × ((context : ContextValue)
        → Represents scene.now.task.now scene.now.lent.now kept.now context
        → (lists : Lst (Lst AtomValue))
        × (slice_get context.lines line ≡ Some (line_value.Cases lists))
        × (length lists ≡ count))) }
    ensures none { IfNone result ((context : ContextValue) (lists : Lst (Lst AtomValue))
        → Represents scene.now.task.now scene.now.lent.now kept.now context
        → slice_get context.lines line ≡ Some (line_value.Cases lists)
        → budget ≤ length lists) }
{
    let count = kept.cases(scene.task, scene.lent, line)?;
    if count < budget as usize {
        Some(count as u32)
    } else {
        None
    }
}

// Whether a proof is a split of some line; it is noted.
#[cycle(search)]
fn split(
    scene: &Scene<'_>,
    kept: &mut KeptContext,
    cursors: &mut [Cursor],
    found: &mut Found,
    budget: u32,
) -> bool
    requires ready { IsReady scene.now.task.now scene.now.answers.now scene.now.lent.now budget kept.old }
    requires cursors { HasCursors budget cursors.old }
    requires note { CanNote budget found.old }
    ensures kept { kept.new ≡ kept.old }
    ensures cursors { HasCursors budget cursors.new }
    ensures noted { OnTrue result ((context : ContextValue)
        → Represents scene.now.task.now scene.now.lent.now kept.old context
        → IsNoted (proof_task scene.now.task.now) context budget found.old found.new) }
    ensures none { OnFalse result ((context : ContextValue) (line : ℕ)
        → Represents scene.now.task.now scene.now.lent.now kept.old context
        → SplitHasNone (proof_task scene.now.task.now) context line budget) }
    ensures same { OnFalse result (found.new ≡ found.old) }
{
    for line in 0..kept.line_count(scene.lent) {
        let Some(count) = few_cases(scene, kept, line, budget) else {
            continue;
        };
        if close_cases(scene, kept, cursors, found, line, count, budget - 1) {
            found.push_split(line as u32, count);
            return true;
        }
    }
    false
}

// Whether the first `count` cases of a line have proofs with at most `left` rule applications in
// all; they are noted. The last case is proved first, with as few as there can be.
#[cycle(search)]
fn close_cases(
    scene: &Scene<'_>,
    kept: &mut KeptContext,
    cursors: &mut [Cursor],
    found: &mut Found,
    line: usize,
    count: u32,
    left: u32,
) -> bool
    requires ready { IsReady scene.now.task.now scene.now.answers.now scene.now.lent.now (left + 1) kept.old }
    requires cursors { HasCursors left cursors.old }
    requires note { CanNote left found.old }
    requires there { (context : ContextValue)
        → Represents scene.now.task.now scene.now.lent.now kept.old context
        → (lists : Lst (Lst AtomValue))
        × (slice_get context.lines line ≡ Some (line_value.Cases lists)) × (count ≤ length lists) }
    requires few { count ≤ left }
    ensures kept { kept.new ≡ kept.old }
    ensures cursors { HasCursors left cursors.new }
    ensures noted { OnTrue result ((context : ContextValue) (lists : Lst (Lst AtomValue))
        → Represents scene.now.task.now scene.now.lent.now kept.old context
        → slice_get context.lines line ≡ Some (line_value.Cases lists)
        → AreNoted (proof_task scene.now.task.now) context (take count lists) left
        found.old found.new) }
    ensures none { OnFalse result ((context : ContextValue) (lists : Lst (Lst AtomValue))
        → Represents scene.now.task.now scene.now.lent.now kept.old context
        → slice_get context.lines line ≡ Some (line_value.Cases lists)
        → HaveNone (proof_task scene.now.task.now) context (take count lists) left) }
    ensures same { OnFalse result (found.new ≡ found.old) }
{
    if count == 0 {
        return true;
    }
    let others = count - 1;
    let point = kept.point();
    let noted = found.point();
    kept.enter_case(scene.task, scene.lent, line, others as usize);
    let least = search_least(scene, kept, cursors, found, left - others);
    kept.back(point);
    let Some(size) = least else {
        return false;
    };
    if close_cases(scene, kept, cursors, found, line, others, left - size) {
        return true;
    }
    found.back(noted);
    false
}

/// The fewest rule applications of a proof from what is kept, where they are at most `within`; the
/// proof is noted.
#[cycle(search)]
fn search_least(
    scene: &Scene<'_>,
    kept: &mut KeptContext,
    cursors: &mut [Cursor],
    found: &mut Found,
    within: u32,
) -> Option<u32>
    requires ready { IsReady scene.now.task.now scene.now.answers.now scene.now.lent.now within kept.old }
    requires cursors { HasCursors within cursors.old }
    requires note { CanNote within found.old }
    ensures kept { kept.new ≡ kept.old }
    ensures cursors { HasCursors within cursors.new }
    ensures within { IfSome result (λ n. (0 < n) × (n ≤ within)) }
    ensures noted { IfSome result (λ n. (context : ContextValue)
        → Represents scene.now.task.now scene.now.lent.now kept.old context
        → IsNoted (proof_task scene.now.task.now) context n found.old found.new) }
    ensures least { IfSome result (λ n. (context : ContextValue)
        → Represents scene.now.task.now scene.now.lent.now kept.old context
        → HasNone (proof_task scene.now.task.now) context (n - 1)) }
    ensures none { IfNone result ((context : ContextValue)
        → Represents scene.now.task.now scene.now.lent.now kept.old context
        → HasNone (proof_task scene.now.task.now) context within) }
    ensures same { IfNone result (found.new ≡ found.old) }
{
    for smaller in 0..within {
        if search(scene, kept, cursors, found, smaller + 1) {
            return Some(smaller + 1);
        }
    }
    None
}
