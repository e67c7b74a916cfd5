use crate::searches::{least, task_of};
use coherent_form::Task;
use std::alloc::Global;
use std::test::Fail;
use text_core::{Bytes, Memory};
use trail_search::start_context;

// Appends so many pieces, each between a front and an end with a number of 0 to 63 in it.
fn push_row(
    alloc: Global,
    text: &mut Bytes,
    count: u32,
    front: &[u8],
    end: &[u8],
) -> Result<(), Memory> {
    for number in 0..count {
        text.extend_from_slice(front)?;
        text.extend_from_slice((number % 64).to_string(alloc)?.as_bytes())?;
        text.extend_from_slice(end)?;
    }
    Ok(())
}

// Appends a formula with 64 universal variables and so many premises and disjuncts.
fn push_widest(
    alloc: Global,
    text: &mut Bytes,
    premises: u32,
    disjuncts: u32,
) -> Result<(), Memory> {
    text.extend_from_slice(b"! [X")?;
    push_row(alloc, text, 63, b"", b",X")?;
    text.extend_from_slice(b"63] : ((")?;
    push_row(alloc, text, premises, b"p(X", b") & ")?;
    text.extend_from_slice(b"$true) => (")?;
    push_row(alloc, text, disjuncts, b"q", b" | ")?;
    text.extend_from_slice(b"$false))")
}

// Whether a smallest proof of a task with at most `most` rule applications is so large.
fn is_least(alloc: Global, task: &Task, most: u32) -> bool {
    if most > 200 {
        return false;
    }
    match start_context(alloc, task) {
        Ok(start) => least(alloc, task, &start, most) == Some(most),
        Err(_) => false,
    }
}

// A fact, a widest form, and a conjecture that is its disjuncts, or one that it is itself.
fn widest(alloc: Global, premises: u32, disjuncts: u32, is_goal: bool) -> Result<Bytes, Memory> {
    let mut text = Bytes::from_slice(alloc, b"fof(f,axiom,p(c)). fof(w,axiom,")?;
    push_widest(alloc, &mut text, premises, disjuncts)?;
    text.extend_from_slice(b"). fof(g,conjecture,")?;
    push_widest(
        alloc,
        &mut text,
        if is_goal { premises } else { 0 },
        disjuncts,
    )?;
    text.extend_from_slice(b").")?;
    Ok(text)
}

// Numbers of premises and of disjuncts, whether the form is the conjecture too, and how many rule
// applications a smallest proof has.
const WIDEST: &[(u32, u32, bool, u32)] = &[
    // the fact, the form, and falsehood
    (1024, 0, false, 3),
    // the fact, the form, a split in 64 cases, and an end in each
    (960, 64, false, 67),
    // 128 facts of 64 elements are given, and the form gives the disjunct
    (128, 1, true, 2),
];

// Whether the problem has a smallest proof of this size.
fn has_least(alloc: Global, text: &[u8], size: u32) -> bool {
    match task_of(alloc, text) {
        Some(task) => is_least(alloc, &task, size),
        None => false,
    }
}

#[test]
fn the_widest_forms_are_applied(rt: HostRuntime) -> Result<(), Fail> {
    for (premises, disjuncts, is_goal, size) in WIDEST {
        let text = widest(rt.alloc(), *premises, *disjuncts, *is_goal)?;
        assert!(rt; has_least(rt.alloc(), text.as_slice(), *size));
    }
    Ok(())
}
