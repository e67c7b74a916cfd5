//! `refute`.

use super::confirm::EACH_ELEMENT;
use super::running::{CONFIRM, REFUTE, assert_ends, files_of, printed};
use problem_suite::examples::ONE_AXIOM_PROBLEM as PROBLEM;
use std::test::Fail;

#[test]
fn none_is_told_up_to_a_size(rt: HostRuntime) -> Result<(), Fail> {
    let words: &[&[u8]] = &[b"refute", b"x.p", b"1"];
    let files = files_of(rt.alloc(), EACH_ELEMENT, b"")?;
    assert_ends(&rt, rt.alloc(), words, files, (1, b"none up to 1\n", b""))?;
    // what has a proof has no countermodel
    let files = files_of(rt.alloc(), PROBLEM, b"")?;
    assert_ends(&rt, rt.alloc(), REFUTE, files, (1, b"none up to 2\n", b""))
}

#[test]
fn a_least_countermodel_is_printed(rt: HostRuntime) -> Result<(), Fail> {
    let files = files_of(rt.alloc(), EACH_ELEMENT, b"")?;
    let model = printed(rt.alloc(), REFUTE, files)?;
    let files = files_of(rt.alloc(), EACH_ELEMENT, model.as_slice())?;
    assert_ends(
        &rt,
        rt.alloc(),
        CONFIRM,
        files,
        (0, b"countermodel 2\n", b""),
    )
}
