//! `confirm`.

use super::running::{CONFIRM, Row, assert_answered, assert_refused};
use std::test::Fail;

// A problem whose conjecture is told of each element.
pub(super) const EACH_ELEMENT: &[u8] = b"fof(a1,axiom,p(c)). fof(g,conjecture,! [X] : p(X)).";

#[test]
fn a_countermodel_is_confirmed_or_told_why_not(rt: HostRuntime) -> Result<(), Fail> {
    let rows: &[Row] = &[
        (
            EACH_ELEMENT,
            b"model 1. size 2. place c is 0. fact p(0).",
            0,
            b"countermodel 2\n",
        ),
        (
            EACH_ELEMENT,
            b"model 1. size 2. place c is 0. fact p(0). fact p(1).",
            1,
            b"refused model 55 ModelFails 2\n",
        ),
        (
            EACH_ELEMENT,
            b"model 1. size 2. place c is 0. fact p(1).",
            1,
            b"refused model 55 ModelFails 1\n",
        ),
        (
            EACH_ELEMENT,
            b"model 1. size 2. fact p(0).",
            1,
            b"refused model 54 ModelPlace 1\n",
        ),
    ];
    assert_answered(&rt, rt.alloc(), CONFIRM, rows)
}

#[test]
fn another_model_is_refused(rt: HostRuntime) -> Result<(), Fail> {
    let rows: &[Row] = &[
        (EACH_ELEMENT, b"", 3, b"x.v:0: 51 ModelSyntax\n"),
        (EACH_ELEMENT, b"model 1; size 2.", 3, b"x.v:7: 1 BadByte\n"),
        (
            EACH_ELEMENT,
            b"model 1. size 2. place c is 2.",
            3,
            b"x.v:28: 52 ModelRange\n",
        ),
        (
            EACH_ELEMENT,
            b"model 1. size 2. place c is 0. place c is 1.",
            3,
            b"x.v:37: 53 ModelTwice\n",
        ),
    ];
    assert_refused(&rt, rt.alloc(), CONFIRM, rows)
}
