//! What each command refuses.

use super::running::{
    CHECK, CONFIRM, CONVERT, REFUTE, Row, SEARCH, VERNACULAR, VERSION2, assert_refused,
};
use problem_suite::examples::ONE_AXIOM_PROBLEM as PROBLEM;
use std::test::Fail;

// Problems that each command refuses, beside no proof.
const REFUSED_PROBLEMS: &[Row] = &[
    (b"fof(a,axiom,p;q).", b"", 2, b"x.p:13: 1 BadByte\n"),
    (b"fof('a", b"", 2, b"x.p:4: 2 OpenQuote\n"),
    (b"/* x", b"", 2, b"x.p:0: 3 OpenComment\n"),
    (b"fof('',axiom,p).", b"", 2, b"x.p:4: 4 EmptyQuote\n"),
    (b"fof(", b"", 2, b"x.p:4: 7 EndOfText\n"),
    (b"fof(a,axiom,p(X)).", b"", 2, b"x.p:14: 10 FreeVariable\n"),
    (b"include('x.p').", b"", 2, b"x.p: 14 IncludeDepth\n"),
    (b"include('none').", b"", 66, b"none: 11 FileFault\n"),
];

// An axiom with as many variables as a form may have.
pub(super) const WIDEST: &[u8] = b"fof(a,axiom,! [X0,X1,X2,X3,X4,X5,X6,X7,X8,X9,X10,X11,X12,
X13,X14,X15,X16,X17,X18,X19,X20,X21,X22,X23,X24,X25,
X26,X27,X28,X29,X30,X31,X32,X33,X34,X35,X36,X37,X38,
X39,X40,X41,X42,X43,X44,X45,X46,X47,X48,X49,X50,X51,
X52,X53,X54,X55,X56,X57,X58,X59,X60,X61,X62,X63] : p).";

// The same with one variable more.
const TOO_WIDE: &[u8] = b"fof(a,axiom,! [X0,X1,X2,X3,X4,X5,X6,X7,X8,X9,X10,X11,X12,
X13,X14,X15,X16,X17,X18,X19,X20,X21,X22,X23,X24,X25,
X26,X27,X28,X29,X30,X31,X32,X33,X34,X35,X36,X37,X38,
X39,X40,X41,X42,X43,X44,X45,X46,X47,X48,X49,X50,X51,
X52,X53,X54,X55,X56,X57,X58,X59,X60,X61,X62,X63] : ! [X64] : p).";

// Problems that each command refuses that asks for their task.
const REFUSED_TASKS: &[Row] = &[
    (
        b"fof(g,conjecture,p <=> q).",
        b"",
        2,
        b"formula 1: 47 ManyGoals\n",
    ),
    (
        b"fof(a,axiom,~ (p & q)).",
        b"",
        2,
        b"formula 1: 16 NotCoherent 0\n",
    ),
    (
        b"fof(a,axiom,(p => q) => r).",
        b"",
        2,
        b"formula 1: 16 NotCoherent 1\n",
    ),
    (TOO_WIDE, b"", 2, b"formula 1: 17 TooWide\n"),
    (
        b"fof(g,conjecture,p). fof(h,conjecture,p).",
        b"",
        2,
        b"formula 2: 18 TooManyConjectures\n",
    ),
    // formulas of included files count
    (
        b"include('ax.p'). fof(g,conjecture,p <=> q).",
        b"",
        2,
        b"formula 3: 47 ManyGoals\n",
    ),
];

// Proofs that each command refuses that reads them.
const REFUSED_PROOFS: &[Row] = &[
    (
        PROBLEM,
        b"vernacular 1. take []. /* x",
        3,
        b"x.v:23: 3 OpenComment\n",
    ),
    (PROBLEM, b"", 3, b"x.v:0: 20 ProofSyntax\n"),
    (
        PROBLEM,
        b"vernacular 1. take []. mp a1 [] new [] gives p(c)",
        3,
        b"x.v:49: 20 ProofSyntax\n",
    ),
    (
        PROBLEM,
        b"vernacular 1. take []. as [1].",
        3,
        b"x.v:26: 20 ProofSyntax\n",
    ),
    (PROBLEM, b"vernacular 3.", 3, b"x.v:11: 21 ProofVersion\n"),
];

#[test]
fn a_refusal_goes_to_the_errors(rt: HostRuntime) -> Result<(), Fail> {
    assert_refused(&rt, rt.alloc(), CHECK, REFUSED_PROBLEMS)?;
    assert_refused(&rt, rt.alloc(), CONVERT, REFUSED_PROBLEMS)?;
    assert_refused(&rt, rt.alloc(), CHECK, REFUSED_TASKS)?;
    assert_refused(&rt, rt.alloc(), VERNACULAR, REFUSED_TASKS)?;
    assert_refused(&rt, rt.alloc(), SEARCH, REFUSED_TASKS)?;
    assert_refused(&rt, rt.alloc(), REFUTE, REFUSED_TASKS)?;
    assert_refused(&rt, rt.alloc(), CONFIRM, REFUSED_TASKS)?;
    assert_refused(&rt, rt.alloc(), CHECK, REFUSED_PROOFS)?;
    assert_refused(&rt, rt.alloc(), VERSION2, REFUSED_PROOFS)
}
