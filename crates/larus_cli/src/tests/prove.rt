//! `prove`.

use super::refused::WIDEST;
use super::running::{CHECK, Row, SEARCH, assert_ends, files_of, printed, times};
use logic_core::Bytes;
use problem_suite::examples::{
    COMPLEMENT_PROBLEM, COMPLEMENT_PROOF, EQUALITY_PROBLEM, FALSEHOOD_PROBLEM, FALSEHOOD_PROOF,
    SAME_NAMES_PROBLEM, SAME_NAMES_PROOF, SHADOWED_PROBLEM, SHADOWED_PROOF, SPLIT_PROBLEM,
    SPLIT_PROOF, TRUTH_PROBLEM, TRUTH_PROOF, WITNESS_PROBLEM, WITNESS_PROOF,
};
use std::alloc::Global;
use std::process::Abort;
use std::test::Fail;

// A problem, a bound, the status, and what is printed.
const SEARCHES: &[Row] = &[
    (TRUTH_PROBLEM, b"1", 0, TRUTH_PROOF),
    (WITNESS_PROBLEM, b"9", 0, WITNESS_PROOF),
    // the size is summed over the branches
    (SPLIT_PROBLEM, b"6", 0, SPLIT_PROOF),
    (SPLIT_PROBLEM, b"5", 1, b"none up to 5\n"),
    (SPLIT_PROBLEM, b"0", 1, b"none up to 0\n"),
    // falsehood ends a proof
    (FALSEHOOD_PROBLEM, b"3", 0, FALSEHOOD_PROOF),
    (FALSEHOOD_PROBLEM, b"2", 1, b"none up to 2\n"),
    // a predicate or its complement holds
    (COMPLEMENT_PROBLEM, b"5", 0, COMPLEMENT_PROOF),
    (COMPLEMENT_PROBLEM, b"4", 1, b"none up to 4\n"),
    // equality has axioms of its own
    (EQUALITY_PROBLEM, b"3", 1, b"none up to 3\n"),
    (SHADOWED_PROBLEM, b"5", 0, SHADOWED_PROOF),
    (SAME_NAMES_PROBLEM, b"2", 0, SAME_NAMES_PROOF),
    // nothing follows from nothing
    (b"", b"200", 1, b"none up to 200\n"),
    // the widest form
    (WIDEST, b"1", 1, b"none up to 1\n"),
];

const BICONDITIONAL: &[u8] = b"fof(d,axiom,! [X] : (p(X) <=> ? [Y] : r(X,Y))).
fof(e,axiom,r(c,c)). fof(g,conjecture,p(c)).";

// The same for formulas that have several forms.
const MANY_FORMS: &[Row] = &[
    (
        b"fof(a,axiom,! [X] : p(X) & q).",
        b"1",
        1,
        b"none up to 1\n",
    ),
    (
        b"fof(a,axiom,! [X] : p(X) & q). fof(g,conjecture,q).",
        b"2",
        0,
        b"vernacular 1.
take [].
mp a:2 [] new [] gives q.
as 1 [].
",
    ),
    (BICONDITIONAL, b"2", 1, b"none up to 2\n"),
    (
        BICONDITIONAL,
        b"3",
        0,
        b"vernacular 1.
take [].
mp e [] new [] gives r(c,c).
mp d:2 [c,c] new [] gives p(c).
as 1 [].
",
    ),
];

/// Seeks a proof of the problem of each row, within its bound, and looks at the status and at what
/// is put to the output.
fn assert_sought(rt: &impl Abort, alloc: Global, rows: &[Row]) -> Result<(), Fail> {
    for (problem, most, status, text) in rows {
        let files = files_of(alloc, problem, b"")?;
        let words: [&[u8]; 3] = [b"prove", b"x.p", *most];
        assert_ends(rt, alloc, &words, files, (*status, *text, b""))?;
    }
    Ok(())
}

#[test]
fn a_smallest_proof_is_printed_or_none(rt: HostRuntime) -> Result<(), Fail> {
    assert_sought(&rt, rt.alloc(), SEARCHES)?;
    assert_sought(&rt, rt.alloc(), MANY_FORMS)
}

#[test]
fn two_searches_print_the_same_proof(rt: HostRuntime) -> Result<(), Fail> {
    let words: &[&[u8]] = &[b"prove", b"x.p", b"4"];
    let proof = printed(
        rt.alloc(),
        words,
        files_of(rt.alloc(), EQUALITY_PROBLEM, b"")?,
    )?;
    let files = files_of(rt.alloc(), EQUALITY_PROBLEM, b"")?;
    assert_ends(&rt, rt.alloc(), words, files, (0, proof.as_slice(), b""))?;
    let last: &[u8] = b"\nmp $sub(p,1,1) [a,b] new [] gives p(b).\nas 1 [].\n";
    assert!(rt; proof.as_slice().ends_with(last));
    let files = files_of(rt.alloc(), EQUALITY_PROBLEM, proof.as_slice())?;
    assert_ends(&rt, rt.alloc(), CHECK, files, (0, b"accepted 4\n", b""))
}

/// So many premises, each with as many alternatives as there are choices of one side in so many
/// disjunctions.
fn alternatives(alloc: Global, premises: u32, disjunctions: u32) -> Result<Bytes, Fail> {
    let mut formula = Bytes::from_slice(alloc, b"fof(a,axiom,((p|q)")?;
    formula.extend_from_slice(times(alloc, b"&(p|q)", disjunctions)?.as_slice())?;
    formula.extend_from_slice(b") => r).")?;
    times(alloc, formula.as_slice(), premises)
}

#[test]
fn the_forms_of_a_problem_are_limited(rt: HostRuntime) -> Result<(), Fail> {
    // one disjunction and so many more, for so many premises
    let rows: [(u32, u32, u8, &[u8], &[u8]); 3] = [
        (1, 10, 2, b"", b"formula 1: 17 TooWide\n"),
        (64, 9, 1, b"none up to 0\n", b""),
        (65, 9, 2, b"", b"formula 65: 46 TooManyForms\n"),
    ];
    for (premises, disjunctions, status, out, errs) in rows {
        let problem = alternatives(rt.alloc(), premises, disjunctions)?;
        let files = files_of(rt.alloc(), problem.as_slice(), b"")?;
        assert_ends(&rt, rt.alloc(), SEARCH, files, (status, out, errs))?;
    }
    Ok(())
}
