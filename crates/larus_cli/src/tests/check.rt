//! `check`.

use super::running::{CHECK, Row, assert_answered, assert_ends, files_of, times};
use logic_core::Bytes;
use problem_suite::examples::{
    GEOMETRY_PROBLEM, GEOMETRY_PROOF, ONE_AXIOM_PROBLEM as PROBLEM, ONE_AXIOM_PROOF as PROOF,
    PARAMETER_PROBLEM, SAME_NAMES_PROBLEM, SAME_NAMES_PROOF, SIBLINGS_PROBLEM, SIBLINGS_PROOF,
    SPLIT_PROBLEM, TAKEN_WITNESS_PROBLEM, TAKEN_WITNESS_PROOF,
};
use std::alloc::Global;
use std::process::Abort;
use std::test::Fail;
use text_core::{MOST_APPLICATIONS, MOST_SPLITS};

const TWO_AXIOMS: &[u8] = b"fof(a1,axiom,p(c)). fof(a2,axiom,q(c)). fof(g,conjecture,q(c)).";

const SECOND_PROOF: &[u8] = b"vernacular 1. take []. mp a2 [] new [] gives q(c). as 1 [].";

pub(super) const NAMED_SHOWN: &[u8] = b"vernacular 2.
take [].
mp a1 with [] new [] gives p(c) | q(c).
cs 1.
case p(c).
  mp a2 with [X = c] new [] gives r(c).
  as 1 [].
case q(c).
  mp a3 with [X = c] new [] gives r(c).
  as 1 [].
end.
";

pub(super) const NAMED: &[u8] = b"vernacular 2. take []. mp a1 with [] new []. cs 1.
case. mp a2 with [X = c] new []. as 1 []. case. mp a3 with [X = c] new []. as 1 []. end.";

pub(super) const OTHER_NAME: &[u8] = b"vernacular 2. take []. mp a1 with [] new []. cs 1.
case. mp a2 with [Y = c] new []. as 1 []. case. mp a3 with [X = c] new []. as 1 []. end.";

const CHECKS: &[Row] = &[
    // the cited axiom is the conjecture
    (PROBLEM, PROOF, 0, b"accepted 2\n"),
    // so is the second one
    (TWO_AXIOMS, SECOND_PROOF, 0, b"accepted 2\n"),
    // the first one is not
    (TWO_AXIOMS, PROOF, 1, b"refused 2 as 40 AtomMissing 1\n"),
    // of two axioms with one name the second is cited by its rank
    (SAME_NAMES_PROBLEM, SAME_NAMES_PROOF, 0, b"accepted 2\n"),
    // a new name is no constant
    (
        TAKEN_WITNESS_PROBLEM,
        TAKEN_WITNESS_PROOF,
        1,
        b"refused 1 mp 31 WitnessTaken\n",
    ),
    // each case names its own elements
    (SIBLINGS_PROBLEM, SIBLINGS_PROOF, 0, b"accepted 6\n"),
    // a statement of geometry, with equality and an included file
    (GEOMETRY_PROBLEM, GEOMETRY_PROOF, 0, b"accepted 13\n"),
    // the second version, with lines and facts and without
    (SPLIT_PROBLEM, NAMED_SHOWN, 0, b"accepted 6\n"),
    (SPLIT_PROBLEM, NAMED, 0, b"accepted 6\n"),
    // the axiom has no variable of that name
    (
        SPLIT_PROBLEM,
        OTHER_NAME,
        1,
        b"refused 3 mp 48 VariableUnknown 1\n",
    ),
    // no variable has two values
    (
        b"fof(a1,axiom,! [X,Y] : s(X,Y)). fof(g,conjecture,s(c,c)).",
        b"vernacular 2. take []. mp a1 with [X = c,X = c] new []. as 1 [].",
        1,
        b"refused 1 mp 49 VariableTwice 2\n",
    ),
    // two variables of one name are told apart by rank
    (
        b"fof(a1,axiom,! [X] : ! [X] : p(X)). fof(g,conjecture,p(d) | q(c)).",
        b"vernacular 2. take []. mp a1 with [X = c,X:2 = d] new []. as 1 [].",
        0,
        b"accepted 2\n",
    ),
    // a gap stands for no proof
    (
        PROBLEM,
        b"vernacular 2. take []. gap 3.",
        1,
        b"refused 1 gap 50 GapOpen\n",
    ),
];

// The parts of a proof for a problem with a parameter.
const PARTS: &[&[u8]] = &[
    b"vernacular 1.",
    b"take [z].",
    b"mp a1 [] new [] gives p(c) | q(c).",
    b"cs 1.",
    b"case p(c).",
    b"mp a2 [c] new [] gives r(c).",
    b"as 1 [c].",
    b"case q(c).",
    b"mp a3 [c] new [w] gives s(c,w).",
    b"as 2 [w].",
    b"end.",
];

// Texts in place of the parts from one to another, with the status and what is put to the output.
const CHANGES: &[(usize, usize, &[u8], u8, &[u8])] = &[
    (0, 0, b"vernacular 1.", 0, b"accepted 6\n"),
    (1, 1, b"take [].", 1, b"refused 0 take 24 ParameterCount\n"),
    (1, 1, b"take [c].", 1, b"refused 0 take 25 NameTaken\n"),
    (
        2,
        2,
        b"mp a9 [] new [] gives p(c) | q(c).",
        1,
        b"refused 1 mp 26 UnknownAxiom\n",
    ),
    (
        2,
        2,
        b"mp a1 [c] new [] gives p(c) | q(c).",
        1,
        b"refused 1 mp 27 InstanceCount\n",
    ),
    (
        5,
        5,
        b"mp a2 [k] new [] gives r(c).",
        1,
        b"refused 3 mp 28 InstanceUnknown\n",
    ),
    (
        8,
        8,
        b"mp a2 [c] new [] gives r(c).",
        1,
        b"refused 5 mp 29 PremiseMissing 1\n",
    ),
    (
        8,
        8,
        b"mp a3 [c] new [] gives s(c,w).",
        1,
        b"refused 5 mp 30 WitnessCount\n",
    ),
    (
        8,
        8,
        b"mp a3 [c] new [z] gives s(c,w).",
        1,
        b"refused 5 mp 31 WitnessTaken\n",
    ),
    (
        5,
        5,
        b"mp a2 [c] new [] gives r(z).",
        1,
        b"refused 3 mp 32 ShownDiffers\n",
    ),
    (3, 3, b"cs 2.", 1, b"refused 2 cs 33 NoSuchLine\n"),
    (3, 3, b"cs 0.", 1, b"refused 2 cs 34 NotCases\n"),
    (7, 9, b"", 1, b"refused 2 cs 35 BranchCount\n"),
    (7, 7, b"case p(c).", 1, b"refused 2 cs 36 CaseDiffers 2\n"),
    (6, 6, b"as 3 [c].", 1, b"refused 4 as 37 NoSuchDisjunct\n"),
    (6, 6, b"as 1 [].", 1, b"refused 4 as 38 AnswerCount\n"),
    (9, 9, b"as 2 [k].", 1, b"refused 6 as 39 AnswerUnknown\n"),
    (9, 9, b"as 2 [z].", 1, b"refused 6 as 40 AtomMissing 1\n"),
    (6, 6, b"efq.", 1, b"refused 4 efq 41 NoFalsum\n"),
];

#[test]
fn a_proof_is_accepted_or_refused(rt: HostRuntime) -> Result<(), Fail> {
    assert_answered(&rt, rt.alloc(), CHECK, CHECKS)
}

/// The parts of a proof, with a text in place of those from one to another.
fn changed(alloc: Global, first: usize, last: usize, text: &[u8]) -> Result<Bytes, Fail> {
    let mut all = Bytes::new(alloc);
    for (number, part) in PARTS.iter().enumerate() {
        if number == first {
            all.extend_from_slice(text)?;
        }
        if number < first || last < number {
            all.extend_from_slice(part)?;
        }
        all.push(b' ')?;
    }
    Ok(all)
}

#[test]
fn a_step_is_refused_for_its_first_check_that_fails(rt: HostRuntime) -> Result<(), Fail> {
    for (first, last, text, status, answer) in CHANGES {
        let proof = changed(rt.alloc(), *first, *last, text)?;
        let files = files_of(rt.alloc(), PARAMETER_PROBLEM, proof.as_slice())?;
        assert_ends(&rt, rt.alloc(), CHECK, files, (*status, answer, b""))?;
    }
    Ok(())
}

/// Asserts that a proof that begins with this text, so many times, is refused with this text.
fn assert_too_many(
    rt: &impl Abort,
    alloc: Global,
    (text, count): (&[u8], u32),
    answer: &[u8],
) -> Result<(), Fail> {
    let mut proof = Bytes::from_slice(alloc, b"vernacular 1. take []. ")?;
    proof.extend_from_slice(times(alloc, text, count)?.as_slice())?;
    let files = files_of(alloc, PROBLEM, proof.as_slice())?;
    assert_ends(rt, alloc, CHECK, files, (3, b"", answer))
}

#[test]
fn a_proof_that_is_too_large_is_refused(rt: HostRuntime) -> Result<(), Fail> {
    let step: &[u8] = b"mp a1 [] new [] gives p(c). ";
    assert_too_many(
        &rt,
        rt.alloc(),
        (step, MOST_APPLICATIONS + 1),
        b"x.v:1835031: 22 ProofTooLarge\n",
    )?;
    let split: &[u8] = b"cs 1. case p(c). ";
    assert_too_many(
        &rt,
        rt.alloc(),
        (split, MOST_SPLITS + 1),
        b"x.v:3423: 23 CasesTooDeep\n",
    )
}
