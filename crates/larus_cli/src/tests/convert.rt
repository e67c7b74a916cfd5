//! `convert`.

use super::check::{NAMED, NAMED_SHOWN, OTHER_NAME};
use super::running::{
    CONVERT, FROM_ISAR, Row, VERNACULAR, VERSION2, assert_answered, assert_ends, assert_refused,
    files_of, times,
};
use io_core::MemoryFiles;
use logic_core::Bytes;
use problem_suite::examples::{
    GEOMETRY_CANONICAL, GEOMETRY_PROBLEM, GEOMETRY_PROOF, LEAST_PROOFS,
    ONE_AXIOM_PROBLEM as PROBLEM, SIBLINGS_PROBLEM, SIBLINGS_PROOF, SPLIT_ISAR, SPLIT_PROBLEM,
    SPLIT_PROOF,
};
use std::alloc::Global;
use std::process::Abort;
use std::test::Fail;
use text_core::{MOST_FILE_BYTES, MOST_FORMULAS};

const WITNESSES_LISTED: &[u8] = b"vernacular 1.
take [].
mp a1 [] new [] gives p(c) | q(c).
cs 1.
case p(c).
  mp a2 [c] new [w1] gives r(c,w1).
  as 1 [c,w1].
case q(c).
  mp a3 [c] new [w1] gives r(c,w1).
  as 1 [c,w1].
end.
";

const WITNESSES_NAMED: &[u8] = b"vernacular 2.
take [].
mp a1 with [] new [] gives p(c) | q(c).
cs 1.
case p(c).
  mp a2 with [X = c] new [w1] gives r(c,w1).
  as 1 [c,w1].
case q(c).
  mp a3 with [X = c] new [w1] gives r(c,w1).
  as 1 [c,w1].
end.
";

// Conversions of proofs to the first version.
const LISTINGS: &[Row] = &[
    // a proof is printed with printed names, behind its comments
    (GEOMETRY_PROBLEM, GEOMETRY_PROOF, 0, GEOMETRY_CANONICAL),
    // what was printed is printed as it is
    (GEOMETRY_PROBLEM, GEOMETRY_CANONICAL, 0, GEOMETRY_CANONICAL),
    // witnesses have printed names too
    (SIBLINGS_PROBLEM, SIBLINGS_PROOF, 0, WITNESSES_LISTED),
    (SIBLINGS_PROBLEM, WITNESSES_LISTED, 0, WITNESSES_LISTED),
    // the second version as the first, with lines and facts and without
    (SPLIT_PROBLEM, NAMED_SHOWN, 0, SPLIT_PROOF),
    (SPLIT_PROBLEM, NAMED, 0, SPLIT_PROOF),
    // a proof that is refused is not printed
    (
        SPLIT_PROBLEM,
        OTHER_NAME,
        1,
        b"refused 3 mp 48 VariableUnknown 1\n",
    ),
];

// Conversions of proofs to the second version.
const NAMINGS: &[Row] = &[
    (SPLIT_PROBLEM, SPLIT_PROOF, 0, NAMED_SHOWN),
    (SPLIT_PROBLEM, NAMED, 0, NAMED_SHOWN),
    // what was printed is printed as it is
    (SPLIT_PROBLEM, NAMED_SHOWN, 0, NAMED_SHOWN),
    // witnesses have printed names too
    (SIBLINGS_PROBLEM, SIBLINGS_PROOF, 0, WITNESSES_NAMED),
    (SIBLINGS_PROBLEM, WITNESSES_NAMED, 0, WITNESSES_NAMED),
    // a proof that is refused is not printed
    (
        SPLIT_PROBLEM,
        OTHER_NAME,
        1,
        b"refused 3 mp 48 VariableUnknown 1\n",
    ),
];

// Problems, beside no proof, and their canonical texts.
const CONVERSIONS: &[Row] = &[
    // a canonical text stays as it is
    (
        b"fof(a,axiom,! [X] : p(X) & q).",
        b"",
        0,
        b"fof(a,axiom,! [X] : p(X) & q).\n",
    ),
    // brackets, quotes and annotations that the canonical text leaves out
    (
        b"fof('abc',axiom,(~ (a = b)) <= ((p & (q))),file('x.p',u)).\nfof(12,lemma,'A b'('it\\'s')).",
        b"",
        0,
        b"fof(abc,axiom,a != b <= (p & q)).\nfof(12,lemma,'A b'('it\\'s')).\n",
    ),
    // nothing is printed for no formulas
    (b"", b"", 0, b""),
    // a selection takes the formulas that it names
    (
        b"include('ax.p',[v,zzz]). fof(g,conjecture,q(c)).",
        b"",
        0,
        b"fof(v,axiom,q(c)).\nfof(g,conjecture,q(c)).\n",
    ),
];

// The Isar text of the proof of one axiom, with its last line, without it, and with it twice.
const ONE_AXIOM_ISAR: &[u8] = b"lemma larus:
  fixes c
  assumes A1: \"p c\"
  assumes L0: \"True\"
  shows \"p c\"
proof -
  have L1: \"p c\" using A1 (* [] *) by blast
  show ?thesis using L1 (* as 1 [] *) by blast
qed
";

const UNFINISHED_ISAR: &[u8] = b"lemma larus:
  fixes c
  assumes A1: \"p c\"
  assumes L0: \"True\"
  shows \"p c\"
proof -
  have L1: \"p c\" using A1 (* [] *) by blast
  show ?thesis using L1 (* as 1 [] *) by blast
";

const TWICE_ENDED_ISAR: &[u8] = b"lemma larus:
  fixes c
  assumes A1: \"p c\"
  assumes L0: \"True\"
  shows \"p c\"
proof -
  have L1: \"p c\" using A1 (* [] *) by blast
  show ?thesis using L1 (* as 1 [] *) by blast
qed
qed
";

const ONE_AXIOM_CANONICAL: &[u8] = b"vernacular 1.
take [].
mp a1 [] new [] gives p(c).
as 1 [].
";

#[test]
fn a_problem_is_printed(rt: HostRuntime) -> Result<(), Fail> {
    assert_answered(&rt, rt.alloc(), CONVERT, CONVERSIONS)
}

#[test]
fn a_proof_is_printed_in_either_version(rt: HostRuntime) -> Result<(), Fail> {
    assert_answered(&rt, rt.alloc(), VERNACULAR, LISTINGS)?;
    assert_answered(&rt, rt.alloc(), VERSION2, NAMINGS)
}

#[test]
fn an_isar_text_is_converted(rt: HostRuntime) -> Result<(), Fail> {
    let rows: &[Row] = &[
        (PROBLEM, ONE_AXIOM_ISAR, 0, ONE_AXIOM_CANONICAL),
        (SPLIT_PROBLEM, SPLIT_ISAR, 0, SPLIT_PROOF),
    ];
    assert_answered(&rt, rt.alloc(), FROM_ISAR, rows)
}

#[test]
fn another_isar_text_is_refused(rt: HostRuntime) -> Result<(), Fail> {
    let rows: &[Row] = &[
        (PROBLEM, b"", 3, b"x.v:0: 43 IsarHead\n"),
        (PROBLEM, UNFINISHED_ISAR, 3, b"x.v:177: 42 IsarSyntax\n"),
        (PROBLEM, TWICE_ENDED_ISAR, 3, b"x.v:181: 42 IsarSyntax\n"),
    ];
    assert_refused(&rt, rt.alloc(), FROM_ISAR, rows)
}

#[test]
fn least_proofs_are_printed_as_they_are(rt: HostRuntime) -> Result<(), Fail> {
    for (problem, proof, _) in LEAST_PROOFS {
        let files = files_of(rt.alloc(), problem, proof)?;
        assert_ends(&rt, rt.alloc(), VERNACULAR, files, (0, proof, b""))?;
    }
    Ok(())
}

/// As many blanks as a file may have bytes.
fn full_file(alloc: Global) -> Result<Bytes, Fail> {
    let block = times(alloc, b" ", 4096)?;
    times(alloc, block.as_slice(), MOST_FILE_BYTES / 4096)
}

/// Asserts that the conversion of a problem beside a file `b` of the greatest length is refused
/// with this text.
fn assert_too_large(
    rt: &impl Abort,
    alloc: Global,
    problem: &[u8],
    text: &[u8],
) -> Result<(), Fail> {
    let mut files = MemoryFiles::new(alloc);
    files.insert(b"x.p", problem)?;
    files.insert(b"b", full_file(alloc)?.as_slice())?;
    assert_ends(rt, alloc, CONVERT, files, (2, b"", text))
}

#[test]
fn a_file_that_is_too_long_is_refused(rt: HostRuntime) -> Result<(), Fail> {
    let mut long = full_file(rt.alloc())?;
    long.push(b' ')?;
    assert_too_large(&rt, rt.alloc(), long.as_slice(), b"x.p: 12 FileTooLong\n")?;
    let twice = b"include('b'). include('b').";
    assert_too_large(&rt, rt.alloc(), twice, b"b: 13 AllTooLong\n")
}

#[test]
fn a_problem_with_too_many_formulas_is_refused(rt: HostRuntime) -> Result<(), Fail> {
    let many = times(rt.alloc(), b"fof(a,axiom,p).", MOST_FORMULAS + 1)?;
    let text = b"x.p: 15 TooManyFormulas\n";
    assert_too_large(&rt, rt.alloc(), many.as_slice(), text)
}
