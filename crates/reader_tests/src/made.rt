use include_flat::flatten;
use io_core::MemoryFiles;
use problem_suite::{MOST_IMPLICATIONS, made_problem, made_proof};
use proof_text::{read_script, write_script};
use std::alloc::Global;
use std::test::Fail;
use text_core::{Bytes, Memory};
use tptp_printer::print_problem;

const PROBLEM: &[u8] = b"fof(a0,axiom,p0(c)).
fof(a1,axiom,! [X] : (p0(X) => p1(X))).
fof(a2,axiom,! [X] : (p1(X) => p2(X))).
fof(g,conjecture,p2(c)).
";

const PROOF: &[u8] = b"vernacular 1.
take [].
mp a0 [] new [] gives p0(c).
mp a1 [c] new [] gives p1(c).
mp a2 [c] new [] gives p2(c).
as 1 [].
";

// Numbers of implications, each with the lengths of the problem and of the proof.
const LENGTHS: &[(u32, usize, usize)] = &[
    (1, 86, 91),
    (2, 126, 121),
    (10_000, 486_728, 357_849),
    (MOST_IMPLICATIONS, 2_566_728, 1_877_849),
];

#[test]
fn two_implications_are_made(rt: HostRuntime) -> Result<(), Fail> {
    assert_eq!(rt; made_problem(rt.alloc(), 2)?.as_slice(), PROBLEM);
    assert_eq!(rt; made_proof(rt.alloc(), 2)?.as_slice(), PROOF);
    Ok(())
}

/// The lengths of a problem and a proof that are made; 0 where there are none.
fn lengths(alloc: Global, implications: u32) -> Result<(usize, usize), Memory> {
    if implications == 0 || implications > MOST_IMPLICATIONS {
        return Ok((0, 0));
    }
    let problem = made_problem(alloc, implications)?;
    let proof = made_proof(alloc, implications)?;
    Ok((problem.len(), proof.len()))
}

#[test]
fn made_texts_have_their_lengths(rt: HostRuntime) -> Result<(), Fail> {
    for (implications, problem, proof) in LENGTHS {
        assert_eq!(rt; lengths(rt.alloc(), *implications)?, (*problem, *proof));
    }
    Ok(())
}

/// The problem as it is printed.
fn printed(alloc: Global, problem: &[u8]) -> Result<Bytes, Memory> {
    let mut files = MemoryFiles::new(alloc);
    files.insert(b"demo.p", problem)?;
    match flatten(alloc, &mut files, b"demo.p") {
        Ok(problem) => print_problem(alloc, &problem),
        Err(_) => Ok(Bytes::new(alloc)),
    }
}

/// The proof as it is written.
fn written(alloc: Global, proof: &Bytes) -> Result<Bytes, Memory> {
    if proof.len() > 1_000_000 {
        return Ok(Bytes::new(alloc));
    }
    match read_script(alloc, proof.as_slice()) {
        Ok(script) => write_script(alloc, &script),
        Err(_) => Ok(Bytes::new(alloc)),
    }
}

#[test]
fn made_texts_are_canonical(rt: HostRuntime) -> Result<(), Fail> {
    let problem = made_problem(rt.alloc(), 1000)?;
    let again = printed(rt.alloc(), problem.as_slice())?;
    assert!(rt; again.as_slice() == problem.as_slice());
    let proof = made_proof(rt.alloc(), 1000)?;
    let again = written(rt.alloc(), &proof)?;
    assert!(rt; again.as_slice() == proof.as_slice());
    Ok(())
}
