//! Runs of the program over files in memory, and what their words, files and answers are.

use crate::{Command, read_words, run};
use io_core::{MemoryFiles, MemorySink};
use logic_core::{AnyWorld, Bytes, List};
use problem_suite::examples::GEOMETRY_AXIOMS;
use std::alloc::Global;
use std::process::Abort;
use std::test::Fail;

pub(super) const CHECK: &[&[u8]] = &[b"check", b"x.p", b"x.v"];

pub(super) const CONVERT: &[&[u8]] = &[b"convert", b"problem", b"x.p"];

pub(super) const ISAR: &[&[u8]] = &[b"export", b"isar", b"x.p", b"x.v"];

pub(super) const ENGLISH: &[&[u8]] = &[b"export", b"english", b"x.p", b"x.v"];

pub(super) const VERNACULAR: &[&[u8]] = &[b"convert", b"vernacular", b"x.p", b"x.v"];

pub(super) const FROM_ISAR: &[&[u8]] = &[b"convert", b"isar", b"x.p", b"x.v"];

pub(super) const VERSION2: &[&[u8]] = &[b"convert", b"version2", b"x.p", b"x.v"];

pub(super) const REFUTE: &[&[u8]] = &[b"refute", b"x.p", b"2"];

pub(super) const CONFIRM: &[&[u8]] = &[b"confirm", b"x.p", b"x.v"];

pub(super) const SEARCH: &[&[u8]] = &[b"prove", b"x.p", b"0"];

// Tables are flat: one with lists in its rows takes long to prove.

// A problem and a proof, with the status and what is printed.
pub(super) type Row = (&'static [u8], &'static [u8], u8, &'static [u8]);

fn words_of(alloc: Global, texts: &[&[u8]]) -> Result<List<Bytes>, Fail> {
    let mut words = List::new(alloc);
    for text in texts {
        words.push(Bytes::from_slice(alloc, text)?)?;
    }
    Ok(words)
}

/// The command that these words are.
pub(super) fn command(alloc: Global, texts: &[&[u8]]) -> Result<Option<Command>, Fail> {
    let words = words_of(alloc, texts)?;
    Ok(read_words(words.as_slice()))
}

/// The files that problems include.
fn included(alloc: Global) -> Result<MemoryFiles, Fail> {
    let mut files = MemoryFiles::new(alloc);
    files.insert(b"tarski.ax", GEOMETRY_AXIOMS)?;
    files.insert(b"ax.p", b"fof(u,axiom,p(c)). fof(v,axiom,q(c)).")?;
    Ok(files)
}

/// A problem and a proof, beside the files that problems include.
pub(super) fn files_of(alloc: Global, problem: &[u8], proof: &[u8]) -> Result<MemoryFiles, Fail> {
    let mut files = included(alloc)?;
    files.insert(b"x.p", problem)?;
    files.insert(b"x.v", proof)?;
    Ok(files)
}

/// A sink with room for 1,024 bytes.
pub(super) fn sink(alloc: Global) -> Result<MemorySink, Fail> {
    Ok(MemorySink::new(alloc, 1024)?)
}

/// Runs the program, and looks at its status and at what the output and the errors hold.
pub(super) fn assert_ends(
    rt: &impl Abort,
    alloc: Global,
    texts: &[&[u8]],
    files: MemoryFiles,
    want: (u8, &[u8], &[u8]),
) -> Result<(), Fail> {
    assert_puts(rt, alloc, texts, files, (sink(alloc)?, sink(alloc)?), want)
}

/// Runs the program over these sinks, an output and one for errors, and looks at its status and at
/// what they hold.
pub(super) fn assert_puts(
    rt: &impl Abort,
    alloc: Global,
    texts: &[&[u8]],
    mut files: MemoryFiles,
    (mut out, mut errs): (MemorySink, MemorySink),
    want: (u8, &[u8], &[u8]),
) -> Result<(), Fail> {
    let words = words_of(alloc, texts)?;
    let status = run::<AnyWorld, _, _, _>(alloc, words.as_slice(), &mut files, &mut out, &mut errs);
    assert_eq!(rt; errs.contents(), want.2);
    assert_eq!(rt; out.contents(), want.1);
    assert_eq!(rt; status, want.0);
    Ok(())
}

/// Runs the program on these words over the files of each row, and looks at its status and at what
/// it puts to the output.
pub(super) fn assert_answered(
    rt: &impl Abort,
    alloc: Global,
    words: &[&[u8]],
    rows: &[Row],
) -> Result<(), Fail> {
    for (problem, proof, status, text) in rows {
        let files = files_of(alloc, problem, proof)?;
        assert_ends(rt, alloc, words, files, (*status, text, b""))?;
    }
    Ok(())
}

/// Runs the program on these words over the files of each row, and looks at its status and at what
/// it puts to the errors.
pub(super) fn assert_refused(
    rt: &impl Abort,
    alloc: Global,
    words: &[&[u8]],
    rows: &[Row],
) -> Result<(), Fail> {
    for (problem, proof, status, text) in rows {
        let files = files_of(alloc, problem, proof)?;
        assert_ends(rt, alloc, words, files, (*status, b"", text))?;
    }
    Ok(())
}

/// What the program puts to the output for these words.
pub(super) fn printed(
    alloc: Global,
    texts: &[&[u8]],
    mut files: MemoryFiles,
) -> Result<Bytes, Fail> {
    let words = words_of(alloc, texts)?;
    let (mut out, mut errs) = (sink(alloc)?, sink(alloc)?);
    let _status = run::<AnyWorld, _, _, _>(
        alloc,
        words.as_slice(),
        &mut files,
        &mut out,
        &mut errs,
    );
    Ok(Bytes::from_slice(alloc, out.contents())?)
}

/// A text, so many times.
pub(super) fn times(alloc: Global, text: &[u8], count: u32) -> Result<Bytes, Fail> {
    let mut all = Bytes::new(alloc);
    for _ in 0..count {
        all.extend_from_slice(text)?;
    }
    Ok(all)
}
