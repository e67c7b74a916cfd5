//! Files and sinks that fail.

use super::running::{CHECK, assert_ends, assert_puts, files_of, sink};
use io_core::MemoryFiles;
use problem_suite::examples::{ONE_AXIOM_PROBLEM as PROBLEM, ONE_AXIOM_PROOF as PROOF};
use std::alloc::Global;
use std::test::Fail;

/// A proof of a problem in three files.
fn four_files(alloc: Global) -> Result<MemoryFiles, Fail> {
    let problem = b"include('a'). include('b'). fof(g,conjecture,p(c)).";
    let mut files = files_of(alloc, problem, PROOF)?;
    files.insert(b"a", b"fof(a1,axiom,p(c)).")?;
    files.insert(b"b", b"")?;
    Ok(files)
}

#[test]
fn a_failing_fetch_is_told_by_its_file(rt: HostRuntime) -> Result<(), Fail> {
    let rows: [(u32, &[u8]); 4] = [
        (0, b"x.p: 11 FileFault\n"),
        (1, b"a: 11 FileFault\n"),
        (2, b"b: 11 FileFault\n"),
        (3, b"x.v: 11 FileFault\n"),
    ];
    for (fetch, text) in rows {
        let mut files = four_files(rt.alloc())?;
        files.fail_at(fetch)?;
        assert_ends(&rt, rt.alloc(), CHECK, files, (66, b"", text))?;
    }
    let files = four_files(rt.alloc())?;
    assert_ends(&rt, rt.alloc(), CHECK, files, (0, b"accepted 2\n", b""))
}

#[test]
fn a_failing_output_holds_a_part_of_the_answer(rt: HostRuntime) -> Result<(), Fail> {
    let answer = b"accepted 2\n";
    for kept in 0u32..11 {
        let mut out = sink(rt.alloc())?;
        out.fail_at(0, kept)?;
        let sinks = (out, sink(rt.alloc())?);
        let files = files_of(rt.alloc(), PROBLEM, PROOF)?;
        let want: (u8, &[u8], &[u8]) = (74, &answer[..kept as usize], b"");
        assert_puts(&rt, rt.alloc(), CHECK, files, sinks, want)?;
    }
    Ok(())
}

#[test]
fn a_failing_usage_text_gives_74(rt: HostRuntime) -> Result<(), Fail> {
    let mut errs = sink(rt.alloc())?;
    errs.fail_at(0, 2)?;
    let sinks = (sink(rt.alloc())?, errs);
    let files = MemoryFiles::new(rt.alloc());
    assert_puts(&rt, rt.alloc(), &[], files, sinks, (74, b"", b"44"))
}
