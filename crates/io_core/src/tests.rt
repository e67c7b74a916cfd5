use crate::{
    FetchFault, Files, MemoryFiles, MemorySink, RealFiles, Sink, SinkFault, StreamSink, fetch_whole,
};
use std::fs;
use std::fs::File;
use std::test::Fail;
use text_core::{Bytes, Memory};

const PROBLEM: &[u8] = b"fof(a1,axiom,p(c)).";

// The bytes of a file, fetched through the trait.
fn fetched<F: Files>(
    rt: &HostRuntime,
    files: &mut F,
    name: &[u8],
    most: u32,
) -> Result<Bytes, FetchFault> {
    let mut into = Bytes::from_slice(rt.alloc(), b"before ")?;
    files.fetch(rt.alloc(), name, most, &mut into)?;
    Ok(into)
}

// Whether a sink took a piece, through the trait.
fn takes<S: Sink>(sink: &mut S, piece: &[u8]) -> bool {
    sink.put(piece).is_ok()
}

#[test]
fn memory_files_fail_where_told(rt: HostRuntime) -> Result<(), Fail> {
    let mut files = MemoryFiles::new(rt.alloc());
    files.insert(b"x.p", b"old")?;
    files.insert(b"x.p", PROBLEM)?;
    files.fail_at(1)?;
    let whole = fetched(&rt, &mut files, b"x.p", 19)?;
    assert_eq!(rt; whole.as_slice(), b"before fof(a1,axiom,p(c)).".as_slice());
    for (name, most) in [(b"x.p".as_slice(), 19), (b"x.v".as_slice(), 19)] {
        let answer = fetched(&rt, &mut files, name, most);
        assert!(rt; matches!(&answer, Err(FetchFault::Failed)));
    }
    let answer = fetched(&rt, &mut files, b"x.p", 18);
    assert!(rt; matches!(&answer, Err(FetchFault::TooLong)));
    Ok(())
}

#[test]
fn memory_sink_keeps_a_prefix(rt: HostRuntime) -> Result<(), Fail> {
    let mut sink = MemorySink::new(rt.alloc(), 10)?;
    sink.fail_at(0, 2)?;
    assert!(rt; takes(&mut sink, b""));
    assert!(rt; !takes(&mut sink, b"44 Usage"));
    assert_eq!(rt; sink.contents(), b"44".as_slice());
    assert!(rt; takes(&mut sink, b" Usage"));
    assert!(rt; !takes(&mut sink, b": check"));
    assert_eq!(rt; sink.contents(), b"44 Usage: ".as_slice());
    Ok(())
}

#[test]
fn real_files_and_streams(rt: HostRuntime) -> Result<(), Fail> {
    let mut sink = StreamSink::new(File::create(&rt, "x.p")?);
    assert!(rt; takes(&mut sink, b"fof(a1,axiom,"));
    assert!(rt; takes(&mut sink, b"p(c))."));
    let mut files = RealFiles::new(&rt);
    let whole = fetched(&rt, &mut files, b"x.p", 19)?;
    assert_eq!(rt; whole.as_slice(), b"before fof(a1,axiom,p(c)).".as_slice());
    let alone = fetch_whole(rt.alloc(), &mut files, b"x.p")?;
    assert_eq!(rt; alone.as_slice(), PROBLEM);
    let answer = fetched(&rt, &mut files, b"x.p", 18);
    assert!(rt; matches!(&answer, Err(FetchFault::TooLong)));
    for name in [b"x.v".as_slice(), b"\xff".as_slice()] {
        let answer = fetched(&rt, &mut files, name, 19);
        assert!(rt; matches!(&answer, Err(FetchFault::Failed)));
    }
    let mut read_only = StreamSink::new(File::open(&rt, "x.p")?);
    assert!(rt; !takes(&mut read_only, b"x"));
    fs::remove_file(&rt, "x.p")?;
    Ok(())
}
