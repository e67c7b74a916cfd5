//! Words, and texts of reports.

use super::running::{
    CHECK, CONFIRM, CONVERT, ENGLISH, FROM_ISAR, ISAR, REFUTE, VERNACULAR, VERSION2, assert_ends,
    command,
};
use crate::{Command, ProofRefusal, ProofWhy, Report, message};
use io_core::MemoryFiles;
use logic_core::Bytes;
use std::test::Fail;

#[test]
fn other_words_get_the_usage_text(rt: HostRuntime) -> Result<(), Fail> {
    assert_ends(
        &rt,
        rt.alloc(),
        &[b"convert", b"formula", b"x.p"],
        MemoryFiles::new(rt.alloc()),
        (
            64,
            b"",
            b"44 Usage
check PROBLEM PROOF
prove PROBLEM MOST
export isar PROBLEM PROOF
export english PROBLEM PROOF
convert problem PROBLEM
convert vernacular PROBLEM PROOF
convert isar PROBLEM ISARTEXT
demo K
convert version2 PROBLEM PROOF
refute PROBLEM SIZE
confirm PROBLEM MODEL
",
        ),
    )
}

#[test]
fn words_and_texts(rt: HostRuntime) -> Result<(), Fail> {
    let rows: [(&[&[u8]], Option<Command>); 17] = [
        (CHECK, Some(Command::Check)),
        (CONVERT, Some(Command::ConvertProblem)),
        (ISAR, Some(Command::ExportIsar)),
        (ENGLISH, Some(Command::ExportEnglish)),
        (&[b"export", b"vernacular", b"x.p", b"x.v"], None),
        (VERNACULAR, Some(Command::ConvertVernacular)),
        (FROM_ISAR, Some(Command::ConvertIsar)),
        (&[b"convert", b"english", b"x.p", b"x.v"], None),
        (VERSION2, Some(Command::ConvertVersion2)),
        (&[b"convert", b"vernacular", b"x.p"], None),
        (&[b"convert", b"problem", b"x.p", b"x.v"], None),
        (&[b"demo"], None),
        (&[b"demo", b"2", b"2"], None),
        (REFUTE, Some(Command::Refute(2))),
        (&[b"refute", b"x.p"], None),
        (CONFIRM, Some(Command::Confirm)),
        (&[b"confirm", b"x.p"], None),
    ];
    for (texts, want) in rows {
        assert_eq!(rt; command(rt.alloc(), texts)?, want);
    }
    let file = Bytes::from_slice(rt.alloc(), b"x.v")?;
    let why = ProofWhy::FileTooLong;
    let text = message(rt.alloc(), Report::ProofFile(ProofRefusal { file, why }))?;
    assert_eq!(rt; text.as_slice(), b"x.v: 12 FileTooLong\n".as_slice());
    Ok(())
}

#[test]
fn numbers_are_decimal_and_within_their_bounds(rt: HostRuntime) -> Result<(), Fail> {
    let rows: [(&[u8], Option<Command>, Option<Command>); 11] = [
        (b"0", Some(Command::Prove(0)), None),
        (b"1", Some(Command::Prove(1)), Some(Command::Demo(1))),
        (b"200", Some(Command::Prove(200)), Some(Command::Demo(200))),
        (b"201", None, Some(Command::Demo(201))),
        (b"50000", None, Some(Command::Demo(50_000))),
        (b"50001", None, None),
        (b"06", None, None),
        (b"00", None, None),
        (b"+6", None, None),
        (b"", None, None),
        (b"4294967297", None, None),
    ];
    for (number, sought, shown) in rows {
        assert_eq!(rt; command(rt.alloc(), &[b"prove", b"x.p", number])?, sought);
        assert_eq!(rt; command(rt.alloc(), &[b"demo", number])?, shown);
    }
    Ok(())
}

#[test]
fn sizes_are_from_1_to_8(rt: HostRuntime) -> Result<(), Fail> {
    let rows: [(&[u8], Option<Command>); 5] = [
        (b"0", None),
        (b"1", Some(Command::Refute(1))),
        (b"8", Some(Command::Refute(8))),
        (b"9", None),
        (b"02", None),
    ];
    for (size, sought) in rows {
        assert_eq!(rt; command(rt.alloc(), &[b"refute", b"x.p", size])?, sought);
    }
    Ok(())
}
