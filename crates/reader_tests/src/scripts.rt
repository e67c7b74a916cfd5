use problem_suite::examples::{GEOMETRY_CANONICAL, TRUTH_PROOF};
use proof_text::{ScriptRefusal, read_script, write_script};
use std::alloc::Global;
use std::test::Fail;
use text_core::{Bytes, MOST_SPLITS, Memory};

// Bytes that are no proof text, each with the number and the offset of its refusal.
const REFUSALS: &[(&[u8], u32, u32)] = &[
    // the empty text begins one
    (b"", 20, 0),
    // the first word is `vernacular`
    (b"proof 1.", 20, 0),
    // a version is an integer
    (b"vernacular x.", 20, 11),
    // there is no version 3
    (b"vernacular 3.", 21, 11),
    // nor one with a sign
    (b"vernacular +1.", 21, 11),
    // nor 0
    (b"vernacular 0. take", 21, 11),
    // a dot follows the version
    (b"vernacular 1 take", 20, 13),
    // names are taken in brackets
    (b"vernacular 1. take a.", 20, 19),
    // names have commas between them
    (b"vernacular 1. take [a b].", 20, 22),
    // a comma is followed by a name
    (b"vernacular 1. take [a,].", 20, 22),
    // a variable is no name
    (b"vernacular 1. take [X].", 20, 20),
    // a number is no name
    (b"vernacular 1. take [1].", 20, 20),
    // a text has an end
    (b"vernacular 1. take []. ", 20, 23),
    // the end is not there yet
    (b"vernacular 1. take []. mp a1 [] new [] gives p(c)", 20, 49),
    // an element is named by a word
    (b"vernacular 1. take []. as [1].", 20, 26),
    // a disjunct has no sign
    (b"vernacular 1. take []. as -1 [].", 20, 26),
    // nor is it greater than 2 ^ 32 - 1
    (b"vernacular 1. take []. as 4294967296 [].", 20, 26),
    // behind the end stands nothing
    (b"vernacular 1. take []. efq. efq.", 20, 28),
    // an end has a dot
    (b"vernacular 1. take []. efq as", 20, 27),
    // a gap is in version 2 alone
    (b"vernacular 1. take []. gap 5.", 20, 23),
    // a gap is 1 at least
    (b"vernacular 2. take []. gap 0.", 20, 27),
    // and 200 at most
    (b"vernacular 2. take []. gap 201.", 20, 27),
    // the first version lists names
    (
        b"vernacular 1. take []. mp a with [] new [] gives p. efq.",
        20,
        28,
    ),
    // the second gives values
    (
        b"vernacular 2. take []. mp a [] new [] gives p. efq.",
        20,
        28,
    ),
    // the first version shows each line
    (b"vernacular 1. take []. mp a [] new []. efq.", 20, 37),
    // values are given to variables
    (
        b"vernacular 2. take []. mp a with [x = c] new []. efq.",
        20,
        34,
    ),
    // a variable has a value
    (
        b"vernacular 2. take []. mp a with [X ] new []. efq.",
        20,
        36,
    ),
    // which is a word
    (
        b"vernacular 2. take []. mp a with [X = Y] new []. efq.",
        20,
        38,
    ),
    // a rank is a number
    (
        b"vernacular 1. take []. mp a:b [] new [] gives p. efq.",
        20,
        28,
    ),
    // a bracketed part alone is no line
    (
        b"vernacular 1. take []. mp a [] new [] gives (p & q). efq.",
        20,
        51,
    ),
    // a bracketed part has two atoms
    (
        b"vernacular 1. take []. mp a [] new [] gives (p) | q. efq.",
        20,
        46,
    ),
    // falsehood stands alone
    (
        b"vernacular 1. take []. mp a [] new [] gives $false | q. efq.",
        20,
        51,
    ),
    // `$true` is no atom of facts
    (
        b"vernacular 1. take []. mp a [] new [] gives p & $true. efq.",
        20,
        48,
    ),
    // nor are facts behind it
    (
        b"vernacular 1. take []. mp a [] new [] gives $true & p. efq.",
        20,
        50,
    ),
    // facts in a line of cases have brackets
    (
        b"vernacular 1. take []. mp a [] new [] gives p & q | r. efq.",
        20,
        50,
    ),
    // an equation has no sign
    (
        b"vernacular 1. take []. mp a [] new [] gives ~ a = b. efq.",
        20,
        48,
    ),
    // brackets hold an argument
    (
        b"vernacular 1. take []. mp a [] new [] gives p(). efq.",
        20,
        46,
    ),
    // equality has two arguments
    (
        b"vernacular 1. take []. mp $refl [] new [] gives a = a. mp $sub(=,1,1) [] new [] gives p. efq.",
        20,
        65,
    ),
    // a place is told
    (
        b"vernacular 1. take []. mp $sub(p,1) [] new [] gives p. efq.",
        20,
        34,
    ),
    // `$no` has no sign
    (
        b"vernacular 1. take []. mp $no(~p,1) [] new [] gives p. efq.",
        20,
        30,
    ),
    // no other word behind a dollar
    (
        b"vernacular 1. take []. mp $foo [] new [] gives p. efq.",
        20,
        26,
    ),
    // a case has facts
    (b"vernacular 1. take []. cs 1. case p | q. efq.", 20, 36),
    // a split has a case
    (b"vernacular 1. take []. cs 1. end.", 20, 29),
    // the first version shows a case's facts
    (b"vernacular 1. take []. cs 1. case. efq. end.", 20, 33),
    // a split is closed
    (b"vernacular 1. take []. cs 1. case p. efq.", 20, 41),
];

// Canonical texts, which are read and written as they are.
const CANONICAL: &[&[u8]] = &[
    TRUTH_PROOF,
    GEOMETRY_CANONICAL,
    b"vernacular 1.\ntake [a,b].\nefq.\n",
    b"vernacular 1.\ntake [].\nmp a1 [] new [] gives p(c) | q(c).\ncs 1.\ncase p(c).\n  \
mp a2 [c] new [] gives r(c).\n  as 1 [].\ncase q(c).\n  efq.\nend.\n",
    b"vernacular 1.\ntake [].\nmp a:2 [] new [] gives $true.\n\
mp 12 [] new [] gives $true | ~p(a,b) | (a = b & c != d).\n\
mp 'A b':0 [] new [w] gives $false.\nas 0 [].\n",
    b"vernacular 1.\ntake [].\nmp $refl [a] new [] gives a = a.\n\
mp $sub(~p,1,1) [] new [] gives ~p.\nmp $sub(=,2,1) [] new [] gives p & q.\n\
mp $no(=,2) [] new [] gives $false.\nmp $or(p,1) [c] new [] gives p(c) | ~p(c).\nefq.\n",
    b"vernacular 2.\ntake [].\nmp a2 with [X = c,Y:2 = d] new [] gives q(c).\n\
mp a3 with [] new [w].\ncs 4294967295.\ncase.\n  gap 1.\ncase $true.\n  gap 200.\nend.\n",
];

/// The number and the offset of a refusal; 0 for want of memory, and 1 for one of the lexer.
fn numbered(refusal: &ScriptRefusal) -> (u32, u32) {
    match refusal {
        ScriptRefusal::Lex(_) => (1, 0),
        ScriptRefusal::ProofSyntax(offset) => (20, *offset),
        ScriptRefusal::ProofVersion(offset) => (21, *offset),
        ScriptRefusal::ProofTooLarge(offset) => (22, *offset),
        ScriptRefusal::CasesTooDeep(offset) => (23, *offset),
        ScriptRefusal::Memory => (0, 0),
    }
}

/// The version of a text of at most 1,000,000 bytes, or the number and the offset of its refusal.
fn version_of(alloc: Global, text: &[u8]) -> Result<u32, (u32, u32)> {
    if text.len() > 1_000_000 {
        return Err((0, 0));
    }
    match read_script(alloc, text) {
        Ok(script) => Ok(script.version()),
        Err(refusal) => Err(numbered(&refusal)),
    }
}

/// What is written of what is read; nothing where it is refused.
fn written(alloc: Global, text: &[u8]) -> Result<Bytes, Memory> {
    if text.len() > 1_000_000 {
        return Ok(Bytes::new(alloc));
    }
    match read_script(alloc, text) {
        Ok(script) => write_script(alloc, &script),
        Err(_) => Ok(Bytes::new(alloc)),
    }
}

#[test]
fn each_proof_text_is_refused_at_its_offset(rt: HostRuntime) -> Result<(), Fail> {
    for (text, number, offset) in REFUSALS {
        assert_eq!(rt; version_of(rt.alloc(), text), Err((*number, *offset)));
    }
    Ok(())
}

#[test]
fn canonical_texts_are_written_as_they_were(rt: HostRuntime) -> Result<(), Fail> {
    for text in CANONICAL {
        let again = written(rt.alloc(), text)?;
        assert_eq!(rt; again.as_slice(), *text);
    }
    Ok(())
}

/// A proof of version 1 with so many splits, one inside the other.
fn splits(alloc: Global, count: u32) -> Result<Bytes, Memory> {
    let mut text = Bytes::from_slice(alloc, b"vernacular 1. take []. ")?;
    for _ in 0..count {
        text.extend_from_slice(b"cs 1. case p. ")?;
    }
    text.extend_from_slice(b"efq. ")?;
    for _ in 0..count {
        text.extend_from_slice(b"end. ")?;
    }
    Ok(text)
}

#[test]
fn so_many_splits_are_nested_at_most(rt: HostRuntime) -> Result<(), Fail> {
    let most = splits(rt.alloc(), MOST_SPLITS)?;
    assert_eq!(rt; version_of(rt.alloc(), most.as_slice()), Ok(1));
    let deeper = splits(rt.alloc(), MOST_SPLITS + 1)?;
    assert_eq!(rt;
        version_of(rt.alloc(), deeper.as_slice()),
        Err((23, 23 + 14 * MOST_SPLITS))
    );
    Ok(())
}
