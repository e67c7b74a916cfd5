use std::alloc::Global;
use std::test::Fail;
use text_core::{
    Bytes, List, Memory, Name, are_digits, are_word_bytes, begins_with, is_digit, is_lower,
    is_lower_word, is_printable, is_upper, is_word,
};

// Whether a list is as it is behind a push, two extensions and two cuts.
fn keeps_what_it_is_given(alloc: Global) -> Result<bool, Memory> {
    let mut bytes = Bytes::from_slice(alloc, b"a")?;
    bytes.append(Bytes::from_slice(alloc, b"b")?)?;
    bytes.extend_from_slice(b"cd")?;
    bytes.push(b'e')?;
    let whole = bytes.as_slice() == b"abcde".as_slice() && bytes.get(4).copied() == Some(b'e');
    bytes.truncate(9);
    let same = bytes.len() == 5 && bytes.get(5).is_none();
    bytes.truncate(3);
    let again = List::from_vec(bytes.into_vec());
    Ok(whole && same && again.as_slice() == b"abc".as_slice())
}

#[test]
fn lists_keep_what_they_are_given(rt: HostRuntime) -> Result<(), Fail> {
    assert!(rt; keeps_what_it_is_given(rt.alloc())?);
    Ok(())
}

#[test]
fn names_keep_what_they_are_given(rt: HostRuntime) -> Result<(), Fail> {
    let name = Name::from_bytes(rt.alloc(), b"A b")?;
    let copy = name.try_copy(rt.alloc())?;
    assert!(rt; copy == name && copy.bytes() == b"A b".as_slice());
    Ok(())
}

// Whether a byte is of exactly these classes: lower, upper, digit, word, printable.
fn is_of(byte: u8, want: &[bool; 5]) -> bool {
    is_lower(byte) == want[0]
        && is_upper(byte) == want[1]
        && is_digit(byte) == want[2]
        && is_word(byte) == want[3]
        && is_printable(byte) == want[4]
}

// The first and the last byte of each class, and those beside them.
const CLASSES: &[(&[u8; 2], [bool; 5])] = &[
    (b"az", [true, false, false, true, true]),
    (b"AZ", [false, true, false, true, true]),
    (b"09", [false, false, true, true, true]),
    (b"__", [false, false, false, true, true]),
    (b"`{", [false, false, false, false, true]),
    (b"@[", [false, false, false, false, true]),
    (b"/:", [false, false, false, false, true]),
    (b" ~", [false, false, false, false, true]),
    (b"\x1f\x7f", [false, false, false, false, false]),
];

#[test]
fn bytes_are_of_classes(rt: HostRuntime) -> Result<(), Fail> {
    for ([first, last], want) in CLASSES {
        assert!(rt; is_of(*first, want) && is_of(*last, want));
    }
    Ok(())
}

// Whether a text is of exactly these classes: a lower word, word bytes, digits, one that begins
// with `a`.
fn is_text_of(text: &[u8], want: &[bool; 4]) -> bool {
    is_lower_word(text) == want[0]
        && are_word_bytes(text) == want[1]
        && are_digits(text) == want[2]
        && begins_with(b'a', text) == want[3]
}

// Texts with their classes.
const TEXTS: &[(&[u8], [bool; 4])] = &[
    (b"a_B9", [true, true, false, true]),
    (b"_a", [false, true, false, false]),
    (b"Aa", [false, true, false, false]),
    (b"007", [false, true, true, false]),
    (b"a b", [false, false, false, true]),
    (b"", [false, true, true, false]),
];

#[test]
fn texts_are_of_classes(rt: HostRuntime) -> Result<(), Fail> {
    for (text, want) in TEXTS {
        assert!(rt; is_text_of(text, want));
    }
    Ok(())
}
