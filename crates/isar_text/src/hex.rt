ghost use Rattle.std.specs.Prelude.{◌≡◌, ◌++◌, ◌<◌, true, IfOk, OnOk};
ghost use Rattle.std.specs.Str.{bytes_eq};
ghost use Rattle.text_core.specs.Names.{is_printable as printable};
ghost use Rattle.isar_text.specs.Digits as digits;
ghost use Rattle.isar_text.specs.Names as names;

use std::alloc::Global;
use text_core::{Bytes, Memory, is_digit, is_printable, is_word};

/// A class of bytes.
#[derive(Clone, Copy, Debug)]
pub(crate) enum Class {
    /// Printable ASCII.
    Printable,
    /// A letter, a digit or `_`.
    Word,
}

impl Class {
    /// Whether the byte is of the class.
    fn has(self, byte: u8) -> bool
        ensures { result ≡ digits.has self byte }
    {
        match self {
            Class::Printable => is_printable(byte),
            Class::Word => is_word(byte),
        }
    }
}

/// The digit of a number below 16.
fn hex_digit(value: u8) -> u8
    requires { value < 16 }
    ensures { result ≡ names.hex_digit value }
{
    if value < 10 { 48 + value } else { 87 + value }
}

/// Whether a byte is a digit.
fn is_hex(byte: u8) -> bool
    ensures { result ≡ digits.is_hex byte }
{
    is_digit(byte) || (b'a' <= byte && byte <= b'f')
}

/// What a digit stands for.
fn digit_value(digit: u8) -> u8
    requires { digits.is_hex digit ≡ true }
    ensures value { result ≡ names.digit_value digit }
    ensures small { result < 16 }
{
    if is_digit(digit) {
        digit - 48
    } else {
        digit - 87
    }
}

/// The byte of two digits.
pub(crate) fn byte_of(high: u8, low: u8) -> u8
    requires high { digits.is_hex high ≡ true }
    requires low { digits.is_hex low ≡ true }
    ensures { result ≡ digits.byte_of high low }
{
    digit_value(high) * 16 + digit_value(low)
}

/// Whether two bytes are the digits of a byte of the class.
fn is_pair(class: Class, high: u8, low: u8) -> bool
    ensures { result ≡ digits.is_pair (digits.has class) high low }
{
    is_hex(high) && is_hex(low) && class.has(byte_of(high, low))
}

/// Whether a text is two digits for each of some bytes of the class.
pub(crate) fn are_pairs(class: Class, text: &[u8]) -> bool
    ensures { result ≡ digits.are_pairs (digits.has class) text.now }
{
    let mut rest = text;
    while let [high, low, more @ ..] = rest {
        if !is_pair(class, *high, *low) {
            return false;
        }
        rest = more;
    }
    rest.is_empty()
}

/// Whether a text is two digits for each of these bytes.
pub(crate) fn spells(text: &[u8], bytes: &[u8]) -> bool
    ensures { result ≡ bytes_eq text.now (names.hex_text bytes.now) }
{
    match bytes {
        [] => text.is_empty(),
        [byte, bytes @ ..] => match text {
            [high, low, text @ ..] => {
                *high == hex_digit(*byte / 16)
                    && *low == hex_digit(*byte % 16)
                    && spells(text, bytes)
            }
            _ => false,
        },
    }
}

/// Appends two digits for each byte.
pub(crate) fn put_hex(bytes: &[u8], out: &mut Bytes) -> Result<(), Memory>
    ensures { OnOk result (out.new ≡ out.old ++ names.hex_text bytes.now) }
{
    for byte in bytes {
        out.push(hex_digit(*byte / 16))?;
        out.push(hex_digit(*byte % 16))?;
    }
    Ok(())
}

/// The byte of each two digits.
pub(crate) fn unhexed(alloc: Global, text: &[u8]) -> Result<Bytes, Memory>
    requires { digits.are_pairs printable text.now ≡ true }
    ensures { IfOk result (λ bytes. bytes ≡ names.unhexed text.now) }
{
    let mut bytes = Bytes::new(alloc);
    let mut rest = text;
    while let [high, low, more @ ..] = rest {
        bytes.push(byte_of(*high, *low))?;
        rest = more;
    }
    Ok(bytes)
}
