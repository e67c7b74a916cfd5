ghost use Rattle.std.specs.Prelude.{◌≡◌, ◌≤◌, ◌∷◌, ◌++◌, true, length, IfOk, OnOk, IsTrue};
ghost use Rattle.std.specs.List.{list_any};
ghost use Rattle.std.specs.Str.{bytes_eq};
ghost use Rattle.text_core.specs.Names.{is_lower, is_printable, is_word_from};
ghost use Rattle.isar_text.specs.Digits as digits;
ghost use Rattle.isar_text.specs.Names as names;

use crate::hex::{Class, are_pairs, byte_of, put_hex, spells, unhexed};
use std::alloc::Global;
use text_core::{Bytes, Memory, Name, is_lower, is_lower_word};

/// The words of the language.
const RESERVED: [&[u8]; 19] = [
    b"lemma", b"fixes", b"assumes", b"shows", b"proof", b"have", b"obtain", b"where", b"using",
    b"by", b"blast", b"show", b"elim", b"disjE", b"assume", b"next", b"qed", b"as", b"efq",
];

/// Whether a text is a word of the language.
fn is_reserved(text: &[u8]) -> bool
    ensures { result ≡ names.is_reserved text.now }
{
    let words: [&[u8]; 19] = RESERVED;
    is_among(text, words.as_slice())
}

/// Whether a text is one of these.
fn is_among(text: &[u8], words: &[&[u8]]) -> bool
    ensures { result ≡ list_any (λ word. bytes_eq text.now word.now) words.now }
{
    for word in words {
        if text == *word {
            return true;
        }
    }
    false
}

/// Whether a text begins with `x_`.
fn has_prefix(text: &[u8]) -> bool
    ensures value { result ≡ names.has_prefix text.now }
    ensures within { IsTrue result → 2 ≤ length text.now }
{
    matches!(text, [b'x', b'_', ..])
}

/// Whether a name is written as it is.
fn is_plain(name: &[u8]) -> bool
    ensures { result ≡ names.is_plain name.now }
{
    is_lower_word(name) && !has_prefix(name) && !is_reserved(name)
}

/// Appends a name as it is written in Isar: as it is where it is a lower word that does not begin
/// with `x_` and is no word of the language, else `x_` and two hexadecimal digits for each byte.
/// `Memory` is want of memory.
pub(crate) fn put_name(name: &Name, out: &mut Bytes) -> Result<(), Memory>
    ensures { OnOk result (out.new ≡ out.old ++ names.isar_name name.now) }
{
    let bytes = name.bytes();
    if is_plain(bytes) {
        out.extend_from_slice(bytes)
    } else {
        out.extend_from_slice(b"x_")?;
        put_hex(bytes, out)
    }
}

/// Whether a word is the written form of a name.
pub(crate) fn is_written(word: &[u8]) -> bool
    ensures { result ≡ names.is_written word.now }
{
    if has_prefix(word) {
        is_written_in_digits(&word[2..])
    } else {
        is_plain(word)
    }
}

/// Whether `x_` and this text are the written form of a name.
fn is_written_in_digits(text: &[u8]) -> bool
    ensures { result ≡ names.is_written (120 ∷ 95 ∷ text.now) }
{
    !text.is_empty() && are_pairs(Class::Printable, text) && !spells_plain(text)
}

/// Whether the name of these digits is written as it is.
fn spells_plain(text: &[u8]) -> bool
    requires { digits.are_pairs is_printable text.now ≡ true }
    ensures { result ≡ names.is_plain (names.unhexed text.now) }
{
    spells_lower_word(text) && !spells_prefix(text) && !spells_reserved(text)
}

/// Whether the name of these digits is a lower word.
fn spells_lower_word(text: &[u8]) -> bool
    requires { digits.are_pairs is_printable text.now ≡ true }
    ensures { result ≡ is_word_from is_lower (names.unhexed text.now) }
{
    match text {
        [high, low, ..] => is_lower(byte_of(*high, *low)) && are_pairs(Class::Word, text),
        _ => false,
    }
}

/// Whether the name of these digits begins with `x_`.
fn spells_prefix(text: &[u8]) -> bool
    requires { digits.are_pairs is_printable text.now ≡ true }
    ensures { result ≡ names.has_prefix (names.unhexed text.now) }
{
    matches!(text, [b'7', b'8', b'5', b'f', ..])
}

/// Whether the name of these digits is a word of the language.
fn spells_reserved(text: &[u8]) -> bool
    requires { digits.are_pairs is_printable text.now ≡ true }
    ensures { result ≡ names.is_reserved (names.unhexed text.now) }
{
    let words: [&[u8]; 19] = RESERVED;
    spells_one(text, words.as_slice())
}

/// Whether a text is the digits of one of these words.
fn spells_one(text: &[u8], words: &[&[u8]]) -> bool
    ensures { result ≡ list_any (λ word. bytes_eq text.now (names.hex_text word.now)) words.now }
{
    for word in words {
        if spells(text, word) {
            return true;
        }
    }
    false
}

/// The name that a word is the written form of. `Memory` is want of memory.
pub(crate) fn name_of(alloc: Global, word: &[u8]) -> Result<Name, Memory>
    requires { names.is_written word.now ≡ true }
    ensures { IfOk result (λ name. name ≡ names.decoded word.now) }
{
    if has_prefix(word) {
        let bytes = unhexed(alloc, &word[2..])?;
        Name::from_bytes(alloc, bytes.as_slice())
    } else {
        Name::from_bytes(alloc, word)
    }
}
