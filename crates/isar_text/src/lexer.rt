ghost use Rattle.std.specs.Prelude.{◌≡◌, ◌≤◌, ◌<◌, ◌^◌, length, drop, map, All, IfOk, IsTrue};
ghost use Rattle.std.specs.List.{prefix_len};
ghost use Rattle.text_core.specs.Names as names;
ghost use Rattle.isar_text.specs.Fixed as texts;
ghost use Rattle.isar_text.specs.Tokens as tokens;
ghost use Rattle.isar_text.specs.Tokens.{AreTokens};
ghost use Rattle.isar_text.specs.Scanning as scanning;
ghost use Rattle.isar_text.specs.Spans.{token_of, IsWithin};

use crate::fixed::{Fixed, fixed_text};
use crate::token_list::{IsarTokens, Span};
use coherent_form::Task;
use std::alloc::Global;
use text_core::{List, Memory, is_digit, is_lower, is_upper, is_word};

/// What is at the front of some bytes.
#[derive(Clone, Copy, Debug)]
enum Piece {
    /// Nothing: there are no bytes.
    End,
    /// A space or a line feed.
    Blank,
    /// The longest token, of so many bytes.
    Found(usize),
    /// A byte that begins no token.
    Nothing,
}

/// The signs, each in front of those with which it begins.
const SIGNS: [Fixed; 15] = [
    Fixed::Thesis,
    Fixed::Quote,
    Fixed::Colon,
    Fixed::OpenComment,
    Fixed::CloseComment,
    Fixed::OpenParenthesis,
    Fixed::CloseParenthesis,
    Fixed::OpenBracket,
    Fixed::CloseBracket,
    Fixed::Comma,
    Fixed::Ampersand,
    Fixed::Bar,
    Fixed::NotEqual,
    Fixed::Tilde,
    Fixed::Equal,
];

/// Whether the bytes begin with this text.
fn is_front(text: &[u8], bytes: &[u8]) -> bool
    ensures { result ≡ tokens.is_front text.now bytes.now }
{
    text.len() <= bytes.len() && &bytes[..text.len()] == text
}

/// The length of the first of these signs with which the bytes begin; 0 where there is none.
fn first_len(signs: &[Fixed], bytes: &[u8]) -> usize
    ensures { result ≡ tokens.sign_len (map texts.fixed_text signs.now) bytes.now }
{
    for sign in signs {
        let text = fixed_text(*sign);
        if is_front(text, bytes) {
            return text.len();
        }
    }
    0
}

/// The length of the sign at the front; 0 where there is none.
fn sign_len(bytes: &[u8]) -> usize
    ensures { result ≡ tokens.sign_len tokens.signs bytes.now }
{
    let signs: [Fixed; 15] = SIGNS;
    first_len(signs.as_slice(), bytes)
}

/// How many bytes at the front may go on with a word.
fn word_len(bytes: &[u8]) -> usize
    ensures value { result ≡ prefix_len names.is_word bytes.now }
    ensures within { result ≤ length bytes.now }
{
    bytes.iter().take_while(|byte| is_word(**byte)).count()
}

/// How many bytes at the front are digits.
fn digits_len(bytes: &[u8]) -> usize
    ensures value { result ≡ prefix_len names.is_digit bytes.now }
    ensures within { result ≤ length bytes.now }
{
    bytes.iter().take_while(|byte| is_digit(**byte)).count()
}

/// The length of the longest token at the front; 0 where none begins there.
#[tactic(auto, unfolding(crate::specs::Tokens::token_len))]
fn token_len(bytes: &[u8]) -> usize
    ensures { result ≡ tokens.token_len bytes.now }
{
    match bytes {
        [] => 0,
        [first, rest @ ..] => {
            if is_lower(*first) || is_upper(*first) {
                1 + word_len(rest)
            } else if is_digit(*first) {
                1 + digits_len(rest)
            } else {
                sign_len(bytes)
            }
        }
    }
}

/// Whether a byte is a space or a line feed.
fn is_blank(byte: u8) -> bool
    ensures { result ≡ tokens.is_blank byte }
{
    byte == b' ' || byte == b'\n'
}

/// What is at the front of the bytes.
fn piece_at(bytes: &[u8]) -> Piece
    ensures { result ≡ scanning.piece_at bytes.now }
{
    match bytes {
        [] => Piece::End,
        [first, ..] => {
            if is_blank(*first) {
                return Piece::Blank;
            }
            match token_len(bytes) {
                0 => Piece::Nothing,
                len => Piece::Found(len),
            }
        }
    }
}

/// The tokens of a text of a task, of fewer than 2 ^ 32 bytes, from an offset on: the longest at
/// each place, with only spaces and line feeds between them; and the offset of the first byte that
/// begins none, where there is one. `Memory` is want of memory.
pub(crate) fn read_tokens<'a>(
    alloc: Global,
    task: &'a Task,
    bytes: &'a [u8],
    at: usize,
) -> Result<(IsarTokens<'a>, Option<u32>), Memory>
    requires within { at ≤ length bytes.now }
    requires short { length bytes.now < 2 ^ 32 }
    ensures { IfOk result (λ r. (r.0.task ≡ task.now) ×
        AreTokens at (drop at bytes.now) r.0.tokens r.1) }
{
    let (spans, bad) = spans(alloc, bytes, at)?;
    Ok((IsarTokens::new(task, bytes, spans), bad))
}

/// The spans of the tokens from an offset on, and the offset of the first byte that begins none,
/// where there is one. `Memory` is want of memory.
fn spans(alloc: Global, source: &[u8], start: usize) -> Result<(List<Span>, Option<u32>), Memory>
    requires within { start ≤ length source.now }
    requires short { length source.now < 2 ^ 32 }
    ensures within { IfOk result (λ found. All (IsWithin source.now) found.0) }
    ensures tokens { IfOk result (λ found. AreTokens start (drop start source.now)
        (map (token_of source.now) found.0) found.1) }
{
    let mut spans = List::new(alloc);
    let mut at = start;
    loop {
        match piece_at(&source[at..]) {
            Piece::End => return Ok((spans, None)),
            Piece::Blank => at += 1,
            Piece::Found(len) => {
                let end = at + len;
                spans.push(Span {
                    start: at as u32,
                    end: end as u32,
                })?;
                at = end;
            }
            Piece::Nothing => return Ok((spans, Some(at as u32))),
        }
    }
}
