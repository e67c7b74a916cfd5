ghost use Rattle.std.specs.Prelude.{◌≡◌, ◌+◌, ◌≤◌, length};
ghost use Rattle.tptp_lexer.specs.Scanning as scanning;

use crate::byte::{digits_len, is_blank, line_len, word_len};
use crate::comment::block_end;
use crate::kind::Kind;
use crate::quote::{QuoteEnd, quote_end};
use crate::sign::sign_from;
use text_core::{is_digit, is_lower, is_upper};

/// What is at the front of some bytes.
#[derive(Clone, Copy, Debug)]
pub(crate) enum Piece {
    /// Nothing: there are no bytes.
    End,
    /// A blank or a comment, of so many bytes.
    Gap(usize),
    /// The longest token, of this kind and so many bytes.
    Found(Kind, usize),
    /// A byte so many bytes further on that begins no token, blank or comment, or may not be in a
    /// quote.
    BadByte(usize),
    /// A quote that is still open at the end.
    OpenQuote,
    /// A comment that nothing closes.
    OpenComment,
    /// Two single quotes with nothing between them.
    EmptyQuote,
}

/// What is at the front of the bytes.
pub(crate) fn piece_at(bytes: &[u8]) -> Piece
    ensures { result ≡ scanning.piece_at bytes.now }
{
    match bytes {
        [] => Piece::End,
        [byte, rest @ ..] => piece_from(*byte, rest),
    }
}

/// What is at the front of the bytes that begin with a byte.
#[tactic(auto, unfolding(crate::specs::Scanning::piece_from))]
fn piece_from(byte: u8, rest: &[u8]) -> Piece
    ensures { result ≡ scanning.piece_from byte rest.now }
{
    if is_blank(byte) {
        Piece::Gap(1)
    } else if is_lower(byte) {
        Piece::Found(Kind::Lower, 1 + word_len(rest))
    } else if is_upper(byte) {
        Piece::Found(Kind::Upper, 1 + word_len(rest))
    } else if is_digit(byte) {
        Piece::Found(Kind::Integer, natural_len(byte, rest))
    } else {
        other_from(byte, rest)
    }
}

/// The same for a byte that is no letter, digit or blank.
#[tactic(auto, unfolding(crate::specs::Scanning::other_from))]
fn other_from(byte: u8, rest: &[u8]) -> Piece
    ensures { result ≡ scanning.other_from byte rest.now }
{
    if byte == b'\'' {
        quoted_from(rest)
    } else if byte == b'"' {
        distinct_from(rest)
    } else if byte == b'%' {
        Piece::Gap(1 + line_len(rest))
    } else if byte == b'/' {
        slash_from(rest)
    } else if byte == b'$' {
        dollar_from(rest)
    } else if byte == b'+' || byte == b'-' {
        signed_from(rest)
    } else {
        sign_from(byte, rest)
    }
}

/// The length of a number whose first digit is given.
fn natural_len(first: u8, rest: &[u8]) -> usize
    ensures value { result ≡ scanning.natural_len first rest.now }
    ensures within { result ≤ 1 + length rest.now }
{
    if first == b'0' {
        1
    } else {
        1 + digits_len(rest)
    }
}

/// What begins with a single quote.
fn quoted_from(rest: &[u8]) -> Piece
    ensures { result ≡ scanning.quoted_piece (scanning.quote_end 39 rest.now) }
{
    match quote_end(b'\'', rest) {
        QuoteEnd::Closed(len) => {
            if len == 0 {
                Piece::EmptyQuote
            } else {
                Piece::Found(Kind::Quoted, len + 2)
            }
        }
        QuoteEnd::Stray(before) => Piece::BadByte(1 + before),
        QuoteEnd::Open => Piece::OpenQuote,
    }
}

/// What begins with a double quote.
fn distinct_from(rest: &[u8]) -> Piece
    ensures { result ≡ scanning.distinct_piece (scanning.quote_end 34 rest.now) }
{
    match quote_end(b'"', rest) {
        QuoteEnd::Closed(len) => Piece::Found(Kind::Distinct, len + 2),
        QuoteEnd::Stray(len) => Piece::BadByte(1 + len),
        QuoteEnd::Open => Piece::OpenQuote,
    }
}

/// What begins with `/`.
#[tactic(auto, unfolding(crate::specs::Scanning::slash_from))]
fn slash_from(rest: &[u8]) -> Piece
    ensures { result ≡ scanning.slash_from rest.now }
{
    match rest {
        [b'*', body @ ..] => match block_end(body) {
            Some(len) => Piece::Gap(len + 4),
            None => Piece::OpenComment,
        },
        _ => Piece::BadByte(0),
    }
}

/// What begins with `$`.
#[tactic(auto, unfolding(crate::specs::Scanning::dollar_from))]
fn dollar_from(rest: &[u8]) -> Piece
    ensures { result ≡ scanning.dollar_from rest.now }
{
    match rest {
        [] => Piece::BadByte(0),
        [byte, tail @ ..] => {
            if is_lower(*byte) {
                Piece::Found(Kind::Dollar, 2 + word_len(tail))
            } else {
                Piece::BadByte(0)
            }
        }
    }
}

/// What begins with `+` or `-`.
#[tactic(auto, unfolding(crate::specs::Scanning::signed_from))]
fn signed_from(rest: &[u8]) -> Piece
    ensures { result ≡ scanning.signed_from rest.now }
{
    match rest {
        [] => Piece::BadByte(0),
        [byte, tail @ ..] => {
            if is_digit(*byte) {
                Piece::Found(Kind::Integer, 1 + natural_len(*byte, tail))
            } else {
                Piece::BadByte(0)
            }
        }
    }
}
