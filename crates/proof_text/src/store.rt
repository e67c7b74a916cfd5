ghost use Rattle.std.specs.Prelude.{◌≡◌, ◌+◌, ◌*◌, ◌-◌, ◌≤◌, Some, None, slice_get, length, IfOk, IsTrue};
ghost use Rattle.proof_text.specs.Marks as marks;
ghost use Rattle.proof_text.specs.Grammar as grammar;
ghost use Rattle.proof_text.specs.Values as values;

use crate::fixed::{Fixed, dollar_of, keyword_of};
use crate::limits::MOST_WITHIN;
use crate::mark::{Integer, Mark, Token};
use crate::part::Naming;
use std::alloc::Global;
use text_core::{Memory, Name, begins_with};
use token_grammar::Source;
use tptp_lexer::{Kind, Tokens};

impl<'a> Source<Token> for Tokens<'a> {
    ghost use Rattle.proof_text.specs.Marks.{marked};

    ghost marks = { λ tokens. marked tokens.tokens };

    fn count(&self) -> usize {
        self.len()
    }

    fn mark(&self, number: usize) -> Token {
        Token {
            mark: mark_of(self.kind(number), self.text(number)),
            number,
        }
    }
}

/// The name that the token of this number is.
pub(crate) fn name_at(
    alloc: Global,
    tokens: &Tokens<'_>,
    number: usize,
    naming: Naming,
    token: Token,
) -> Result<Name, Memory>
    requires at { slice_get (marks.marked tokens.now.tokens) number ≡ Some token }
    requires named { IsTrue (grammar.names naming token.mark) }
    ensures { IfOk result (λ name. name ≡ values.name_in tokens.now.tokens token) }
{
    tokens.name(alloc, number)
}

// The mark of a token of this kind and with this text.
fn mark_of(kind: Kind, text: &[u8]) -> Mark
    ensures { result ≡ marks.mark_of kind text.now }
{
    match kind {
        Kind::Lower => fixed_or(Mark::Word, keyword_of(text)),
        Kind::Quoted => Mark::Word,
        Kind::Upper => Mark::Upper,
        Kind::Integer => Mark::Integer(integer_mark(text)),
        Kind::Dollar => fixed_or(Mark::Other, dollar_of(text)),
        Kind::OpenParenthesis => Mark::Fixed(Fixed::OpenParenthesis),
        Kind::CloseParenthesis => Mark::Fixed(Fixed::CloseParenthesis),
        Kind::OpenBracket => Mark::Fixed(Fixed::OpenBracket),
        Kind::CloseBracket => Mark::Fixed(Fixed::CloseBracket),
        Kind::Comma => Mark::Fixed(Fixed::Comma),
        Kind::Dot => Mark::Fixed(Fixed::Dot),
        Kind::Colon => Mark::Fixed(Fixed::Colon),
        Kind::Tilde => Mark::Fixed(Fixed::Tilde),
        Kind::Ampersand => Mark::Fixed(Fixed::Ampersand),
        Kind::Bar => Mark::Fixed(Fixed::Bar),
        Kind::Equal => Mark::Fixed(Fixed::Equal),
        Kind::NotEqual => Mark::Fixed(Fixed::NotEqual),
        _ => Mark::Other,
    }
}

// The mark of a token with its own text, or another one.
fn fixed_or(other: Mark, fixed: Option<Fixed>) -> Mark
    ensures { result ≡ marks.fixed_or other fixed }
{
    match fixed {
        Some(fixed) => Mark::Fixed(fixed),
        None => other,
    }
}

// What the grammar looks at in an integer with this text.
fn integer_mark(text: &[u8]) -> Integer
    ensures { result ≡ marks.integer_mark text.now }
{
    if is_signed(text) {
        return Integer::NoNumber;
    }
    match number_in(text) {
        Some(number) => number_mark(number),
        None => Integer::NoNumber,
    }
}

// Whether the text begins with a sign.
fn is_signed(text: &[u8]) -> bool
    ensures { result ≡ marks.is_signed text.now }
{
    match text {
        [] => false,
        [first, ..] => *first == b'+' || *first == b'-',
    }
}

// What the grammar looks at in a number.
fn number_mark(number: u32) -> Integer
    ensures { result ≡ marks.number_mark number }
{
    if number == 1 {
        Integer::One
    } else if number == 2 {
        Integer::Two
    } else if 1 <= number && number <= MOST_WITHIN {
        Integer::Few(number)
    } else {
        Integer::Number(number)
    }
}

/// The number that digits write, where it is below 2 ^ 32; `None` where it is not.
pub fn number_in(text: &[u8]) -> Option<u32>
    ensures { result ≡ marks.number_in text.now }
{
    let mut number = 0;
    for byte in text {
        number = number_after(number, *byte)?;
    }
    Some(number)
}

// The number with one more digit, where it is below 2 ^ 32.
fn number_after(number: u32, byte: u8) -> Option<u32>
    ensures { result ≡ marks.number_next number byte }
{
    number
        .checked_mul(10)?
        .checked_add(u32::from(byte.saturating_sub(b'0')))
}
