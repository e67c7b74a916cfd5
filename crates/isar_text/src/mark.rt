ghost use Rattle.std.specs.Prelude.{◌≡◌};
ghost use Rattle.tptp_lexer.specs.Kinds as kinds;
ghost use Rattle.isar_text.specs.Marks as marks;
ghost use Rattle.isar_text.specs.Values.{marked_number};

use crate::fixed::{Fixed, fixed_of};
use crate::name::is_written;
use proof_text::number_in;
use text_core::is_digit;
use tptp_lexer::is_integer;

/// What the grammar looks at in a token.
#[derive(Clone, Copy, Debug)]
pub enum Mark {
    /// A token with one text.
    Fixed(Fixed),
    /// The written form of a name.
    Name,
    /// The label of a form, by its number from 1.
    Form(u32),
    /// The label of a line, by its number.
    Line(u32),
    /// A number.
    Number(u32),
    /// A token that stands nowhere in a text.
    Other,
}

/// A token as the grammar sees it: its mark, and its number among the tokens, from 0, by which its
/// name is found.
#[derive(Clone, Copy, Debug)]
pub struct Token {
    pub mark: Mark,
    pub number: usize,
}

impl Mark {
    /// The number that the token tells, its own or that of its label, or 0.
    pub(crate) fn number(self) -> u32
        ensures { result ≡ marked_number self }
    {
        match self {
            Mark::Form(number) | Mark::Line(number) | Mark::Number(number) => number,
            _ => 0,
        }
    }
}

/// The mark of a token with this text, where there are so many forms.
pub(crate) fn mark_of(forms: usize, text: &[u8]) -> Mark
    ensures { result ≡ marks.mark_of forms text.now }
{
    match fixed_of(text) {
        Some(fixed) => Mark::Fixed(fixed),
        None => other_mark(forms, text),
    }
}

/// The same of a text that is not fixed: labels begin with A and L.
fn other_mark(forms: usize, text: &[u8]) -> Mark
    ensures { result ≡ marks.other_mark forms text.now }
{
    match text {
        [] => Mark::Other,
        [first, rest @ ..] => {
            if *first == b'A' {
                form_mark(forms, number_of(rest))
            } else if *first == b'L' {
                line_mark(number_of(rest))
            } else if is_digit(*first) {
                number_mark(number_of(text))
            } else if is_written(text) {
                Mark::Name
            } else {
                Mark::Other
            }
        }
    }
}

/// The number that digits without a leading zero write, where it is below 2 ^ 32.
fn number_of(digits: &[u8]) -> Option<u32>
    ensures { result ≡ marks.number_of digits.now }
{
    if is_natural(digits) {
        number_in(digits)
    } else {
        None
    }
}

/// Whether a text is digits without a leading zero, or 0.
fn is_natural(text: &[u8]) -> bool
    ensures { result ≡ kinds.is_natural text.now }
{
    match text {
        [] => false,
        [first, ..] => is_digit(*first) && is_integer(text),
    }
}

/// The mark of the label of one of so many forms.
fn form_mark(forms: usize, number: Option<u32>) -> Mark
    ensures { result ≡ marks.form_mark forms number }
{
    match number {
        Some(number) if 1 <= number && number as usize <= forms => Mark::Form(number),
        _ => Mark::Other,
    }
}

/// The mark of the label of a line.
fn line_mark(number: Option<u32>) -> Mark
    ensures { result ≡ marks.line_mark number }
{
    match number {
        Some(number) => Mark::Line(number),
        None => Mark::Other,
    }
}

/// The mark of a number.
fn number_mark(number: Option<u32>) -> Mark
    ensures { result ≡ marks.number_mark number }
{
    match number {
        Some(number) => Mark::Number(number),
        None => Mark::Other,
    }
}
