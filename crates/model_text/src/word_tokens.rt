ghost use Rattle.std.specs.Prelude.{◌≡◌, ◌<◌, length, slice_get, IfOk, OnOk, IsSomeAnd, Some};
ghost use Rattle.model_text.specs.Words.{names_in, names_after, number_among, name_numbered};
ghost use Rattle.model_text.specs.Marks as marks;

use crate::mark::Mark;
use crate::number::{is_signed, number_in};
use indexmap::IndexSet;
use signature::names::number_of;
use std::alloc::Global;
use std::marker::Model;
use text_core::{Memory, Name};
use token_grammar::Source;
use tptp_lexer::{Kind, Tokens};

/// The tokens of a source with the names of its words by number, in order of first occurrence.
/// Contracts see the list of tokens.
#[derive(Drop)]
pub struct WordTokens<'t, 'a> {
    tokens: &'t Tokens<'a>,
    names: IndexSet<Name>,
    numbers: Vec<u32>,
}

impl<'t, 'a> Model for WordTokens<'t, 'a> {
    ghost use Rattle.std.specs.Prelude.{List};
    ghost use Rattle.tptp_lexer.specs.Tokens.{Token as Seen};
    ghost use Rattle.model_text.specs.Words.{AreNumbered};

    ghost Value = { List Seen };

    ghost view = { λ it. it.tokens.now.tokens };

    ghost invariant = { λ it. AreNumbered it.tokens.now.tokens it.names.keys it.numbers.items };
}

impl<'t, 'a> WordTokens<'t, 'a> {
    /// All tokens of the source. `Memory` is want of memory.
    pub fn new(alloc: Global, tokens: &'t Tokens<'a>) -> Result<WordTokens<'t, 'a>, Memory>
        ensures { IfOk result (λ words. words ≡ tokens.now.tokens) }
    {
        let mut names = IndexSet::new(alloc);
        let mut numbers = Vec::new(alloc);
        for number in 0..tokens.len() {
            let word = number_token(alloc, tokens, number, &mut names)?;
            numbers.push(word)?;
        }
        Ok(WordTokens {
            tokens,
            names,
            numbers,
        })
    }

    /// The name with this number. `Memory` is want of memory.
    pub fn name(&self, alloc: Global, word: u32) -> Result<Name, Memory>
        requires { word < length (names_in self.now) }
        ensures { IfOk result (λ name. name ≡ name_numbered (names_in self.now) word) }
    {
        self.names.as_slice()[word as usize].try_copy(alloc)
    }
}

impl<'t, 'a> Source<Mark> for WordTokens<'t, 'a> {
    ghost use Rattle.model_text.specs.Marks.{marked};

    ghost marks = { marked };

    fn count(&self) -> usize {
        self.tokens.len()
    }

    fn mark(&self, number: usize) -> Mark {
        mark_of(
            self.numbers[number],
            self.tokens.kind(number),
            self.tokens.text(number),
        )
    }
}

// The number of the name of a token, which goes last if it is a new word; 0 where the token is no
// word. `Memory` is want of memory, or of numbers of 32 bits.
fn number_token(
    alloc: Global,
    tokens: &Tokens<'_>,
    number: usize,
    names: &mut IndexSet<Name>,
) -> Result<u32, Memory>
    requires { number < length tokens.now.tokens }
    ensures names { OnOk result (IsSomeAnd (slice_get tokens.now.tokens number)
        (λ t. names.new.keys ≡ names_after names.old.keys t)) }
    ensures number { IfOk result (λ word. IsSomeAnd (slice_get tokens.now.tokens number)
        (λ t. word ≡ number_among names.old.keys t)) }
{
    match tokens.kind(number) {
        Kind::Lower | Kind::Quoted => {
            let name = tokens.name(alloc, number)?;
            if names.len() >= u32::MAX as usize {
                return Err(Memory);
            }
            number_of(alloc, names, &name)
        }
        _ => Ok(0),
    }
}

// The mark of a token of this kind and with this text, whose name has this number if it is a word.
fn mark_of(word: u32, kind: Kind, text: &[u8]) -> Mark
    ensures { result ≡ marks.mark_of word kind text.now }
{
    match kind {
        Kind::Lower => lower_mark(word, text),
        Kind::Quoted => Mark::Word(word),
        Kind::Integer => integer_mark(text),
        Kind::OpenParenthesis => Mark::Open,
        Kind::CloseParenthesis => Mark::Close,
        Kind::Comma => Mark::Comma,
        Kind::Dot => Mark::Dot,
        _ => Mark::Other,
    }
}

// The mark of a lower word whose name has this number.
fn lower_mark(word: u32, text: &[u8]) -> Mark
    ensures { result ≡ marks.lower_mark word text.now }
{
    if text == b"model".as_slice() {
        Mark::Model(word)
    } else if text == b"size".as_slice() {
        Mark::Size(word)
    } else if text == b"place".as_slice() {
        Mark::Place(word)
    } else if text == b"is".as_slice() {
        Mark::Is(word)
    } else if text == b"fact".as_slice() {
        Mark::Fact(word)
    } else {
        Mark::Word(word)
    }
}

// What the grammar looks at in an integer with this text.
fn integer_mark(text: &[u8]) -> Mark
    ensures { result ≡ marks.integer_mark text.now }
{
    if is_signed(text) {
        return Mark::Other;
    }
    match number_in(text) {
        Some(number) => number_mark(number),
        None => Mark::Other,
    }
}

// What the grammar looks at in a number.
fn number_mark(number: u32) -> Mark
    ensures { result ≡ marks.number_mark number }
{
    if number == 1 {
        Mark::One
    } else {
        Mark::Number(number)
    }
}
