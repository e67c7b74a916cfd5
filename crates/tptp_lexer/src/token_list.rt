ghost use Rattle.std.specs.Prelude.{◌≡◌, ◌<◌, ◌^◌, length, slice_get, IfOk, IsSomeAnd, IsTrue, All, map};
ghost use Rattle.tptp_lexer.specs.Kinds.{kind_of};
ghost use Rattle.tptp_lexer.specs.Spans.{token_of, IsWithin};
ghost use Rattle.tptp_lexer.specs.Tokens.{AreTokens};
ghost use Rattle.tptp_lexer.specs.Columns.{kinds_of, starts_of, ends_of, texts_of, names_of, is_name};

use crate::kind::Kind;
use crate::name::name_of;
use crate::token::Token;
use std::alloc::Global;
use std::marker::Model;
use text_core::{List, Memory, Name};

/// Where a token is in its source: from the offset `start` up to the offset `end`, which is behind
/// it.
#[derive(Clone, Copy, Debug)]
pub(crate) struct Span {
    pub kind: Kind,
    pub start: u32,
    pub end: u32,
}

/// A source and its tokens in order. Contracts see the bytes of the source and the list of its
/// tokens.
#[derive(Debug, Drop)]
pub struct Tokens<'a> {
    source: &'a [u8],
    spans: List<Span>,
}

impl<'a> Model for Tokens<'a> {
    ghost use Rattle.tptp_lexer.specs.Columns.{Lexed};

    ghost Value = { Lexed };

    ghost use Rattle.tptp_lexer.specs.Stored.{lexed_of, IsLexed};

    ghost view = { lexed_of };

    ghost invariant = { IsLexed };
}

impl<'a> Tokens<'a> {
    /// The tokens that spans of a source are.
    pub(crate) fn new(source: &'a [u8], spans: List<Span>) -> Tokens<'a>
        requires short { length source.now < 2 ^ 32 }
        requires within { All (IsWithin source.now) spans }
        requires tokens { AreTokens source.now (map (token_of source.now) spans) }
        ensures source { result.source ≡ source.now }
        ensures tokens { result.tokens ≡ map (token_of source.now) spans }
    {
        Tokens { source, spans }
    }

    /// The number of tokens.
    pub fn len(&self) -> usize
        ensures { result ≡ length self.now.tokens }
    {
        self.spans.len()
    }

    /// The kind of the token with this number, which is below `len`.
    pub fn kind(&self, number: usize) -> Kind
        requires { number < length self.now.tokens }
        ensures { slice_get (kinds_of self.now.tokens) number ≡ Some result }
    {
        self.spans.as_slice()[number].kind
    }

    /// The offset in the source of the first byte of the token with this number, which is below
    /// `len`.
    pub fn start(&self, number: usize) -> u32
        requires { number < length self.now.tokens }
        ensures { slice_get (starts_of self.now.tokens) number ≡ Some result }
    {
        self.spans.as_slice()[number].start
    }

    /// The offset in the source behind the last byte of the token with this number, which is below
    /// `len`.
    pub fn end(&self, number: usize) -> u32
        requires { number < length self.now.tokens }
        ensures { slice_get (ends_of self.now.tokens) number ≡ Some result }
    {
        self.spans.as_slice()[number].end
    }

    /// The bytes of the token with this number, which is below `len`, as they are in the source.
    pub fn text(&self, number: usize) -> &'a [u8]
        requires { number < length self.now.tokens }
        ensures value { slice_get (texts_of self.now.tokens) number ≡ Some result.now }
        ensures token { slice_get (kinds_of self.now.tokens) number ≡ kind_of result.now }
    {
        let span = self.spans.as_slice()[number];
        &self.source[span.start as usize..span.end as usize]
    }

    /// The token with this number, which is below `len`.
    pub(crate) fn token(&self, number: usize) -> Token<'a>
        requires { number < length self.now.tokens }
        ensures { slice_get self.now.tokens number ≡ Some result }
    {
        let span = self.spans.as_slice()[number];
        let text = &self.source[span.start as usize..span.end as usize];
        Token::new(span.kind, span.start, text)
    }

    /// The name that the token with this number is, a word in lower or upper case, a quoted word or
    /// an integer: its bytes, and those between the quotes of a quoted word, where a backslash
    /// stands for the byte behind it. `Memory` is want of memory.
    pub fn name(&self, alloc: Global, number: usize) -> Result<Name, Memory>
        requires { IsSomeAnd (slice_get (kinds_of self.now.tokens) number)
            (λ kind. IsTrue (is_name kind)) }
        ensures { IfOk result (λ name. slice_get (names_of self.now.tokens) number ≡ Some name) }
    {
        name_of(alloc, self.kind(number), self.text(number))
    }

    /// The number of bytes of the source, which is below 2 ^ 32.
    pub fn source_len(&self) -> u32
        ensures value { result ≡ length self.now.source }
        ensures short { length self.now.source < 2 ^ 32 }
        ensures tokens { AreTokens self.now.source self.now.tokens }
    {
        self.source.len() as u32
    }
}
