ghost use Rattle.std.specs.Prelude.{◌≡◌, ◌<◌, true, length, slice_get, Some, IfOk, All, map};
ghost use Rattle.isar_text.specs.Grammar.{mark_taken};
ghost use Rattle.isar_text.specs.Marks.{marked};
ghost use Rattle.isar_text.specs.Scripts.{starts_of};
ghost use Rattle.isar_text.specs.Spans.{token_of, IsWithin};
ghost use Rattle.isar_text.specs.Values.{texts_of, name_in, cite_in};
ghost use Rattle.isar_text.specs.declared.mark.Mark.TheVariants as marks;
ghost use Rattle.isar_text.specs.declared.part.Taker.TheVariants as takers;

use crate::mark::{Token, mark_of};
use crate::name::name_of;
use coherent_form::{Citation, Task};
use std::alloc::Global;
use std::marker::Model;
use text_core::{List, Memory, Name};
use token_grammar::Source;

/// Where a token is in its source: from the offset `start` up to the offset `end`, which is behind
/// it.
#[derive(Clone, Copy, Debug)]
pub(crate) struct Span {
    pub start: u32,
    pub end: u32,
}

/// A task, and the tokens of a text of it in order. Contracts see the task and the list of tokens.
#[derive(Drop)]
pub struct IsarTokens<'a> {
    task: &'a Task,
    source: &'a [u8],
    spans: List<Span>,
}

impl<'a> Model for IsarTokens<'a> {
    ghost use Rattle.isar_text.specs.Values.{Lexed};
    ghost use Rattle.isar_text.specs.Stored.{lexed_of, AreWithin};

    ghost Value = { Lexed };

    ghost view = { lexed_of };

    ghost invariant = { AreWithin };
}

impl<'a> IsarTokens<'a> {
    /// The tokens of a text of the task that spans of a source are.
    pub(crate) fn new(task: &'a Task, source: &'a [u8], spans: List<Span>) -> IsarTokens<'a>
        requires { All (IsWithin source.now) spans }
        ensures task { result.task ≡ task.now }
        ensures tokens { result.tokens ≡ map (token_of source.now) spans }
    {
        IsarTokens {
            task,
            source,
            spans,
        }
    }

    /// The bytes of the token with this number.
    fn text(&self, number: usize) -> &'a [u8]
        requires { number < length self.now.tokens }
        ensures { slice_get (texts_of self.now.tokens) number ≡ Some result.now }
    {
        let span = self.spans.as_slice()[number];
        &self.source[span.start as usize..span.end as usize]
    }

    /// The offset in the source of the first byte of the token with this number.
    pub(crate) fn start(&self, number: usize) -> u32
        requires { number < length self.now.tokens }
        ensures { slice_get (starts_of self.now.tokens) number ≡ Some result }
    {
        self.spans.as_slice()[number].start
    }

    /// The name that the token with this number, which the grammar sees as `token`, is the written
    /// form of. `Memory` is want of memory.
    pub(crate) fn name(&self, alloc: Global, number: usize, token: Token) -> Result<Name, Memory>
        requires at { slice_get (marked (length self.now.task.forms) self.now.tokens) number ≡
            Some token }
        requires named { token.mark ≡ marks.Name }
        ensures { IfOk result (λ name. name ≡ name_in self.now.tokens token) }
    {
        name_of(alloc, self.text(number))
    }

    /// How the form is cited that the token with this number, which the grammar sees as `token`, is
    /// the label of. `Memory` is want of memory.
    pub(crate) fn cite(
        &self,
        alloc: Global,
        number: usize,
        token: Token,
    ) -> Result<Citation, Memory>
        requires at { slice_get (marked (length self.now.task.forms) self.now.tokens) number ≡
            Some token }
        requires form { mark_taken takers.Form token.mark ≡ true }
        ensures { IfOk result (λ cite. cite ≡ cite_in self.now.task token) }
    {
        self.task.citation(alloc, token.mark.number() - 1)
    }
}

impl<'a> Source<Token> for IsarTokens<'a> {
    ghost use Rattle.std.specs.Prelude.{length};
    ghost use Rattle.isar_text.specs.Marks.{marked};

    ghost marks = { λ t. marked (length t.task.forms) t.tokens };

    fn count(&self) -> usize {
        self.spans.len()
    }

    fn mark(&self, number: usize) -> Token {
        Token {
            mark: mark_of(self.task.forms().len(), self.text(number)),
            number,
        }
    }
}
