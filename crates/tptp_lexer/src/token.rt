ghost use Rattle.std.specs.Prelude.{◌≡◌, Some, IfOk, IsTrue};
ghost use Rattle.tptp_lexer.specs.Kinds.{kind_of};
ghost use Rattle.tptp_lexer.specs.Tokens as names;
ghost use Rattle.tptp_lexer.specs.Columns as columns;

use crate::kind::Kind;
use crate::name::name_of;
use std::alloc::Global;
use std::marker::Model;
use text_core::{Memory, Name};

/// A token: its kind, the offset of its first byte in its source, counted from 0, and its bytes as
/// they are there. Contracts see these three.
#[derive(Debug, Drop)]
pub struct Token<'a> {
    kind: Kind,
    start: u32,
    text: &'a [u8],
}

impl<'a> Model for Token<'a> {
    ghost use Rattle.std.specs.Prelude.{◌≡◌, Some};
    ghost use Rattle.tptp_lexer.specs.Kinds.{kind_of};
    ghost use Rattle.tptp_lexer.specs.Tokens.{Token as Seen};

    ghost Value = { Seen };

    ghost view = { λ t. record { kind = t.kind; start = t.start; text = t.text.now } };

    ghost invariant = { λ t. kind_of t.text.now ≡ Some t.kind };
}

impl<'a> Token<'a> {
    /// The token of a kind with these bytes.
    pub(crate) fn new(kind: Kind, start: u32, text: &'a [u8]) -> Token<'a>
        requires { kind_of text.now ≡ Some kind }
        ensures { result ≡ record { kind = kind; start = start; text = text.now } }
    {
        Token { kind, start, text }
    }

    /// The kind.
    pub fn kind(&self) -> Kind
        ensures { result ≡ self.now.kind }
    {
        self.kind
    }

    /// The offset in the source of the first byte.
    pub fn start(&self) -> u32
        ensures { result ≡ self.now.start }
    {
        self.start
    }

    /// The bytes, as they are in the source.
    pub fn text(&self) -> &'a [u8]
        ensures value { result.now ≡ self.now.text }
        ensures token { kind_of self.now.text ≡ Some self.now.kind }
    {
        self.text
    }

    /// The name that a word in lower or upper case, a quoted word or an integer is: its bytes, and
    /// those between the quotes of a quoted word, where a backslash stands for the byte behind it.
    /// `Memory` is want of memory.
    pub fn name(&self, alloc: Global) -> Result<Name, Memory>
        requires { IsTrue (columns.is_name self.now.kind) }
        ensures { IfOk result (λ name. name ≡ names.name_of self.now) }
    {
        name_of(alloc, self.kind, self.text)
    }
}
