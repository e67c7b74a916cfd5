ghost use Rattle.std.specs.Prelude.{◌≡◌, List as Lst, [], ◌∷◌, length};
ghost use Rattle.tptp_lexer.specs.declared.kind.Kind.TheVariants as kind;
ghost use Rattle.tptp_lexer.specs.Same.{same_kind};
ghost use Rattle.tptp_lexer.specs.Reading.{Read, Gives, behind, may_name, name_from, names_from, listed_from, with_front, more_from};
ghost use Rattle.tptp_lexer.specs.Tokens.{Token};

use crate::cursor::Cursor;
use crate::kind::Kind;
use std::alloc::{AllocError, Global};
use text_core::{List, Memory, Name};

/// Why no value was read.
#[derive(Debug, Drop)]
pub enum NotRead {
    /// The tokens are none that spell a value.
    NoText,
    /// Memory ran out.
    Memory,
}

/// What a name is for, which tells the kinds of tokens that may spell it. Source: the TPTP syntax.
#[derive(Clone, Copy, Debug)]
pub enum Naming {
    /// A variable: an upper word.
    OfVariable,
    /// A formula: a lower word, a quoted word or an integer.
    OfFormula,
    /// A file: a quoted word.
    OfFile,
}

/// What reads one value from the first of some tokens, as a `Naming` reads a name.
pub trait Reads {
    /// What is read.
    type Value: Drop;

    ghost from: { Self → Lst Token → Read Self.Value };

    /// A value and what is left behind it. `NoText` where the tokens begin with none, `Memory` for
    /// want of memory.
    fn read<'t, 'a>(
        &self,
        alloc: Global,
        cursor: &Cursor<'t, 'a>,
    ) -> Result<(Self::Value, Cursor<'t, 'a>), NotRead>
        ensures { Gives (λ read. read) result (from self.now cursor.now) };
}

impl From<Memory> for NotRead {
    ghost use Rattle.std.specs.Prelude.{◌≡◌};
    ghost use Rattle.tptp_lexer.specs.declared.reader.NotRead.{NotRead};

    ghost from_gives = { λ _ fault. fault ≡ NotRead.Memory };

    fn from(_want: Memory) -> NotRead {
        NotRead::Memory
    }
}

impl From<AllocError> for NotRead {
    ghost use Rattle.std.specs.Prelude.{◌≡◌};
    ghost use Rattle.tptp_lexer.specs.declared.reader.NotRead.{NotRead};

    ghost from_gives = { λ _ fault. fault ≡ NotRead.Memory };

    fn from(_want: AllocError) -> NotRead {
        NotRead::Memory
    }
}

impl Kind {
    /// Whether the two kinds are the same, as `==`, told to contracts by `same_kind`.
    pub fn is(self, other: Kind) -> bool
        ensures { result ≡ same_kind self other }
    {
        self == other
    }
}

/// Whether a token of a kind may be such a name.
fn may_name(naming: Naming, kind: Kind) -> bool
    ensures { result ≡ may_name naming kind }
{
    match naming {
        Naming::OfVariable => matches!(kind, Kind::Upper),
        Naming::OfFormula => matches!(kind, Kind::Lower | Kind::Quoted | Kind::Integer),
        Naming::OfFile => matches!(kind, Kind::Quoted),
    }
}

impl<'t, 'a> Cursor<'t, 'a> {
    /// What is left behind a token of this kind; `None` where the first token is of another kind,
    /// or there is none.
    pub fn behind(&self, kind: Kind) -> Option<Cursor<'t, 'a>>
        ensures { result ≡ behind kind self.now }
    {
        match self.next() {
            Some((token, rest)) if token.kind().is(kind) => Some(rest),
            _ => None,
        }
    }

    /// What is left behind a token of this kind. `NoText` where the first token is of another kind,
    /// or there is none.
    pub fn skip(&self, kind: Kind) -> Result<Cursor<'t, 'a>, NotRead>
        ensures { Gives (λ rest. rest) result (behind kind self.now) }
    {
        self.behind(kind).ok_or(NotRead::NoText)
    }

    /// A name and what is left behind it. `NoText` where the first token is no such name, or there
    /// is none, `Memory` for want of memory.
    #[tactic(auto, unfolding(crate::specs::Reading::name_from))]
    pub fn name(&self, alloc: Global, naming: Naming) -> Result<(Name, Cursor<'t, 'a>), NotRead>
        ensures { Gives (λ read. read) result (name_from naming self.now) }
    {
        match self.next() {
            Some((token, rest)) if may_name(naming, token.kind()) => {
                Ok((token.name(alloc)?, rest))
            }
            _ => Err(NotRead::NoText),
        }
    }

    /// One or more values with a comma between each two, and a token of the kind `close`, with what
    /// is left behind it. `NoText` where the tokens do not begin with such a list, `Memory` for
    /// want of memory.
    pub fn listed<R: Reads>(
        &self,
        alloc: Global,
        reader: &R,
        close: Kind,
    ) -> Result<(List<R::Value>, Cursor<'t, 'a>), NotRead>
        ensures { Gives (λ read. read) result (listed_from (R.from reader.now) close self.now) }
    {
        let (first, rest) = reader.read(alloc, self)?;
        let (values, rest) = more_values(alloc, reader, first, rest)?;
        let rest = rest.skip(close)?;
        Ok((values, rest))
    }

    /// Names in square brackets, with a comma between each two, and what is left behind them.
    /// `NoText` where the tokens do not begin with such a list, `Memory` for want of memory.
    pub fn names(
        &self,
        alloc: Global,
        naming: Naming,
    ) -> Result<(List<Name>, Cursor<'t, 'a>), NotRead>
        ensures { Gives (λ read. read) result (names_from naming self.now) }
    {
        let rest = self.skip(Kind::OpenBracket)?;
        rest.listed(alloc, &naming, Kind::CloseBracket)
    }
}

impl Reads for Naming {
    type Value = Name;

    ghost use Rattle.tptp_lexer.specs.Reading.{name_from};

    ghost from = { name_from };

    fn read<'t, 'a>(
        &self,
        alloc: Global,
        cursor: &Cursor<'t, 'a>,
    ) -> Result<(Name, Cursor<'t, 'a>), NotRead> {
        cursor.name(alloc, *self)
    }
}

/// A value in front of further ones, each behind a comma.
#[tactic(auto, using(crate::proofs::Further::further))]
fn more_values<'t, 'a, R: Reads>(
    alloc: Global,
    reader: &R,
    first: R::Value,
    cursor: Cursor<'t, 'a>,
) -> Result<(List<R::Value>, Cursor<'t, 'a>), NotRead>
    ensures { Gives (λ read. read) result (with_front (first ∷ []) (more_from
        (R.from reader.now) kind.Comma (length cursor.entry) cursor.entry)) }
{
    let mut values = List::new(alloc);
    values.push(first)?;
    let count = cursor.len();
    let mut rest = cursor;
    for _ in 0..count {
        let Some(after) = rest.behind(Kind::Comma) else {
            return Ok((values, rest));
        };
        let (next, tail) = reader.read(alloc, &after)?;
        values.push(next)?;
        rest = tail;
    }
    Ok((values, rest))
}
