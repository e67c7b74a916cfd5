ghost use Rattle.std.specs.Prelude.{◌≡◌, [], length};
ghost use Rattle.tptp_lexer.specs.declared.kind.Kind.TheVariants as kind;
ghost use Rattle.tptp_grammar.specs.Reading.{behind_dot, role_from, fof_from, selection_from, include_from, item_from, items_from, IsReadable};
ghost use Rattle.tptp_lexer.specs.Reading.{Gives, behind};

use crate::formula_reader::formula;
use crate::role::role_of;
use logic_core::{Fof, Item, Items, List, Name, Role};
use std::alloc::Global;
use text_core::MOST_LEVELS;
use tptp_lexer::{Cursor, Kind, Naming, NotRead, Tokens};

/// What is left behind the first dot.
#[tactic(auto, using(crate::proofs::ReaderSteps::dots))]
fn behind_dot<'t, 'a>(cursor: Cursor<'t, 'a>) -> Result<Cursor<'t, 'a>, NotRead>
    ensures { Gives (λ rest. rest) result (behind_dot cursor.entry) }
{
    let mut rest = cursor;
    while let Some((token, tail)) = rest.next() {
        if token.kind().is(Kind::Dot) {
            return Ok(tail);
        }
        rest = tail;
    }
    Err(NotRead::NoText)
}

/// A role.
#[tactic(auto, unfolding(crate::specs::Reading::role_from))]
fn role<'t, 'a>(cursor: &Cursor<'t, 'a>) -> Result<(Role, Cursor<'t, 'a>), NotRead>
    ensures { Gives (λ read. read) result (role_from cursor.now) }
{
    let Some((token, rest)) = cursor.next() else {
        return Err(NotRead::NoText);
    };
    match role_of(token.text()) {
        Some(role) => Ok((role, rest)),
        None => Err(NotRead::NoText),
    }
}

/// A formula's item behind its first word.
#[tactic(auto, unfolding(crate::specs::Reading::fof_from))]
fn fof<'t, 'a>(
    alloc: Global,
    cursor: &Cursor<'t, 'a>,
    depth: u32,
) -> Result<(Item, Cursor<'t, 'a>), NotRead>
    ensures { Gives (λ read. read) result (fof_from depth cursor.now) }
{
    let rest = cursor.skip(Kind::OpenParenthesis)?;
    let (name, rest) = rest.name(alloc, Naming::OfFormula)?;
    let rest = rest.skip(Kind::Comma)?;
    let (role, rest) = role(&rest)?;
    let rest = rest.skip(Kind::Comma)?;
    let (formula, rest) = formula(alloc, &rest, depth)?;
    let rest = behind_dot(rest)?;
    let fof = Fof {
        name,
        role,
        formula,
    };
    Ok((Item::Fof(fof), rest))
}

/// The names of a selection, if there is one.
fn selection<'t, 'a>(
    alloc: Global,
    cursor: Cursor<'t, 'a>,
) -> Result<(Option<List<Name>>, Cursor<'t, 'a>), NotRead>
    ensures { Gives (λ read. read) result (selection_from
        (behind kind.Comma cursor.entry) cursor.entry) }
{
    match cursor.behind(Kind::Comma) {
        None => Ok((None, cursor)),
        Some(rest) => {
            let (names, rest) = rest.names(alloc, Naming::OfFormula)?;
            Ok((Some(names), rest))
        }
    }
}

/// An inclusion behind its first word.
#[tactic(auto, unfolding(crate::specs::Reading::include_from))]
fn include<'t, 'a>(
    alloc: Global,
    cursor: &Cursor<'t, 'a>,
) -> Result<(Item, Cursor<'t, 'a>), NotRead>
    ensures { Gives (λ read. read) result (include_from cursor.now) }
{
    let rest = cursor.skip(Kind::OpenParenthesis)?;
    let (file, rest) = rest.name(alloc, Naming::OfFile)?;
    let (only, rest) = selection(alloc, rest)?;
    let rest = behind_dot(rest)?;
    Ok((Item::Include { file, only }, rest))
}

/// An item.
#[tactic(auto, unfolding(crate::specs::Reading::item_from))]
fn item<'t, 'a>(
    alloc: Global,
    cursor: &Cursor<'t, 'a>,
    depth: u32,
) -> Result<(Item, Cursor<'t, 'a>), NotRead>
    ensures { Gives (λ read. read) result (item_from depth cursor.now) }
{
    let Some((token, rest)) = cursor.next() else {
        return Err(NotRead::NoText);
    };
    if token.text() == b"fof".as_slice() {
        fof(alloc, &rest, depth)
    } else {
        include(alloc, &rest)
    }
}

/// The items that the tokens of a text spell.

pub(crate) fn read_text(alloc: Global, tokens: &Tokens<'_>) -> Result<Items, NotRead>
    requires { IsReadable tokens.now.tokens }
    ensures { Gives (λ items. (items, [])) result
        (items_from MOST_LEVELS (length tokens.now.tokens) tokens.now.tokens) }
{
    let mut items = Items::new(alloc);
    let mut rest = tokens.cursor();
    while rest.len() > 0 {
        let (item, tail) = item(alloc, &rest, MOST_LEVELS)?;
        items.push(item)?;
        rest = tail;
    }
    Ok(items)
}
