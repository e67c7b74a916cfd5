//! The steps of an item's parts: each pushes what the token asks for, or refuses.

ghost use Rattle.tptp_grammar.specs.Stepping.{DoesStep};
ghost use Rattle.tptp_grammar.specs.declared.item_part.ItemPart.TheVariants as parts;

use crate::item_part::ItemPart::{
    self, FofEnd, FofHead, FofTail, FofWord, Formula, General, IncludeHead, IncludeTail,
    IncludeWord, Item, Items, List, Name, NamesRest, RoleWord, Token,
};
use crate::mark::Mark;
use logic_core::Memory;
use token_grammar::{Step, expand};
use tptp_lexer::Kind;

// Nothing, or an item and further ones.
pub(crate) fn items(token: Mark, stack: &mut Vec<ItemPart>) -> Result<Step, Memory>
    ensures { DoesStep parts.Items token stack.old.items stack.new.items result }
{
    match token {
        Mark::Fof | Mark::Include => expand(stack, &[Item, Items]),
        _ => expand(stack, &[]),
    }
}

// A formula, or an inclusion.
pub(crate) fn item(token: Mark, stack: &mut Vec<ItemPart>) -> Result<Step, Memory>
    ensures { DoesStep parts.Item token stack.old.items stack.new.items result }
{
    match token {
        Mark::Fof => expand(stack, &[FofWord, FofHead]),
        Mark::Include => expand(stack, &[IncludeWord, IncludeHead]),
        _ => Ok(Step::Refuse),
    }
}

// `(`, a name, a role and a formula.
pub(crate) fn fof_head(token: Mark, stack: &mut Vec<ItemPart>) -> Result<Step, Memory>
    ensures { DoesStep parts.FofHead token stack.old.items stack.new.items result }
{
    match token {
        Mark::Other(Kind::OpenParenthesis) => expand(
            stack,
            &[
                Token(Kind::OpenParenthesis),
                Name,
                Token(Kind::Comma),
                RoleWord,
                Token(Kind::Comma),
                Formula(0),
                FofTail,
            ],
        ),
        _ => Ok(Step::Refuse),
    }
}

// The item's end, or an annotation.
pub(crate) fn fof_tail(token: Mark, stack: &mut Vec<ItemPart>) -> Result<Step, Memory>
    ensures { DoesStep parts.FofTail token stack.old.items stack.new.items result }
{
    match token {
        Mark::Other(Kind::CloseParenthesis) => expand(
            stack,
            &[Token(Kind::CloseParenthesis), Token(Kind::Dot)],
        ),
        Mark::Other(Kind::Comma) => expand(stack, &[Token(Kind::Comma), General(0), FofEnd]),
        _ => Ok(Step::Refuse),
    }
}

// The item's end, or the annotation's second part.
pub(crate) fn fof_end(token: Mark, stack: &mut Vec<ItemPart>) -> Result<Step, Memory>
    ensures { DoesStep parts.FofEnd token stack.old.items stack.new.items result }
{
    match token {
        Mark::Other(Kind::CloseParenthesis) => expand(
            stack,
            &[Token(Kind::CloseParenthesis), Token(Kind::Dot)],
        ),
        Mark::Other(Kind::Comma) => expand(
            stack,
            &[
                Token(Kind::Comma),
                List(0),
                Token(Kind::CloseParenthesis),
                Token(Kind::Dot),
            ],
        ),
        _ => Ok(Step::Refuse),
    }
}

// `(` and the file's name.
pub(crate) fn include_head(token: Mark, stack: &mut Vec<ItemPart>) -> Result<Step, Memory>
    ensures { DoesStep parts.IncludeHead token stack.old.items stack.new.items result }
{
    match token {
        Mark::Other(Kind::OpenParenthesis) => expand(
            stack,
            &[
                Token(Kind::OpenParenthesis),
                Token(Kind::Quoted),
                IncludeTail,
            ],
        ),
        _ => Ok(Step::Refuse),
    }
}

// The item's end, or a selection of names.
pub(crate) fn include_tail(token: Mark, stack: &mut Vec<ItemPart>) -> Result<Step, Memory>
    ensures { DoesStep parts.IncludeTail token stack.old.items stack.new.items result }
{
    match token {
        Mark::Other(Kind::CloseParenthesis) => expand(
            stack,
            &[Token(Kind::CloseParenthesis), Token(Kind::Dot)],
        ),
        Mark::Other(Kind::Comma) => expand(
            stack,
            &[
                Token(Kind::Comma),
                Token(Kind::OpenBracket),
                Name,
                NamesRest,
                Token(Kind::CloseBracket),
                Token(Kind::CloseParenthesis),
                Token(Kind::Dot),
            ],
        ),
        _ => Ok(Step::Refuse),
    }
}

// Nothing, or a further name.
pub(crate) fn names_rest(token: Mark, stack: &mut Vec<ItemPart>) -> Result<Step, Memory>
    ensures { DoesStep parts.NamesRest token stack.old.items stack.new.items result }
{
    match token {
        Mark::Other(Kind::Comma) => expand(stack, &[Token(Kind::Comma), Name, NamesRest]),
        _ => expand(stack, &[]),
    }
}
