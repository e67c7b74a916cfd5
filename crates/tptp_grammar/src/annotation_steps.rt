//! The steps of an annotation's parts: each pushes what the token asks for, or refuses.

ghost use Rattle.tptp_grammar.specs.Stepping.{DoesStep};
ghost use Rattle.tptp_grammar.specs.declared.item_part.ItemPart.TheVariants as parts;

use crate::formula_steps::inside;
use crate::item_part::ItemPart::{
    self, Data, DataArguments, General, GeneralRest, GeneralsRest, List, ListBody, Opens, Plain,
    Token, Word,
};
use crate::mark::Mark;
use logic_core::Memory;
use token_grammar::{Step, expand};
use tptp_lexer::Kind;

// Data, or a list.
pub(crate) fn general(level: u32, token: Mark, stack: &mut Vec<ItemPart>) -> Result<Step, Memory>
    ensures { DoesStep (parts.General level) token stack.old.items stack.new.items result }
{
    match token {
        Mark::Other(Kind::OpenBracket) => expand(stack, &[List(level)]),
        _ if token.is_word() || token.is_plain() => expand(
            stack,
            &[Data(level), GeneralRest(level)],
        ),
        _ => Ok(Step::Refuse),
    }
}

// Nothing, or `:` and a general term.
pub(crate) fn general_rest(
    level: u32,
    token: Mark,
    stack: &mut Vec<ItemPart>,
) -> Result<Step, Memory>
    ensures { DoesStep (parts.GeneralRest level) token stack.old.items stack.new.items result }
{
    match token {
        Mark::Other(Kind::Colon) => expand(stack, &[Token(Kind::Colon), General(level)]),
        _ => expand(stack, &[]),
    }
}

// Nothing, or a further general term.
pub(crate) fn generals_rest(
    level: u32,
    token: Mark,
    stack: &mut Vec<ItemPart>,
) -> Result<Step, Memory>
    ensures { DoesStep (parts.GeneralsRest level) token stack.old.items stack.new.items result }
{
    match token {
        Mark::Other(Kind::Comma) => expand(
            stack,
            &[Token(Kind::Comma), General(level), GeneralsRest(level)],
        ),
        _ => expand(stack, &[]),
    }
}

// A plain token, or a word and its arguments.
pub(crate) fn data(level: u32, token: Mark, stack: &mut Vec<ItemPart>) -> Result<Step, Memory>
    ensures { DoesStep (parts.Data level) token stack.old.items stack.new.items result }
{
    match token {
        Mark::Upper(_) | Mark::Other(Kind::Integer | Kind::Distinct) => expand(stack, &[Plain]),
        _ if token.is_word() => expand(stack, &[Word, DataArguments(level)]),
        _ => Ok(Step::Refuse),
    }
}

// Nothing, or arguments.
pub(crate) fn data_arguments(
    level: u32,
    token: Mark,
    stack: &mut Vec<ItemPart>,
) -> Result<Step, Memory>
    ensures { DoesStep (parts.DataArguments level) token stack.old.items stack.new.items result }
{
    match token {
        Mark::Other(Kind::OpenParenthesis) => {
            let inner = inside(level)?;
            expand(
                stack,
                &[
                    Opens(inner, Kind::OpenParenthesis),
                    General(inner),
                    GeneralsRest(inner),
                    Token(Kind::CloseParenthesis),
                ],
            )
        }
        _ => expand(stack, &[]),
    }
}

// `[` and the rest of a list.
pub(crate) fn list(level: u32, token: Mark, stack: &mut Vec<ItemPart>) -> Result<Step, Memory>
    ensures { DoesStep (parts.List level) token stack.old.items stack.new.items result }
{
    match token {
        Mark::Other(Kind::OpenBracket) => {
            let inner = inside(level)?;
            expand(stack, &[Opens(inner, Kind::OpenBracket), ListBody(inner)])
        }
        _ => Ok(Step::Refuse),
    }
}

// `]`, or general terms and `]`.
pub(crate) fn list_body(level: u32, token: Mark, stack: &mut Vec<ItemPart>) -> Result<Step, Memory>
    ensures { DoesStep (parts.ListBody level) token stack.old.items stack.new.items result }
{
    match token {
        Mark::Other(Kind::CloseBracket) => expand(stack, &[Token(Kind::CloseBracket)]),
        _ if token.is_kind(Kind::OpenBracket) || token.is_word() || token.is_plain() => expand(
            stack,
            &[
                General(level),
                GeneralsRest(level),
                Token(Kind::CloseBracket),
            ],
        ),
        _ => Ok(Step::Refuse),
    }
}
