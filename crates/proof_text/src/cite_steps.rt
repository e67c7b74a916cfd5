//! The steps of citations and of the values of variables: each pushes what the token asks for, or
//! refuses.

ghost use Rattle.std.specs.Prelude.{IfOk};
ghost use Rattle.token_grammar.specs.Step.{IsExpand};
ghost use Rattle.proof_text.specs.Grammar.{sub_row};
ghost use Rattle.proof_text.specs.Stepping.{DoesStep};
ghost use Rattle.proof_text.specs.declared.part.Rule.TheVariants as rules;

use crate::fixed::Fixed;
use crate::mark::{Mark, Token};
use crate::part::Act::{
    BeginBinds, CiteNo, CiteOr, CiteRefl, CiteSym, CiteTrans, KeepBinds, Nothing, SetEquality,
    SetNegative,
};
use crate::part::Rule::{Bind, Does, ListedBinds, MoreBinds, Rank, SignedSymbol, Symbol};
use crate::part::TextPart::{self, Row, Taken};
use crate::part::{Counting, Naming, Pass, Taker};
use text_core::Memory;
use token_grammar::{Step, expand};

// A formula's name, or a built-in axiom.
pub(crate) fn cite(token: Token, stack: &mut Vec<TextPart>) -> Result<Step, Memory>
    ensures { DoesStep rules.Cite token stack.old.items stack.new.items result }
{
    match token.mark {
        Mark::Fixed(Fixed::Refl) => expand(stack, &[Taken(Taker::Fixed(Fixed::Refl, CiteRefl))]),
        Mark::Fixed(Fixed::Sym) => expand(stack, &[Taken(Taker::Fixed(Fixed::Sym, CiteSym))]),
        Mark::Fixed(Fixed::Trans) => expand(stack, &[Taken(Taker::Fixed(Fixed::Trans, CiteTrans))]),
        Mark::Fixed(Fixed::Sub) => cite_sub(stack),
        Mark::Fixed(Fixed::No) => expand(
            stack,
            &[
                Taken(Taker::Fixed(Fixed::No, Nothing)),
                Taken(Taker::Fixed(Fixed::OpenParenthesis, Nothing)),
                Row(Symbol),
                Taken(Taker::Fixed(Fixed::CloseParenthesis, CiteNo)),
            ],
        ),
        Mark::Fixed(Fixed::Or) => expand(
            stack,
            &[
                Taken(Taker::Fixed(Fixed::Or, Nothing)),
                Taken(Taker::Fixed(Fixed::OpenParenthesis, Nothing)),
                Row(Symbol),
                Taken(Taker::Fixed(Fixed::CloseParenthesis, CiteOr)),
            ],
        ),
        _ if token.mark.is_name() => expand(
            stack,
            &[
                Taken(Taker::Name(Naming::Cited)),
                Row(Rank),
                Row(Does(Pass::CiteName)),
            ],
        ),
        _ => Ok(Step::Refuse),
    }
}

// Nothing, or a colon and a number.
pub(crate) fn rank(token: Token, stack: &mut Vec<TextPart>) -> Result<Step, Memory>
    ensures { DoesStep rules.Rank token stack.old.items stack.new.items result }
{
    match token.mark {
        Mark::Fixed(Fixed::Colon) => expand(
            stack,
            &[
                Taken(Taker::Fixed(Fixed::Colon, Nothing)),
                Taken(Taker::Number(Counting::Rank)),
            ],
        ),
        _ => expand(stack, &[]),
    }
}

// A symbol, or `~` and a symbol.
pub(crate) fn signed_symbol(token: Token, stack: &mut Vec<TextPart>) -> Result<Step, Memory>
    ensures { DoesStep rules.SignedSymbol token stack.old.items stack.new.items result }
{
    match token.mark {
        Mark::Fixed(Fixed::Tilde) => expand(
            stack,
            &[Taken(Taker::Fixed(Fixed::Tilde, SetNegative)), Row(Symbol)],
        ),
        _ if token.mark.begins_symbol() => expand(
            stack,
            &[Row(Does(Pass::SetPositive)), Row(Symbol)],
        ),
        _ => Ok(Step::Refuse),
    }
}

// A name with its arity, or equality.
pub(crate) fn symbol(token: Token, stack: &mut Vec<TextPart>) -> Result<Step, Memory>
    ensures { DoesStep rules.Symbol token stack.old.items stack.new.items result }
{
    match token.mark {
        Mark::Fixed(Fixed::Equal) => expand(
            stack,
            &[
                Taken(Taker::Fixed(Fixed::Equal, Nothing)),
                Taken(Taker::Fixed(Fixed::Comma, Nothing)),
                Taken(Taker::Two(SetEquality)),
            ],
        ),
        _ if token.mark.is_word() => expand(
            stack,
            &[
                Taken(Taker::Name(Naming::Symbol)),
                Taken(Taker::Fixed(Fixed::Comma, Nothing)),
                Taken(Taker::Number(Counting::Arity)),
            ],
        ),
        _ => Ok(Step::Refuse),
    }
}

// Values of variables in brackets.
pub(crate) fn binds(token: Token, stack: &mut Vec<TextPart>) -> Result<Step, Memory>
    ensures { DoesStep rules.Binds token stack.old.items stack.new.items result }
{
    match token.mark {
        Mark::Fixed(Fixed::With) => expand(
            stack,
            &[
                Taken(Taker::Fixed(Fixed::With, Nothing)),
                Taken(Taker::Fixed(Fixed::OpenBracket, BeginBinds)),
                Row(ListedBinds),
                Taken(Taker::Fixed(Fixed::CloseBracket, KeepBinds)),
            ],
        ),
        _ => Ok(Step::Refuse),
    }
}

// Nothing, or a value and further ones.
pub(crate) fn listed_binds(token: Token, stack: &mut Vec<TextPart>) -> Result<Step, Memory>
    ensures { DoesStep rules.ListedBinds token stack.old.items stack.new.items result }
{
    match token.mark {
        Mark::Upper => expand(stack, &[Row(Bind), Row(MoreBinds)]),
        _ => expand(stack, &[]),
    }
}

// Nothing, or a comma and a further value.
pub(crate) fn more_binds(token: Token, stack: &mut Vec<TextPart>) -> Result<Step, Memory>
    ensures { DoesStep rules.MoreBinds token stack.old.items stack.new.items result }
{
    match token.mark {
        Mark::Fixed(Fixed::Comma) => expand(
            stack,
            &[
                Taken(Taker::Fixed(Fixed::Comma, Nothing)),
                Row(Bind),
                Row(MoreBinds),
            ],
        ),
        _ => expand(stack, &[]),
    }
}

// A variable and its value.
pub(crate) fn bind(token: Token, stack: &mut Vec<TextPart>) -> Result<Step, Memory>
    ensures { DoesStep rules.Bind token stack.old.items stack.new.items result }
{
    match token.mark {
        Mark::Upper => expand(
            stack,
            &[
                Taken(Taker::Name(Naming::Label)),
                Row(Rank),
                Taken(Taker::Fixed(Fixed::Equal, Nothing)),
                Taken(Taker::Name(Naming::Bound)),
            ],
        ),
        _ => Ok(Step::Refuse),
    }
}

// `$sub`, a symbol with its sign, and a place.
fn cite_sub(stack: &mut Vec<TextPart>) -> Result<Step, Memory>
    ensures { IfOk result (λ step. IsExpand step sub_row stack.old.items stack.new.items) }
{
    expand(
        stack,
        &[
            Taken(Taker::Fixed(Fixed::Sub, Nothing)),
            Taken(Taker::Fixed(Fixed::OpenParenthesis, Nothing)),
            Row(SignedSymbol),
            Taken(Taker::Fixed(Fixed::Comma, Nothing)),
            Taken(Taker::Number(Counting::Place)),
            Taken(Taker::Fixed(Fixed::CloseParenthesis, Nothing)),
        ],
    )
}
