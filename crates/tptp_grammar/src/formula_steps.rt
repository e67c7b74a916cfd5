//! The steps of a formula's parts: each pushes what the token asks for, or refuses.

ghost use Rattle.std.specs.Prelude.{◌≡◌, ◌+◌, IfOk};
ghost use Rattle.tptp_grammar.specs.Stepping.{DoesStep};
ghost use Rattle.tptp_grammar.specs.declared.item_part.ItemPart.TheVariants as parts;

use crate::item_part::ItemPart::{
    self, AfterWord, AndRest, Binds, BindsRest, ClosesArguments, Connective, Equation, Formula,
    FormulaRest, Opens, OrRest, Quantified, Term, TermsRest, Token, TruthWord, Unitary, Variable,
    Word,
};
use crate::mark::Mark;
use logic_core::Memory;
use token_grammar::{Step, expand};
use tptp_lexer::Kind;

// The level that a token opens at this one. The watcher stops long before the numbers end.
pub(crate) fn inside(level: u32) -> Result<u32, Memory>
    ensures { IfOk result (λ inner. inner ≡ level + 1) }
{
    level.checked_add(1).ok_or(Memory)
}

// A unit formula, and what follows it.
pub(crate) fn formula(level: u32, token: Mark, stack: &mut Vec<ItemPart>) -> Result<Step, Memory>
    ensures { DoesStep (parts.Formula level) token stack.old.items stack.new.items result }
{
    match token {
        Mark::Other(Kind::OpenParenthesis | Kind::Tilde | Kind::Exclamation | Kind::Question)
        | Mark::Truth(_)
        | Mark::Upper(_) => expand(stack, &[Unitary(level), FormulaRest(level)]),
        _ if token.is_word() => expand(stack, &[Unitary(level), FormulaRest(level)]),
        _ => Ok(Step::Refuse),
    }
}

// Nothing, a chain, or a connective and its right side.
pub(crate) fn formula_rest(
    level: u32,
    token: Mark,
    stack: &mut Vec<ItemPart>,
) -> Result<Step, Memory>
    ensures { DoesStep (parts.FormulaRest level) token stack.old.items stack.new.items result }
{
    match token {
        Mark::Other(Kind::Ampersand) => expand(
            stack,
            &[Token(Kind::Ampersand), Unitary(level), AndRest(level)],
        ),
        Mark::Other(Kind::Bar) => expand(stack, &[Token(Kind::Bar), Unitary(level), OrRest(level)]),
        Mark::Connective(_) => expand(stack, &[Connective, Unitary(level)]),
        _ => expand(stack, &[]),
    }
}

// Nothing, or a further member.
pub(crate) fn and_rest(level: u32, token: Mark, stack: &mut Vec<ItemPart>) -> Result<Step, Memory>
    ensures { DoesStep (parts.AndRest level) token stack.old.items stack.new.items result }
{
    match token {
        Mark::Other(Kind::Ampersand) => expand(
            stack,
            &[Token(Kind::Ampersand), Unitary(level), AndRest(level)],
        ),
        _ => expand(stack, &[]),
    }
}

// Nothing, or a further member.
pub(crate) fn or_rest(level: u32, token: Mark, stack: &mut Vec<ItemPart>) -> Result<Step, Memory>
    ensures { DoesStep (parts.OrRest level) token stack.old.items stack.new.items result }
{
    match token {
        Mark::Other(Kind::Bar) => expand(stack, &[Token(Kind::Bar), Unitary(level), OrRest(level)]),
        _ => expand(stack, &[]),
    }
}

// A formula in brackets, a negation, a quantified formula, a truth value, or an atom.
pub(crate) fn unitary(level: u32, token: Mark, stack: &mut Vec<ItemPart>) -> Result<Step, Memory>
    ensures { DoesStep (parts.Unitary level) token stack.old.items stack.new.items result }
{
    match token {
        Mark::Other(Kind::OpenParenthesis) => {
            let inner = inside(level)?;
            expand(
                stack,
                &[
                    Opens(inner, Kind::OpenParenthesis),
                    Formula(inner),
                    Token(Kind::CloseParenthesis),
                ],
            )
        }
        Mark::Other(Kind::Tilde) => {
            let inner = inside(level)?;
            expand(stack, &[Opens(inner, Kind::Tilde), Unitary(inner)])
        }
        Mark::Other(Kind::Exclamation) => {
            let inner = inside(level)?;
            expand(stack, &[Opens(inner, Kind::Exclamation), Quantified(inner)])
        }
        Mark::Other(Kind::Question) => {
            let inner = inside(level)?;
            expand(stack, &[Opens(inner, Kind::Question), Quantified(inner)])
        }
        Mark::Truth(_) => expand(stack, &[TruthWord]),
        Mark::Upper(_) => expand(stack, &[Variable(level), Equation(level)]),
        _ if token.is_word() => expand(stack, &[Word, AfterWord(level)]),
        _ => Ok(Step::Refuse),
    }
}

// A list of variables and a body.
pub(crate) fn quantified(level: u32, token: Mark, stack: &mut Vec<ItemPart>) -> Result<Step, Memory>
    ensures { DoesStep (parts.Quantified level) token stack.old.items stack.new.items result }
{
    match token {
        Mark::Other(Kind::OpenBracket) => expand(
            stack,
            &[
                Token(Kind::OpenBracket),
                Binds(level),
                BindsRest(level),
                Token(Kind::CloseBracket),
                Token(Kind::Colon),
                Unitary(level),
            ],
        ),
        _ => Ok(Step::Refuse),
    }
}

// Nothing, or a further variable.
pub(crate) fn binds_rest(level: u32, token: Mark, stack: &mut Vec<ItemPart>) -> Result<Step, Memory>
    ensures { DoesStep (parts.BindsRest level) token stack.old.items stack.new.items result }
{
    match token {
        Mark::Other(Kind::Comma) => expand(
            stack,
            &[Token(Kind::Comma), Binds(level), BindsRest(level)],
        ),
        _ => expand(stack, &[]),
    }
}

// Nothing, arguments, or the rest of an equation.
pub(crate) fn after_word(level: u32, token: Mark, stack: &mut Vec<ItemPart>) -> Result<Step, Memory>
    ensures { DoesStep (parts.AfterWord level) token stack.old.items stack.new.items result }
{
    match token {
        Mark::Other(Kind::OpenParenthesis) => expand(
            stack,
            &[
                Token(Kind::OpenParenthesis),
                Term(level),
                TermsRest(level),
                ClosesArguments,
            ],
        ),
        Mark::Other(Kind::Equal) => expand(stack, &[Token(Kind::Equal), Term(level)]),
        Mark::Other(Kind::NotEqual) => expand(stack, &[Token(Kind::NotEqual), Term(level)]),
        _ => expand(stack, &[]),
    }
}

// The rest of an equation.
pub(crate) fn equation(level: u32, token: Mark, stack: &mut Vec<ItemPart>) -> Result<Step, Memory>
    ensures { DoesStep (parts.Equation level) token stack.old.items stack.new.items result }
{
    match token {
        Mark::Other(Kind::Equal) => expand(stack, &[Token(Kind::Equal), Term(level)]),
        Mark::Other(Kind::NotEqual) => expand(stack, &[Token(Kind::NotEqual), Term(level)]),
        _ => Ok(Step::Refuse),
    }
}

// A variable, or a constant.
pub(crate) fn term(level: u32, token: Mark, stack: &mut Vec<ItemPart>) -> Result<Step, Memory>
    ensures { DoesStep (parts.Term level) token stack.old.items stack.new.items result }
{
    match token {
        Mark::Upper(_) => expand(stack, &[Variable(level)]),
        _ if token.is_word() => expand(stack, &[Word]),
        _ => Ok(Step::Refuse),
    }
}

// Nothing, or a further argument.
pub(crate) fn terms_rest(level: u32, token: Mark, stack: &mut Vec<ItemPart>) -> Result<Step, Memory>
    ensures { DoesStep (parts.TermsRest level) token stack.old.items stack.new.items result }
{
    match token {
        Mark::Other(Kind::Comma) => expand(
            stack,
            &[Token(Kind::Comma), Term(level), TermsRest(level)],
        ),
        _ => expand(stack, &[]),
    }
}
