//! The steps of lines, facts and atoms: each pushes what the token asks for, or refuses.

ghost use Rattle.std.specs.Prelude.{IfOk};
ghost use Rattle.token_grammar.specs.Step.{IsExpand};
ghost use Rattle.isar_text.specs.Grammar.{group_row};
ghost use Rattle.isar_text.specs.Stepping.{DoesStep};
ghost use Rattle.isar_text.specs.declared.part.Rule.TheVariants as rules;

use crate::fixed::Fixed;
use crate::mark::{Mark, Token};
use crate::part::IsarPart::{self, Row, Taken};
use crate::part::Rule::{
    Acts, AfterAtom, AfterGroup, AfterName, AfterNegated, AfterTrue, Atom, Bars, Does, Group,
    LinePart, MoreAtoms, MoreWords,
};
use crate::part::Taker;
use proof_text::Act::{
    AddAtom, AddNegated, AddPart, BeginAtoms, BeginNames, BeginParts, Nothing, ShowFalsum,
};
use proof_text::{Naming, Pass};
use text_core::Memory;
use token_grammar::{Step, expand};

// Falsehood, facts, or parts with bars between them.
pub(crate) fn line(token: Token, stack: &mut Vec<IsarPart>) -> Result<Step, Memory>
    ensures { DoesStep rules.Line token stack.old.items stack.new.items result }
{
    match token.mark {
        Mark::Fixed(Fixed::False) => expand(
            stack,
            &[Taken(Taker::Fixed(Fixed::False, ShowFalsum))],
        ),
        Mark::Fixed(Fixed::True) => expand(
            stack,
            &[Taken(Taker::Fixed(Fixed::True, BeginAtoms)), Row(AfterTrue)],
        ),
        Mark::Fixed(Fixed::OpenParenthesis) => expand(stack, &[Row(Group), Row(AfterGroup)]),
        Mark::Name | Mark::Fixed(Fixed::Tilde) => expand(
            stack,
            &[Row(Does(Pass::BeginAtoms)), Row(Atom), Row(AfterAtom)],
        ),
        _ => Ok(Step::Refuse),
    }
}

// Nothing, or further parts.
pub(crate) fn after_true(token: Token, stack: &mut Vec<IsarPart>) -> Result<Step, Memory>
    ensures { DoesStep rules.AfterTrue token stack.old.items stack.new.items result }
{
    match token.mark {
        Mark::Fixed(Fixed::Bar) => expand(
            stack,
            &[
                Taken(Taker::Fixed(Fixed::Bar, BeginParts)),
                Row(LinePart),
                Row(Bars),
            ],
        ),
        _ => expand(stack, &[]),
    }
}

// Nothing, further atoms, or further parts.
pub(crate) fn after_atom(token: Token, stack: &mut Vec<IsarPart>) -> Result<Step, Memory>
    ensures { DoesStep rules.AfterAtom token stack.old.items stack.new.items result }
{
    match token.mark {
        Mark::Fixed(Fixed::Ampersand) => expand(
            stack,
            &[
                Taken(Taker::Fixed(Fixed::Ampersand, Nothing)),
                Row(Atom),
                Row(MoreAtoms),
                Row(Does(Pass::ShowFacts)),
            ],
        ),
        Mark::Fixed(Fixed::Bar) => expand(
            stack,
            &[
                Taken(Taker::Fixed(Fixed::Bar, BeginParts)),
                Row(LinePart),
                Row(Bars),
            ],
        ),
        _ => expand(stack, &[]),
    }
}

// Further parts.
pub(crate) fn after_group(token: Token, stack: &mut Vec<IsarPart>) -> Result<Step, Memory>
    ensures { DoesStep rules.AfterGroup token stack.old.items stack.new.items result }
{
    match token.mark {
        Mark::Fixed(Fixed::Bar) => expand(
            stack,
            &[
                Taken(Taker::Fixed(Fixed::Bar, BeginParts)),
                Row(LinePart),
                Row(Bars),
            ],
        ),
        _ => Ok(Step::Refuse),
    }
}

// Nothing, or a bar and further parts.
pub(crate) fn bars(token: Token, stack: &mut Vec<IsarPart>) -> Result<Step, Memory>
    ensures { DoesStep rules.Bars token stack.old.items stack.new.items result }
{
    match token.mark {
        Mark::Fixed(Fixed::Bar) => expand(
            stack,
            &[
                Taken(Taker::Fixed(Fixed::Bar, AddPart)),
                Row(LinePart),
                Row(Bars),
            ],
        ),
        _ => expand(stack, &[]),
    }
}

// `True`, an atom, or atoms in brackets.
pub(crate) fn line_part(token: Token, stack: &mut Vec<IsarPart>) -> Result<Step, Memory>
    ensures { DoesStep rules.LinePart token stack.old.items stack.new.items result }
{
    match token.mark {
        Mark::Fixed(Fixed::True) => expand(stack, &[Taken(Taker::Fixed(Fixed::True, BeginAtoms))]),
        Mark::Fixed(Fixed::OpenParenthesis) => expand(stack, &[Row(Group)]),
        Mark::Name | Mark::Fixed(Fixed::Tilde) => expand(
            stack,
            &[Row(Does(Pass::BeginAtoms)), Row(Atom)],
        ),
        _ => Ok(Step::Refuse),
    }
}

// Two or more atoms in brackets.
pub(crate) fn group(token: Token, stack: &mut Vec<IsarPart>) -> Result<Step, Memory>
    ensures { DoesStep rules.Group token stack.old.items stack.new.items result }
{
    match token.mark {
        Mark::Fixed(Fixed::OpenParenthesis) => push_group(stack),
        _ => Ok(Step::Refuse),
    }
}

// Nothing, or a further atom.
pub(crate) fn more_atoms(token: Token, stack: &mut Vec<IsarPart>) -> Result<Step, Memory>
    ensures { DoesStep rules.MoreAtoms token stack.old.items stack.new.items result }
{
    match token.mark {
        Mark::Fixed(Fixed::Ampersand) => expand(
            stack,
            &[
                Taken(Taker::Fixed(Fixed::Ampersand, Nothing)),
                Row(Atom),
                Row(MoreAtoms),
            ],
        ),
        _ => expand(stack, &[]),
    }
}

// `True`, or atoms.
pub(crate) fn facts(token: Token, stack: &mut Vec<IsarPart>) -> Result<Step, Memory>
    ensures { DoesStep rules.Facts token stack.old.items stack.new.items result }
{
    match token.mark {
        Mark::Fixed(Fixed::True) => expand(stack, &[Taken(Taker::Fixed(Fixed::True, BeginAtoms))]),
        Mark::Name | Mark::Fixed(Fixed::Tilde) => expand(
            stack,
            &[Row(Does(Pass::BeginAtoms)), Row(Atom), Row(MoreAtoms)],
        ),
        _ => Ok(Step::Refuse),
    }
}

// A name, or `~` and a name, with what follows it.
pub(crate) fn atom(token: Token, stack: &mut Vec<IsarPart>) -> Result<Step, Memory>
    ensures { DoesStep rules.Atom token stack.old.items stack.new.items result }
{
    match token.mark {
        Mark::Fixed(Fixed::Tilde) => expand(
            stack,
            &[
                Taken(Taker::Fixed(Fixed::Tilde, Nothing)),
                Taken(Taker::Name(Naming::Predicate)),
                Row(AfterNegated),
            ],
        ),
        Mark::Name => expand(
            stack,
            &[Taken(Taker::Name(Naming::Predicate)), Row(AfterName)],
        ),
        _ => Ok(Step::Refuse),
    }
}

// Nothing, arguments, or the rest of an equation.
pub(crate) fn after_name(token: Token, stack: &mut Vec<IsarPart>) -> Result<Step, Memory>
    ensures { DoesStep rules.AfterName token stack.old.items stack.new.items result }
{
    match token.mark {
        Mark::Name => expand(
            stack,
            &[
                Row(Acts(BeginNames)),
                Taken(Taker::Name(Naming::Listed)),
                Row(MoreWords),
                Row(Acts(AddAtom)),
            ],
        ),
        Mark::Fixed(Fixed::Equal) => expand(
            stack,
            &[
                Taken(Taker::Fixed(Fixed::Equal, Nothing)),
                Taken(Taker::Name(Naming::Equal)),
            ],
        ),
        Mark::Fixed(Fixed::NotEqual) => expand(
            stack,
            &[
                Taken(Taker::Fixed(Fixed::NotEqual, Nothing)),
                Taken(Taker::Name(Naming::Unequal)),
            ],
        ),
        _ => expand(stack, &[]),
    }
}

// Nothing, or arguments.
pub(crate) fn after_negated(token: Token, stack: &mut Vec<IsarPart>) -> Result<Step, Memory>
    ensures { DoesStep rules.AfterNegated token stack.old.items stack.new.items result }
{
    match token.mark {
        Mark::Name => expand(
            stack,
            &[
                Row(Acts(BeginNames)),
                Taken(Taker::Name(Naming::Listed)),
                Row(MoreWords),
                Row(Acts(AddNegated)),
            ],
        ),
        _ => expand(stack, &[]),
    }
}

// Pushes two atoms in brackets, and what may stand behind them.
fn push_group(stack: &mut Vec<IsarPart>) -> Result<Step, Memory>
    ensures { IfOk result (λ step. IsExpand step group_row stack.old.items stack.new.items) }
{
    expand(
        stack,
        &[
            Taken(Taker::Fixed(Fixed::OpenParenthesis, BeginAtoms)),
            Row(Atom),
            Taken(Taker::Fixed(Fixed::Ampersand, Nothing)),
            Row(Atom),
            Row(MoreAtoms),
            Taken(Taker::Fixed(Fixed::CloseParenthesis, Nothing)),
        ],
    )
}
