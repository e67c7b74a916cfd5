//! The steps of a text, its bodies and what ends them: each pushes what the token asks for, or
//! refuses.

ghost use Rattle.std.specs.Prelude.{IfOk};
ghost use Rattle.token_grammar.specs.Step.{IsExpand};
ghost use Rattle.proof_text.specs.Grammar.{first_step_row, second_step_row};
ghost use Rattle.proof_text.specs.Stepping.{DoesStep};
ghost use Rattle.proof_text.specs.declared.part.Rule.TheVariants as rules;

use crate::fixed::Fixed;
use crate::mark::{Integer, Mark, Token};
use crate::part::Act::{
    BareCase, BeginCase, BeginFirst, BeginNames, BeginSecond, BeginSplit, EndAs, EndBareStep,
    EndEfq, EndGap, EndSplit, EndStep, KeepArgs, KeepFresh, Nothing, ShowCase, TakeNames,
};
use crate::part::Rule::{
    Binds, Body, Case, CaseHead, Cite, Does, Facts, Finish, Given, Head, Line, ListedNames,
    MoreCases, MoreNames, Names, Never, SplitEnd, Version,
};
use crate::part::TextPart::{self, Row, Taken};
use crate::part::{Counting, Edition, Naming, Pass, Rule, Taker};
use text_core::Memory;
use token_grammar::{Step, expand};

// The first word, and what follows it.
pub(crate) fn text(token: Token, stack: &mut Vec<TextPart>) -> Result<Step, Memory>
    ensures { DoesStep rules.Text token stack.old.items stack.new.items result }
{
    match token.mark {
        Mark::Fixed(Fixed::Vernacular) => expand(
            stack,
            &[
                Taken(Taker::Fixed(Fixed::Vernacular, Nothing)),
                Row(Version),
            ],
        ),
        _ => Ok(Step::Refuse),
    }
}

// The version, and a text of it.
pub(crate) fn version(token: Token, stack: &mut Vec<TextPart>) -> Result<Step, Memory>
    ensures { DoesStep rules.Version token stack.old.items stack.new.items result }
{
    match token.mark {
        Mark::Integer(Integer::One) => expand(
            stack,
            &[
                Taken(Taker::One(BeginFirst)),
                Row(Head),
                Row(Body(Edition::First)),
            ],
        ),
        Mark::Integer(Integer::Two) => expand(
            stack,
            &[
                Taken(Taker::Two(BeginSecond)),
                Row(Head),
                Row(Body(Edition::Second)),
            ],
        ),
        Mark::Integer(_) => expand(stack, &[Taken(Taker::WrongVersion), Row(Never)]),
        _ => Ok(Step::Refuse),
    }
}

// The names that are taken.
pub(crate) fn head(token: Token, stack: &mut Vec<TextPart>) -> Result<Step, Memory>
    ensures { DoesStep rules.Head token stack.old.items stack.new.items result }
{
    match token.mark {
        Mark::Fixed(Fixed::Dot) => expand(
            stack,
            &[
                Taken(Taker::Fixed(Fixed::Dot, Nothing)),
                Taken(Taker::Fixed(Fixed::Take, Nothing)),
                Row(Names),
                Taken(Taker::Fixed(Fixed::Dot, TakeNames)),
            ],
        ),
        _ => Ok(Step::Refuse),
    }
}

// Names in brackets.
pub(crate) fn names(token: Token, stack: &mut Vec<TextPart>) -> Result<Step, Memory>
    ensures { DoesStep rules.Names token stack.old.items stack.new.items result }
{
    match token.mark {
        Mark::Fixed(Fixed::OpenBracket) => expand(
            stack,
            &[
                Taken(Taker::Fixed(Fixed::OpenBracket, BeginNames)),
                Row(ListedNames),
                Taken(Taker::Fixed(Fixed::CloseBracket, Nothing)),
            ],
        ),
        _ => Ok(Step::Refuse),
    }
}

// Nothing, or a name and further ones.
pub(crate) fn listed_names(token: Token, stack: &mut Vec<TextPart>) -> Result<Step, Memory>
    ensures { DoesStep rules.ListedNames token stack.old.items stack.new.items result }
{
    if token.mark.is_word() {
        expand(stack, &[Taken(Taker::Name(Naming::Listed)), Row(MoreNames)])
    } else {
        expand(stack, &[])
    }
}

// Nothing, or a comma and further names.
pub(crate) fn more_names(token: Token, stack: &mut Vec<TextPart>) -> Result<Step, Memory>
    ensures { DoesStep rules.MoreNames token stack.old.items stack.new.items result }
{
    match token.mark {
        Mark::Fixed(Fixed::Comma) => expand(
            stack,
            &[
                Taken(Taker::Fixed(Fixed::Comma, Nothing)),
                Taken(Taker::Name(Naming::Listed)),
                Row(MoreNames),
            ],
        ),
        _ => expand(stack, &[]),
    }
}

// A step and what follows it, or an end.
pub(crate) fn body(
    edition: Edition,
    token: Token,
    stack: &mut Vec<TextPart>,
) -> Result<Step, Memory>
    ensures { DoesStep (rules.Body edition) token stack.old.items stack.new.items result }
{
    match (edition, token.mark) {
        (_, Mark::Fixed(Fixed::Mp)) => expand(
            stack,
            &[Row(Rule::Step(edition)), Row(Body(edition))],
        ),
        (_, Mark::Fixed(Fixed::As | Fixed::Efq | Fixed::Cs))
        | (Edition::Second, Mark::Fixed(Fixed::Gap)) => expand(stack, &[Row(Finish(edition))]),
        _ => Ok(Step::Refuse),
    }
}

// A citation, its instance, and what the step gives.
pub(crate) fn step(
    edition: Edition,
    token: Token,
    stack: &mut Vec<TextPart>,
) -> Result<Step, Memory>
    ensures { DoesStep (rules.Step edition) token stack.old.items stack.new.items result }
{
    match (edition, token.mark) {
        (Edition::First, Mark::Fixed(Fixed::Mp)) => push_first_step(stack),
        (Edition::Second, Mark::Fixed(Fixed::Mp)) => push_second_step(stack),
        _ => Ok(Step::Refuse),
    }
}

fn push_first_step(stack: &mut Vec<TextPart>) -> Result<Step, Memory>
    ensures { IfOk result (λ step. IsExpand step first_step_row stack.old.items stack.new.items) }
{
    expand(
        stack,
        &[
            Taken(Taker::Fixed(Fixed::Mp, Nothing)),
            Row(Cite),
            Row(Names),
            Taken(Taker::Fixed(Fixed::New, KeepArgs)),
            Row(Names),
            Row(Given(Edition::First)),
        ],
    )
}

fn push_second_step(stack: &mut Vec<TextPart>) -> Result<Step, Memory>
    ensures { IfOk result (λ step. IsExpand step second_step_row stack.old.items stack.new.items) }
{
    expand(
        stack,
        &[
            Taken(Taker::Fixed(Fixed::Mp, Nothing)),
            Row(Cite),
            Row(Binds),
            Taken(Taker::Fixed(Fixed::New, Nothing)),
            Row(Names),
            Row(Given(Edition::Second)),
        ],
    )
}

// A line, which the second version may leave out.
pub(crate) fn given(
    edition: Edition,
    token: Token,
    stack: &mut Vec<TextPart>,
) -> Result<Step, Memory>
    ensures { DoesStep (rules.Given edition) token stack.old.items stack.new.items result }
{
    match (edition, token.mark) {
        (_, Mark::Fixed(Fixed::Gives)) => expand(
            stack,
            &[
                Taken(Taker::Fixed(Fixed::Gives, KeepFresh)),
                Row(Line),
                Taken(Taker::Fixed(Fixed::Dot, EndStep)),
            ],
        ),
        (Edition::Second, Mark::Fixed(Fixed::Dot)) => expand(
            stack,
            &[Taken(Taker::Fixed(Fixed::Dot, EndBareStep))],
        ),
        _ => Ok(Step::Refuse),
    }
}

// A disjunct of the goal, falsehood, a split, or a gap.
pub(crate) fn finish(
    edition: Edition,
    token: Token,
    stack: &mut Vec<TextPart>,
) -> Result<Step, Memory>
    ensures { DoesStep (rules.Finish edition) token stack.old.items stack.new.items result }
{
    match (edition, token.mark) {
        (_, Mark::Fixed(Fixed::As)) => expand(
            stack,
            &[
                Taken(Taker::Fixed(Fixed::As, Nothing)),
                Taken(Taker::Number(Counting::Disjunct)),
                Row(Names),
                Taken(Taker::Fixed(Fixed::Dot, EndAs)),
            ],
        ),
        (_, Mark::Fixed(Fixed::Efq)) => expand(
            stack,
            &[
                Taken(Taker::Fixed(Fixed::Efq, Nothing)),
                Taken(Taker::Fixed(Fixed::Dot, EndEfq)),
            ],
        ),
        (_, Mark::Fixed(Fixed::Cs)) => expand(
            stack,
            &[
                Taken(Taker::Fixed(Fixed::Cs, Nothing)),
                Taken(Taker::Number(Counting::Line)),
                Taken(Taker::Fixed(Fixed::Dot, BeginSplit)),
                Row(Case(edition)),
                Row(MoreCases(edition)),
                Row(SplitEnd),
            ],
        ),
        (Edition::Second, Mark::Fixed(Fixed::Gap)) => expand(
            stack,
            &[
                Taken(Taker::Fixed(Fixed::Gap, Nothing)),
                Taken(Taker::Number(Counting::Within)),
                Taken(Taker::Fixed(Fixed::Dot, EndGap)),
            ],
        ),
        _ => Ok(Step::Refuse),
    }
}

// The word `end`.
pub(crate) fn split_end(token: Token, stack: &mut Vec<TextPart>) -> Result<Step, Memory>
    ensures { DoesStep rules.SplitEnd token stack.old.items stack.new.items result }
{
    match token.mark {
        Mark::Fixed(Fixed::End) => expand(
            stack,
            &[
                Taken(Taker::Fixed(Fixed::End, Nothing)),
                Taken(Taker::Fixed(Fixed::Dot, EndSplit)),
            ],
        ),
        _ => Ok(Step::Refuse),
    }
}

// The facts of a case, and its body.
pub(crate) fn case(
    edition: Edition,
    token: Token,
    stack: &mut Vec<TextPart>,
) -> Result<Step, Memory>
    ensures { DoesStep (rules.Case edition) token stack.old.items stack.new.items result }
{
    match token.mark {
        Mark::Fixed(Fixed::Case) => expand(
            stack,
            &[
                Taken(Taker::Fixed(Fixed::Case, BeginCase)),
                Row(CaseHead(edition)),
                Row(Body(edition)),
                Row(Does(Pass::AddCase)),
            ],
        ),
        _ => Ok(Step::Refuse),
    }
}

// Nothing, or a further case.
pub(crate) fn more_cases(
    edition: Edition,
    token: Token,
    stack: &mut Vec<TextPart>,
) -> Result<Step, Memory>
    ensures { DoesStep (rules.MoreCases edition) token stack.old.items stack.new.items result }
{
    match token.mark {
        Mark::Fixed(Fixed::Case) => expand(stack, &[Row(Case(edition)), Row(MoreCases(edition))]),
        _ => expand(stack, &[]),
    }
}

// Facts, which the second version may leave out.
pub(crate) fn case_head(
    edition: Edition,
    token: Token,
    stack: &mut Vec<TextPart>,
) -> Result<Step, Memory>
    ensures { DoesStep (rules.CaseHead edition) token stack.old.items stack.new.items result }
{
    match (edition, token.mark) {
        _ if token.mark.begins_facts() => expand(
            stack,
            &[Row(Facts), Taken(Taker::Fixed(Fixed::Dot, ShowCase))],
        ),
        (Edition::Second, Mark::Fixed(Fixed::Dot)) => expand(
            stack,
            &[Taken(Taker::Fixed(Fixed::Dot, BareCase))],
        ),
        _ => Ok(Step::Refuse),
    }
}
