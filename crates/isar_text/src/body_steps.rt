//! The steps of a text behind its head, its bodies and what ends them: each pushes what the token
//! asks for, or refuses.

ghost use Rattle.std.specs.Prelude.{IfOk};
ghost use Rattle.token_grammar.specs.Step.{IsExpand};
ghost use Rattle.isar_text.specs.Stepping.{DoesStep, step_row, case_row};
ghost use Rattle.isar_text.specs.declared.part.Rule.TheVariants as rules;

use crate::fixed::Fixed;
use crate::mark::{Mark, Token};
use crate::part::IsarPart::{self, Row, Taken};
use crate::part::Rule::{
    Acts, AfterLine, AfterThesis, Body, ByBlast, ByCases, Case, CaseHead, Does, Facts, Finish,
    Given, Inside, Instance, Line, ListedNames, MoreCases, MoreLines, MoreNames, MoreWords, Names,
    QuotedFacts, QuotedLine, Reason, StepEnd, Using,
};
use crate::part::{Rule, Taker};
use proof_text::Act::{
    BeginCase, BeginFirst, BeginNames, BeginSplit, EndAs, EndEfq, EndSplit, EndStep, KeepArgs,
    KeepFresh, Nothing, ShowCase,
};
use proof_text::{Naming, Pass};
use text_core::Memory;
use token_grammar::{Step, expand};

// A body, and the last word.
pub(crate) fn rest(token: Token, stack: &mut Vec<IsarPart>) -> Result<Step, Memory>
    ensures { DoesStep rules.Rest token stack.old.items stack.new.items result }
{
    match token.mark {
        Mark::Fixed(Fixed::Have | Fixed::Obtain | Fixed::Show) => expand(
            stack,
            &[
                Row(Acts(BeginFirst)),
                Row(Body(1)),
                Taken(Taker::Fixed(Fixed::Qed, Nothing)),
            ],
        ),
        _ => Ok(Step::Refuse),
    }
}

// A step and what follows it, or an end.
pub(crate) fn body(lines: u32, token: Token, stack: &mut Vec<IsarPart>) -> Result<Step, Memory>
    ensures { DoesStep (rules.Body lines) token stack.old.items stack.new.items result }
{
    match token.mark {
        Mark::Fixed(Fixed::Have | Fixed::Obtain) => push_step(lines, stack),
        Mark::Fixed(Fixed::Show) => expand(stack, &[Row(Finish(lines))]),
        _ => Ok(Step::Refuse),
    }
}

// A step, with new names or without.
pub(crate) fn step(lines: u32, token: Token, stack: &mut Vec<IsarPart>) -> Result<Step, Memory>
    ensures { DoesStep (rules.Step lines) token stack.old.items stack.new.items result }
{
    match token.mark {
        Mark::Fixed(Fixed::Have) => expand(
            stack,
            &[
                Taken(Taker::Fixed(Fixed::Have, BeginNames)),
                Row(Given(lines)),
            ],
        ),
        Mark::Fixed(Fixed::Obtain) => expand(
            stack,
            &[
                Taken(Taker::Fixed(Fixed::Obtain, BeginNames)),
                Taken(Taker::Name(Naming::Listed)),
                Row(MoreWords),
                Taken(Taker::Fixed(Fixed::Where, Nothing)),
                Row(Given(lines)),
            ],
        ),
        _ => Ok(Step::Refuse),
    }
}

// The line of a step, and what it uses.
pub(crate) fn given(lines: u32, token: Token, stack: &mut Vec<IsarPart>) -> Result<Step, Memory>
    ensures { DoesStep (rules.Given lines) token stack.old.items stack.new.items result }
{
    match token.mark {
        Mark::Line(_) => expand(
            stack,
            &[
                Taken(Taker::NextLine(lines)),
                Taken(Taker::Fixed(Fixed::Colon, KeepFresh)),
                Row(QuotedLine),
                Row(Using(lines)),
            ],
        ),
        _ => Ok(Step::Refuse),
    }
}

// A line in quotes.
pub(crate) fn quoted_line(token: Token, stack: &mut Vec<IsarPart>) -> Result<Step, Memory>
    ensures { DoesStep rules.QuotedLine token stack.old.items stack.new.items result }
{
    match token.mark {
        Mark::Fixed(Fixed::Quote) => expand(
            stack,
            &[
                Taken(Taker::Fixed(Fixed::Quote, Nothing)),
                Row(Line),
                Taken(Taker::Fixed(Fixed::Quote, Nothing)),
            ],
        ),
        _ => Ok(Step::Refuse),
    }
}

// A form, lines and an instance.
pub(crate) fn using(lines: u32, token: Token, stack: &mut Vec<IsarPart>) -> Result<Step, Memory>
    ensures { DoesStep (rules.Using lines) token stack.old.items stack.new.items result }
{
    match token.mark {
        Mark::Fixed(Fixed::Using) => expand(
            stack,
            &[
                Taken(Taker::Fixed(Fixed::Using, Nothing)),
                Taken(Taker::Form),
                Row(MoreLines(lines)),
                Row(Instance),
                Row(StepEnd),
            ],
        ),
        _ => Ok(Step::Refuse),
    }
}

// Nothing, or a further label.
pub(crate) fn more_lines(
    lines: u32,
    token: Token,
    stack: &mut Vec<IsarPart>,
) -> Result<Step, Memory>
    ensures { DoesStep (rules.MoreLines lines) token stack.old.items stack.new.items result }
{
    match token.mark {
        Mark::Line(_) => expand(
            stack,
            &[Taken(Taker::OldLine(lines)), Row(MoreLines(lines))],
        ),
        _ => expand(stack, &[]),
    }
}

// An instance between its marks.
pub(crate) fn instance(token: Token, stack: &mut Vec<IsarPart>) -> Result<Step, Memory>
    ensures { DoesStep rules.Instance token stack.old.items stack.new.items result }
{
    match token.mark {
        Mark::Fixed(Fixed::OpenComment) => expand(
            stack,
            &[
                Taken(Taker::Fixed(Fixed::OpenComment, Nothing)),
                Row(Names),
                Taken(Taker::Fixed(Fixed::CloseComment, KeepArgs)),
            ],
        ),
        _ => Ok(Step::Refuse),
    }
}

// The last words of a step.
pub(crate) fn step_end(token: Token, stack: &mut Vec<IsarPart>) -> Result<Step, Memory>
    ensures { DoesStep rules.StepEnd token stack.old.items stack.new.items result }
{
    match token.mark {
        Mark::Fixed(Fixed::By) => expand(
            stack,
            &[
                Taken(Taker::Fixed(Fixed::By, Nothing)),
                Taken(Taker::Fixed(Fixed::Blast, EndStep)),
            ],
        ),
        _ => Ok(Step::Refuse),
    }
}

// The end of a body.
pub(crate) fn finish(lines: u32, token: Token, stack: &mut Vec<IsarPart>) -> Result<Step, Memory>
    ensures { DoesStep (rules.Finish lines) token stack.old.items stack.new.items result }
{
    match token.mark {
        Mark::Fixed(Fixed::Show) => expand(
            stack,
            &[
                Taken(Taker::Fixed(Fixed::Show, Nothing)),
                Taken(Taker::Fixed(Fixed::Thesis, Nothing)),
                Row(AfterThesis(lines)),
            ],
        ),
        _ => Ok(Step::Refuse),
    }
}

// A first label and what follows it, or a mark.
pub(crate) fn after_thesis(
    lines: u32,
    token: Token,
    stack: &mut Vec<IsarPart>,
) -> Result<Step, Memory>
    ensures { DoesStep (rules.AfterThesis lines) token stack.old.items stack.new.items result }
{
    match token.mark {
        Mark::Fixed(Fixed::Using) => expand(
            stack,
            &[
                Taken(Taker::Fixed(Fixed::Using, Nothing)),
                Taken(Taker::SplitLine(lines)),
                Row(AfterLine(lines)),
            ],
        ),
        Mark::Fixed(Fixed::OpenComment) => expand(stack, &[Row(Reason)]),
        _ => Ok(Step::Refuse),
    }
}

// A split, or further labels and a mark.
pub(crate) fn after_line(
    lines: u32,
    token: Token,
    stack: &mut Vec<IsarPart>,
) -> Result<Step, Memory>
    ensures { DoesStep (rules.AfterLine lines) token stack.old.items stack.new.items result }
{
    match token.mark {
        Mark::Fixed(Fixed::Proof) => expand(
            stack,
            &[
                Taken(Taker::Fixed(Fixed::Proof, BeginSplit)),
                Row(ByCases),
                Row(Case(lines)),
                Row(MoreCases(lines)),
                Taken(Taker::Fixed(Fixed::Qed, EndSplit)),
            ],
        ),
        Mark::Line(_) | Mark::Fixed(Fixed::OpenComment) => expand(
            stack,
            &[Row(MoreLines(lines)), Row(Reason)],
        ),
        _ => Ok(Step::Refuse),
    }
}

// The words in brackets behind `proof`.
pub(crate) fn by_cases(token: Token, stack: &mut Vec<IsarPart>) -> Result<Step, Memory>
    ensures { DoesStep rules.ByCases token stack.old.items stack.new.items result }
{
    match token.mark {
        Mark::Fixed(Fixed::OpenParenthesis) => expand(
            stack,
            &[
                Taken(Taker::Fixed(Fixed::OpenParenthesis, Nothing)),
                Taken(Taker::Fixed(Fixed::Elim, Nothing)),
                Taken(Taker::Fixed(Fixed::DisjE, Nothing)),
                Taken(Taker::Fixed(Fixed::CloseParenthesis, Nothing)),
            ],
        ),
        _ => Ok(Step::Refuse),
    }
}

// A mark and the last words of an end.
pub(crate) fn reason(token: Token, stack: &mut Vec<IsarPart>) -> Result<Step, Memory>
    ensures { DoesStep rules.Reason token stack.old.items stack.new.items result }
{
    match token.mark {
        Mark::Fixed(Fixed::OpenComment) => expand(
            stack,
            &[
                Taken(Taker::Fixed(Fixed::OpenComment, Nothing)),
                Row(Inside),
            ],
        ),
        _ => Ok(Step::Refuse),
    }
}

// A disjunct of the goal, or falsehood.
pub(crate) fn inside(token: Token, stack: &mut Vec<IsarPart>) -> Result<Step, Memory>
    ensures { DoesStep rules.Inside token stack.old.items stack.new.items result }
{
    match token.mark {
        Mark::Fixed(Fixed::As) => expand(
            stack,
            &[
                Taken(Taker::Fixed(Fixed::As, Nothing)),
                Taken(Taker::Disjunct),
                Row(Names),
                Taken(Taker::Fixed(Fixed::CloseComment, EndAs)),
                Row(ByBlast),
            ],
        ),
        Mark::Fixed(Fixed::Efq) => expand(
            stack,
            &[
                Taken(Taker::Fixed(Fixed::Efq, Nothing)),
                Taken(Taker::Fixed(Fixed::CloseComment, EndEfq)),
                Row(ByBlast),
            ],
        ),
        _ => Ok(Step::Refuse),
    }
}

// The last words of an end.
pub(crate) fn by_blast(token: Token, stack: &mut Vec<IsarPart>) -> Result<Step, Memory>
    ensures { DoesStep rules.ByBlast token stack.old.items stack.new.items result }
{
    match token.mark {
        Mark::Fixed(Fixed::By) => expand(
            stack,
            &[
                Taken(Taker::Fixed(Fixed::By, Nothing)),
                Taken(Taker::Fixed(Fixed::Blast, Nothing)),
            ],
        ),
        _ => Ok(Step::Refuse),
    }
}

// The line of a case, and its body.
pub(crate) fn case(lines: u32, token: Token, stack: &mut Vec<IsarPart>) -> Result<Step, Memory>
    ensures { DoesStep (rules.Case lines) token stack.old.items stack.new.items result }
{
    match token.mark {
        Mark::Fixed(Fixed::Assume) => push_case(lines, stack),
        _ => Ok(Step::Refuse),
    }
}

// The label and the facts of a case.
pub(crate) fn case_head(lines: u32, token: Token, stack: &mut Vec<IsarPart>) -> Result<Step, Memory>
    ensures { DoesStep (rules.CaseHead lines) token stack.old.items stack.new.items result }
{
    match token.mark {
        Mark::Line(_) => expand(
            stack,
            &[
                Taken(Taker::NextLine(lines)),
                Taken(Taker::Fixed(Fixed::Colon, Nothing)),
                Row(QuotedFacts),
            ],
        ),
        _ => Ok(Step::Refuse),
    }
}

// Facts in quotes.
pub(crate) fn quoted_facts(token: Token, stack: &mut Vec<IsarPart>) -> Result<Step, Memory>
    ensures { DoesStep rules.QuotedFacts token stack.old.items stack.new.items result }
{
    match token.mark {
        Mark::Fixed(Fixed::Quote) => expand(
            stack,
            &[
                Taken(Taker::Fixed(Fixed::Quote, Nothing)),
                Row(Facts),
                Taken(Taker::Fixed(Fixed::Quote, ShowCase)),
            ],
        ),
        _ => Ok(Step::Refuse),
    }
}

// Nothing, or a further case.
pub(crate) fn more_cases(
    lines: u32,
    token: Token,
    stack: &mut Vec<IsarPart>,
) -> Result<Step, Memory>
    ensures { DoesStep (rules.MoreCases lines) token stack.old.items stack.new.items result }
{
    match token.mark {
        Mark::Fixed(Fixed::Next) => expand(
            stack,
            &[
                Taken(Taker::Fixed(Fixed::Next, Nothing)),
                Row(Case(lines)),
                Row(MoreCases(lines)),
            ],
        ),
        _ => expand(stack, &[]),
    }
}

// Names in brackets.
pub(crate) fn names(token: Token, stack: &mut Vec<IsarPart>) -> Result<Step, Memory>
    ensures { DoesStep rules.Names token stack.old.items stack.new.items result }
{
    match token.mark {
        Mark::Fixed(Fixed::OpenBracket) => expand(
            stack,
            &[
                Taken(Taker::Fixed(Fixed::OpenBracket, BeginNames)),
                Row(ListedNames),
                Taken(Taker::Fixed(Fixed::CloseBracket, Nothing)),
            ],
        ),
        _ => Ok(Step::Refuse),
    }
}

// Nothing, or a name and further ones.
pub(crate) fn listed_names(token: Token, stack: &mut Vec<IsarPart>) -> Result<Step, Memory>
    ensures { DoesStep rules.ListedNames token stack.old.items stack.new.items result }
{
    match token.mark {
        Mark::Name => expand(stack, &[Taken(Taker::Name(Naming::Listed)), Row(MoreNames)]),
        _ => expand(stack, &[]),
    }
}

// Nothing, or a comma and further names.
pub(crate) fn more_names(token: Token, stack: &mut Vec<IsarPart>) -> Result<Step, Memory>
    ensures { DoesStep rules.MoreNames token stack.old.items stack.new.items result }
{
    match token.mark {
        Mark::Fixed(Fixed::Comma) => expand(
            stack,
            &[
                Taken(Taker::Fixed(Fixed::Comma, Nothing)),
                Taken(Taker::Name(Naming::Listed)),
                Row(MoreNames),
            ],
        ),
        _ => expand(stack, &[]),
    }
}

// Nothing, or further names.
pub(crate) fn more_words(token: Token, stack: &mut Vec<IsarPart>) -> Result<Step, Memory>
    ensures { DoesStep rules.MoreWords token stack.old.items stack.new.items result }
{
    match token.mark {
        Mark::Name => expand(stack, &[Taken(Taker::Name(Naming::Listed)), Row(MoreWords)]),
        _ => expand(stack, &[]),
    }
}

// Pushes a step and what follows it, which has a line more.
fn push_step(lines: u32, stack: &mut Vec<IsarPart>) -> Result<Step, Memory>
    ensures { IfOk result (λ step. IsExpand step (step_row lines) stack.old.items
        stack.new.items) }
{
    let more = lines.checked_add(1).ok_or(Memory)?;
    expand(stack, &[Row(Rule::Step(lines)), Row(Body(more))])
}

// Pushes a case, whose body has a line more.
fn push_case(lines: u32, stack: &mut Vec<IsarPart>) -> Result<Step, Memory>
    ensures { IfOk result (λ step. IsExpand step (case_row lines) stack.old.items
        stack.new.items) }
{
    let more = lines.checked_add(1).ok_or(Memory)?;
    expand(
        stack,
        &[
            Taken(Taker::Fixed(Fixed::Assume, BeginCase)),
            Row(CaseHead(lines)),
            Row(Body(more)),
            Row(Does(Pass::AddCase)),
        ],
    )
}
