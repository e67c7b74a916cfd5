ghost use Rattle.std.specs.Prelude.{◌≡◌};
ghost use Rattle.model_text.specs.Grammar as grammar;

use crate::mark::Mark;
use crate::watch::{Fault, Watch};
use ModelPart::{Row, Taken};
use Rule::{Arguments, Facts, Others, Places, Sized, Text};
use Taker::{
    Argument, Close, Comma, Constant, Dot, Element, EndFact, FactWord, IsWord, ModelWord, Open,
    PlaceWord, Predicate, Size, SizeWord, Version,
};
use text_core::Memory;
use token_grammar::{Part, Step, expand};

/// A part of the grammar of models, factored so that the next token chooses the row that it stands
/// for.
#[derive(Clone, Copy, Debug)]
pub enum ModelPart {
    /// One token.
    Taken(Taker),
    /// A rule with rows.
    Row(Rule),
}

/// What takes one token, named by what the token is there for.
#[derive(Clone, Copy, Debug)]
pub enum Taker {
    /// `model`
    ModelWord,
    /// `1`
    Version,
    /// `size`
    SizeWord,
    /// The size: a number.
    Size,
    /// `place`
    PlaceWord,
    /// The constant of a place: a word.
    Constant,
    /// `is`
    IsWord,
    /// The element of a place: a number.
    Element,
    /// `fact`
    FactWord,
    /// The predicate of a fact: a word.
    Predicate,
    /// An argument of a fact: a number.
    Argument,
    /// `(`
    Open,
    /// `)`
    Close,
    /// `,`
    Comma,
    /// The dot of a fact.
    EndFact,
    /// Another dot.
    Dot,
}

/// A part that stands for rows of parts.
#[derive(Clone, Copy, Debug)]
pub enum Rule {
    /// The whole text.
    Text,
    /// The text behind its first sentence.
    Sized,
    /// The places.
    Places,
    /// The facts.
    Facts,
    /// The arguments of a fact, in brackets, or none.
    Arguments,
    /// The arguments of a fact after its first.
    Others,
}

impl Taker {
    // Which tokens are taken.
    fn takes(self, token: Mark) -> bool
        ensures { result ≡ grammar.taker_takes self token }
    {
        match self {
            Constant | Predicate => token.is_word(),
            Size | Element | Argument => token.is_number(),
            _ => matches!(
                (self, token),
                (ModelWord, Mark::Model(_))
                    | (Version, Mark::One)
                    | (SizeWord, Mark::Size(_))
                    | (PlaceWord, Mark::Place(_))
                    | (IsWord, Mark::Is(_))
                    | (FactWord, Mark::Fact(_))
                    | (Open, Mark::Open)
                    | (Close, Mark::Close)
                    | (Comma, Mark::Comma)
                    | (EndFact | Dot, Mark::Dot)
            ),
        }
    }
}

impl Part for ModelPart {
    type Token = Mark;

    type Watch = Watch;

    type Fault = Fault;

    ghost use Rattle.token_grammar.proofs.Laws.{computed_decided};
    ghost use Rattle.model_text.specs.Seen.{Seen};
    ghost use Rattle.model_text.specs.Grammar.{models, model_plan};
    ghost use Rattle.model_text.specs.GrammarLaw.{model_law};
    ghost use Rattle.model_text.specs.Watching.{model_watcher, look};

    ghost grammar = { models };

    ghost plan = { model_plan };

    ghost Seen = { Seen };

    ghost seen = { λ watch. watch };

    ghost watcher = { model_watcher };

    fn may_be_empty(self) -> bool {
        matches!(self, Row(Places | Facts | Arguments | Others))
    }

    fn step(self, token: Mark, stack: &mut Vec<ModelPart>) -> Result<Step, Memory> {
        match (self, token) {
            (Taken(taker), _) => Ok(if taker.takes(token) {
                Step::Take
            } else {
                Step::Refuse
            }),
            (Row(Text), Mark::Model(_)) => expand(
                stack,
                &[Taken(ModelWord), Taken(Version), Taken(Dot), Row(Sized)],
            ),
            (Row(Sized), Mark::Size(_)) => expand(
                stack,
                &[
                    Taken(SizeWord),
                    Taken(Size),
                    Taken(Dot),
                    Row(Places),
                    Row(Facts),
                ],
            ),
            (Row(Places), Mark::Place(_)) => expand(
                stack,
                &[
                    Taken(PlaceWord),
                    Taken(Constant),
                    Taken(IsWord),
                    Taken(Element),
                    Taken(Dot),
                    Row(Places),
                ],
            ),
            (Row(Facts), Mark::Fact(_)) => expand(
                stack,
                &[
                    Taken(FactWord),
                    Taken(Predicate),
                    Row(Arguments),
                    Taken(EndFact),
                    Row(Facts),
                ],
            ),
            (Row(Arguments), Mark::Open) => expand(
                stack,
                &[Taken(Open), Taken(Argument), Row(Others), Taken(Close)],
            ),
            (Row(Others), Mark::Comma) => expand(
                stack,
                &[Taken(Comma), Taken(Argument), Row(Others)],
            ),
            (Row(Places | Facts | Arguments | Others), _) => expand(stack, &[]),
            (Row(_), _) => Ok(Step::Refuse),
        }
    }

    fn note(self, token: Mark, watch: &mut Watch) -> Result<Result<(), Fault>, Memory> {
        match self {
            Taken(Size) => Ok(watch.set_size(token.number())),
            Taken(Constant) => watch.place(token.word()),
            Taken(Element | Argument) => Ok(watch.note_element(token.number())),
            _ => Ok(Ok(())),
        }
    }

    ghost predictive = { model_law };

    ghost decided = { computed_decided look };
}
