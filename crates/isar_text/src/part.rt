ghost use Rattle.std.specs.Prelude.{◌≡◌, ◌==◌, nat_lt};
ghost use Rattle.isar_text.specs.Grammar as grammar;
ghost use Rattle.isar_text.specs.Fixed.{same_fixed};
ghost use Rattle.isar_text.specs.Stepping.{DoesStep};

use crate::fixed::Fixed;
use crate::mark::{Mark, Token};
use crate::watch::{Excess, RuleWords};
use crate::{body_steps as bodies, line_steps as lines};
use proof_text::{Act, Naming, Pass};
use text_core::Memory;
use token_grammar::{Part, Step, expand};

/// A part of the grammar of what follows the head, factored so that the next token chooses the row
/// that it stands for. Where a part has a number, it is the number of lines of the branch so far.
#[derive(Clone, Copy, Debug)]
pub enum IsarPart {
    /// One token.
    Taken(Taker),
    /// A rule with rows.
    Row(Rule),
}

/// What takes one token, with what the builder does there.
#[derive(Clone, Copy, Debug)]
pub enum Taker {
    /// The token with this text.
    Fixed(Fixed, Act),
    /// The written form of a name.
    Name(Naming),
    /// The label of a form.
    Form,
    /// The label of the next line.
    NextLine(u32),
    /// The label of an earlier line, which is not kept.
    OldLine(u32),
    /// The label of an earlier line, which may be that of a split.
    SplitLine(u32),
    /// A disjunct of the goal, by its number.
    Disjunct,
}

/// A part that stands for rows of parts.
#[derive(Clone, Copy, Debug)]
pub enum Rule {
    /// What follows the head: a body, and the last word.
    Rest,
    /// Steps and an end.
    Body(u32),
    /// A step.
    Step(u32),
    /// A step from the label of its line on.
    Given(u32),
    /// A line in quotes.
    QuotedLine,
    /// What a step uses: a form, lines and an instance.
    Using(u32),
    /// Further labels of earlier lines.
    MoreLines(u32),
    /// An instance between its marks.
    Instance,
    /// The last words of a step.
    StepEnd,
    /// The end of a body.
    Finish(u32),
    /// The end of a body behind its first words.
    AfterThesis(u32),
    /// The end of a body behind the first label that it uses.
    AfterLine(u32),
    /// The words in brackets behind `proof`.
    ByCases,
    /// The end of a body from its mark on.
    Reason,
    /// The end of a body inside its mark.
    Inside,
    /// The last words of an end.
    ByBlast,
    /// A case.
    Case(u32),
    /// The line of a case.
    CaseHead(u32),
    /// Facts in quotes.
    QuotedFacts,
    /// Further cases.
    MoreCases(u32),
    /// Names in brackets.
    Names,
    /// Names between brackets.
    ListedNames,
    /// Further names behind commas.
    MoreNames,
    /// Further names behind blanks.
    MoreWords,
    /// A line.
    Line,
    /// What follows a first part that is no atom and in no brackets: nothing, or further parts.
    AfterTrue,
    /// What follows a first atom: nothing, further atoms, or further parts.
    AfterAtom,
    /// What follows a first part in brackets: further parts.
    AfterGroup,
    /// Parts behind the second.
    Bars,
    /// A part of a line.
    LinePart,
    /// Atoms in brackets.
    Group,
    /// Further atoms.
    MoreAtoms,
    /// Facts.
    Facts,
    /// An atom.
    Atom,
    /// What follows an atom's first name: nothing, arguments, or the rest of an equation.
    AfterName,
    /// What follows the predicate of a negated atom: nothing, or arguments.
    AfterNegated,
    /// Nothing, where the builder acts so.
    Acts(Act),
    /// Nothing, where the builder does this.
    Does(Pass),
}

// Whether the token has this text.
fn is_fixed(fixed: Fixed, mark: Mark) -> bool
    ensures { result ≡ grammar.is_fixed fixed mark }
{
    match mark {
        Mark::Fixed(other) => is_same(fixed, other),
        _ => false,
    }
}

// Whether the two are the same.
fn is_same(fixed: Fixed, other: Fixed) -> bool
    ensures { result ≡ same_fixed fixed other }
{
    fixed == other
}

// Whether the token is the label of the line with this number.
fn is_next(lines: u32, mark: Mark) -> bool
    ensures { result ≡ grammar.is_line (λ line. lines == line) mark }
{
    match mark {
        Mark::Line(line) => lines == line,
        _ => false,
    }
}

// Whether the token is the label of an earlier line.
fn is_old(lines: u32, mark: Mark) -> bool
    ensures { result ≡ grammar.is_line (λ line. nat_lt line lines) mark }
{
    match mark {
        Mark::Line(line) => line < lines,
        _ => false,
    }
}

impl Taker {
    // Whether the token is what this takes.
    fn takes(self, mark: Mark) -> bool
        ensures { result ≡ grammar.mark_taken self mark }
    {
        match self {
            Taker::Fixed(fixed, _) => is_fixed(fixed, mark),
            Taker::Name(_) => matches!(mark, Mark::Name),
            Taker::Form => matches!(mark, Mark::Form(_)),
            Taker::Disjunct => matches!(mark, Mark::Number(_)),
            Taker::NextLine(lines) => is_next(lines, mark),
            Taker::OldLine(lines) | Taker::SplitLine(lines) => is_old(lines, mark),
        }
    }
}

impl Rule {
    // Pushes the row that the token asks for, or refuses.
    fn step(self, token: Token, stack: &mut Vec<IsarPart>) -> Result<Step, Memory>
        ensures { DoesStep self token stack.old.items stack.new.items result }
    {
        match self {
            Rule::Rest => bodies::rest(token, stack),
            Rule::Body(lines) => bodies::body(lines, token, stack),
            Rule::Step(lines) => bodies::step(lines, token, stack),
            Rule::Given(lines) => bodies::given(lines, token, stack),
            Rule::QuotedLine => bodies::quoted_line(token, stack),
            Rule::Using(lines) => bodies::using(lines, token, stack),
            Rule::MoreLines(lines) => bodies::more_lines(lines, token, stack),
            Rule::Instance => bodies::instance(token, stack),
            Rule::StepEnd => bodies::step_end(token, stack),
            Rule::Finish(lines) => bodies::finish(lines, token, stack),
            Rule::AfterThesis(lines) => bodies::after_thesis(lines, token, stack),
            Rule::AfterLine(lines) => bodies::after_line(lines, token, stack),
            Rule::ByCases => bodies::by_cases(token, stack),
            Rule::Reason => bodies::reason(token, stack),
            Rule::Inside => bodies::inside(token, stack),
            Rule::ByBlast => bodies::by_blast(token, stack),
            Rule::Case(lines) => bodies::case(lines, token, stack),
            Rule::CaseHead(lines) => bodies::case_head(lines, token, stack),
            Rule::QuotedFacts => bodies::quoted_facts(token, stack),
            Rule::MoreCases(lines) => bodies::more_cases(lines, token, stack),
            Rule::Names => bodies::names(token, stack),
            Rule::ListedNames => bodies::listed_names(token, stack),
            Rule::MoreNames => bodies::more_names(token, stack),
            Rule::MoreWords => bodies::more_words(token, stack),
            Rule::Line => lines::line(token, stack),
            Rule::AfterTrue => lines::after_true(token, stack),
            Rule::AfterAtom => lines::after_atom(token, stack),
            Rule::AfterGroup => lines::after_group(token, stack),
            Rule::Bars => lines::bars(token, stack),
            Rule::LinePart => lines::line_part(token, stack),
            Rule::Group => lines::group(token, stack),
            Rule::MoreAtoms => lines::more_atoms(token, stack),
            Rule::Facts => lines::facts(token, stack),
            Rule::Atom => lines::atom(token, stack),
            Rule::AfterName => lines::after_name(token, stack),
            Rule::AfterNegated => lines::after_negated(token, stack),
            Rule::Acts(_) | Rule::Does(_) => expand(stack, &[]),
        }
    }
}

impl Part for IsarPart {
    type Token = Token;

    type Watch = RuleWords;

    type Fault = Excess;

    ghost use Rattle.token_grammar.proofs.Laws.{computed_decided};
    ghost use Rattle.isar_text.specs.declared.watch.RuleWords.{RuleWords};
    ghost use Rattle.isar_text.specs.Grammar.{isar_rests, isar_plan};
    ghost use Rattle.isar_text.specs.GrammarLaw.{isar_law};
    ghost use Rattle.isar_text.specs.Watching.{isar_watcher, look};

    ghost grammar = { isar_rests };

    ghost plan = { isar_plan };

    ghost Seen = { RuleWords };

    ghost seen = { λ words. words };

    ghost watcher = { isar_watcher };

    fn may_be_empty(self) -> bool {
        matches!(
            self,
            IsarPart::Row(
                Rule::MoreLines(_)
                    | Rule::MoreCases(_)
                    | Rule::ListedNames
                    | Rule::MoreNames
                    | Rule::MoreWords
                    | Rule::AfterTrue
                    | Rule::AfterAtom
                    | Rule::Bars
                    | Rule::MoreAtoms
                    | Rule::AfterName
                    | Rule::AfterNegated
                    | Rule::Acts(_)
                    | Rule::Does(_)
            )
        )
    }

    fn step(self, token: Token, stack: &mut Vec<IsarPart>) -> Result<Step, Memory> {
        match self {
            IsarPart::Taken(taker) => Ok(if taker.takes(token.mark) {
                Step::Take
            } else {
                Step::Refuse
            }),
            IsarPart::Row(rule) => rule.step(token, stack),
        }
    }

    fn note(self, token: Token, watch: &mut RuleWords) -> Result<Result<(), Excess>, Memory> {
        Ok(match self {
            IsarPart::Taken(Taker::Fixed(Fixed::Have | Fixed::Obtain | Fixed::Show, _)) => {
                watch.count(token.number)
            }
            IsarPart::Taken(Taker::Fixed(Fixed::Proof, _)) => watch.open_split(),
            IsarPart::Taken(Taker::Fixed(Fixed::Qed, Act::EndSplit)) => {
                watch.close_split();
                Ok(())
            }
            _ => Ok(()),
        })
    }

    ghost predictive = { isar_law };

    ghost decided = { computed_decided look };
}
