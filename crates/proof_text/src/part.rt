ghost use Rattle.std.specs.Prelude.{◌≡◌};
ghost use Rattle.proof_text.specs.Grammar as grammar;
ghost use Rattle.proof_text.specs.Stepping.{DoesStep};

use crate::fixed::Fixed;
use crate::mark::{Integer, Mark, Token};
use crate::watch::{Limit, Tally};
use crate::{body_steps as bodies, cite_steps as cites, line_steps as lines};
use text_core::Memory;
use token_grammar::{Part, Step, expand};

/// The version of a proof text.
#[derive(Clone, Copy, Debug)]
pub enum Edition {
    /// `1`
    First,
    /// `2`
    Second,
}

/// A part of the grammar of proof texts, factored so that the next token chooses the row that it
/// stands for.
#[derive(Clone, Copy, Debug)]
pub enum TextPart {
    /// One token.
    Taken(Taker),
    /// A rule with rows.
    Row(Rule),
}

/// What takes one token, with what the builder does there.
#[derive(Clone, Copy, Debug)]
pub enum Taker {
    /// The token with this text.
    Fixed(Fixed, Act),
    /// A name.
    Name(Naming),
    /// A number.
    Number(Counting),
    /// `1`
    One(Act),
    /// `2`
    Two(Act),
    /// Another integer in the place of the version, which the watcher refuses.
    WrongVersion,
}

/// What a name is there for.
#[derive(Clone, Copy, Debug)]
pub enum Naming {
    /// A name of a list, or an argument of an atom: a word.
    Listed,
    /// The name of a formula: a word or an integer.
    Cited,
    /// The predicate of a built-in axiom: a word.
    Symbol,
    /// A universal variable: an upper word.
    Label,
    /// The value of a variable: a word.
    Bound,
    /// The predicate of an atom, or the left side of an equation: a word.
    Predicate,
    /// The right side of an equation: a word.
    Equal,
    /// The right side of an inequality: a word.
    Unequal,
}

/// What a number is there for.
#[derive(Clone, Copy, Debug)]
pub enum Counting {
    /// The rank under a name.
    Rank,
    /// The arity of a predicate.
    Arity,
    /// A place of a predicate.
    Place,
    /// A disjunct of the goal.
    Disjunct,
    /// The line of a split.
    Line,
    /// The most rule applications of a gap, from 1 to `MOST_WITHIN`.
    Within,
}

/// A part that stands for rows of parts.
#[derive(Clone, Copy, Debug)]
pub enum Rule {
    /// A whole proof text.
    Text,
    /// A proof text behind its first word.
    Version,
    /// Nothing at all can stand here: behind a version that there is not.
    Never,
    /// The names that are taken.
    Head,
    /// Names in brackets.
    Names,
    /// Names between brackets.
    ListedNames,
    /// Further names.
    MoreNames,
    /// Steps and an end.
    Body(Edition),
    /// A step.
    Step(Edition),
    /// A step from its line on.
    Given(Edition),
    /// The end of a body.
    Finish(Edition),
    /// The end of a split.
    SplitEnd,
    /// A case.
    Case(Edition),
    /// Further cases.
    MoreCases(Edition),
    /// The facts of a case.
    CaseHead(Edition),
    /// A citation.
    Cite,
    /// A rank under a name: 1, or a number.
    Rank,
    /// The symbol of `$sub`, with its sign.
    SignedSymbol,
    /// A symbol and its arity.
    Symbol,
    /// Values of variables in brackets.
    Binds,
    /// Values of variables between brackets.
    ListedBinds,
    /// Further values of variables.
    MoreBinds,
    /// The value of a variable.
    Bind,
    /// A line.
    Line,
    /// What follows a first part that is no atom and in no brackets: nothing, or further parts.
    AfterTrue,
    /// What follows a first atom: nothing, further atoms, or further parts.
    AfterAtom,
    /// What follows a first part in brackets: further parts.
    AfterGroup,
    /// Parts behind the second.
    Bars,
    /// A part of a line.
    LinePart,
    /// Atoms in brackets.
    Group,
    /// Further atoms.
    MoreAtoms,
    /// Facts.
    Facts,
    /// An atom.
    Atom,
    /// What follows an atom's first word: nothing, arguments, or the rest of an equation.
    AfterWord,
    /// What follows the predicate of a negated atom: nothing, or arguments.
    AfterNegated,
    /// Nothing, where the builder does this.
    Does(Pass),
}

/// What the builder does at a token that tells nothing more.
#[derive(Clone, Copy, Debug)]
pub enum Act {
    /// Nothing.
    Nothing,
    /// Begins a text of the first version.
    BeginFirst,
    /// Begins a text of the second version.
    BeginSecond,
    /// Takes the names.
    TakeNames,
    /// Begins names.
    BeginNames,
    /// Keeps the names as an instance.
    KeepArgs,
    /// Begins values of variables.
    BeginBinds,
    /// Keeps the values as an instance.
    KeepBinds,
    /// Keeps the names as those of new elements.
    KeepFresh,
    /// Ends a step whose line is shown.
    EndStep,
    /// Ends a step whose line is left out.
    EndBareStep,
    /// Cites `$refl`.
    CiteRefl,
    /// Cites `$sym`.
    CiteSym,
    /// Cites `$trans`.
    CiteTrans,
    /// Cites `$no` of the symbol.
    CiteNo,
    /// Cites `$or` of the symbol.
    CiteOr,
    /// The symbol's complement is taken.
    SetNegative,
    /// The symbol is equality.
    SetEquality,
    /// Shows falsehood.
    ShowFalsum,
    /// Begins facts.
    BeginAtoms,
    /// Begins the parts of a line with its first one.
    BeginParts,
    /// Adds a part of a line.
    AddPart,
    /// Adds an atom with the names as its arguments.
    AddAtom,
    /// Adds a negated atom with the names as its arguments.
    AddNegated,
    /// Ends by a disjunct of the goal.
    EndAs,
    /// Ends by falsehood.
    EndEfq,
    /// Ends by a gap.
    EndGap,
    /// Begins a split.
    BeginSplit,
    /// Ends a split.
    EndSplit,
    /// Begins a case.
    BeginCase,
    /// Keeps the facts of a case.
    ShowCase,
    /// Leaves the facts of a case out.
    BareCase,
}

/// What the builder does where a rule stands for nothing.
#[derive(Clone, Copy, Debug)]
pub enum Pass {
    /// Nothing.
    Nothing,
    /// Begins facts.
    BeginAtoms,
    /// Cites a formula by its name and rank.
    CiteName,
    /// The symbol is taken as it is.
    SetPositive,
    /// Shows the facts.
    ShowFacts,
    /// Adds a case.
    AddCase,
    /// The rank is 1.
    SetRank,
    /// Shows the cases.
    ShowCases,
    /// Keeps the facts so far.
    KeepAtoms,
    /// Adds an atom without arguments.
    AddPlain,
    /// Adds a negated atom without arguments.
    AddPlainNegated,
    /// Keeps the values of variables so far.
    KeepBound,
    /// Keeps the cases so far.
    KeepCases,
}

impl Naming {
    // Whether the token names what is named here.
    fn names(self, mark: Mark) -> bool
        ensures { result ≡ grammar.names self mark }
    {
        match self {
            Naming::Cited => mark.is_name(),
            Naming::Label => matches!(mark, Mark::Upper),
            _ => mark.is_word(),
        }
    }
}

impl Counting {
    // Whether the token tells what is counted here.
    fn counts(self, mark: Mark) -> bool
        ensures { result ≡ grammar.counts self mark }
    {
        match self {
            Counting::Within => mark.is_few(),
            _ => mark.is_number(),
        }
    }
}

impl Taker {
    // Whether the token is what this takes.
    fn takes(self, mark: Mark) -> bool
        ensures { result ≡ grammar.mark_taken self mark }
    {
        match self {
            Taker::Fixed(fixed, _) => mark.is_fixed(fixed),
            Taker::Name(naming) => naming.names(mark),
            Taker::Number(counting) => counting.counts(mark),
            Taker::One(_) => matches!(mark, Mark::Integer(Integer::One)),
            Taker::Two(_) => matches!(mark, Mark::Integer(Integer::Two)),
            Taker::WrongVersion => mark.is_wrong_version(),
        }
    }
}

impl Rule {
    // Pushes the row that the token asks for, or refuses.
    fn step(self, token: Token, stack: &mut Vec<TextPart>) -> Result<Step, Memory>
        ensures { DoesStep self token stack.old.items stack.new.items result }
    {
        match self {
            Rule::Text => bodies::text(token, stack),
            Rule::Version => bodies::version(token, stack),
            Rule::Never => Ok(Step::Refuse),
            Rule::Head => bodies::head(token, stack),
            Rule::Names => bodies::names(token, stack),
            Rule::ListedNames => bodies::listed_names(token, stack),
            Rule::MoreNames => bodies::more_names(token, stack),
            Rule::Body(edition) => bodies::body(edition, token, stack),
            Rule::Step(edition) => bodies::step(edition, token, stack),
            Rule::Given(edition) => bodies::given(edition, token, stack),
            Rule::Finish(edition) => bodies::finish(edition, token, stack),
            Rule::SplitEnd => bodies::split_end(token, stack),
            Rule::Case(edition) => bodies::case(edition, token, stack),
            Rule::MoreCases(edition) => bodies::more_cases(edition, token, stack),
            Rule::CaseHead(edition) => bodies::case_head(edition, token, stack),
            Rule::Cite => cites::cite(token, stack),
            Rule::Rank => cites::rank(token, stack),
            Rule::SignedSymbol => cites::signed_symbol(token, stack),
            Rule::Symbol => cites::symbol(token, stack),
            Rule::Binds => cites::binds(token, stack),
            Rule::ListedBinds => cites::listed_binds(token, stack),
            Rule::MoreBinds => cites::more_binds(token, stack),
            Rule::Bind => cites::bind(token, stack),
            Rule::Line => lines::line(token, stack),
            Rule::AfterTrue => lines::after_true(token, stack),
            Rule::AfterAtom => lines::after_atom(token, stack),
            Rule::AfterGroup => lines::after_group(token, stack),
            Rule::Bars => lines::bars(token, stack),
            Rule::LinePart => lines::line_part(token, stack),
            Rule::Group => lines::group(token, stack),
            Rule::MoreAtoms => lines::more_atoms(token, stack),
            Rule::Facts => lines::facts(token, stack),
            Rule::Atom => lines::atom(token, stack),
            Rule::AfterWord => lines::after_word(token, stack),
            Rule::AfterNegated => lines::after_negated(token, stack),
            Rule::Does(_) => expand(stack, &[]),
        }
    }
}

impl Part for TextPart {
    type Token = Token;

    type Watch = Tally;

    type Fault = Limit;

    ghost use Rattle.token_grammar.proofs.Laws.{computed_decided};
    ghost use Rattle.proof_text.specs.declared.watch.Tally.{Tally};
    ghost use Rattle.proof_text.specs.Grammar.{proof_texts, proof_text_plan};
    ghost use Rattle.proof_text.specs.GrammarLaw.{proof_text_law};
    ghost use Rattle.proof_text.specs.Watching.{proof_text_watcher, look};

    ghost grammar = { proof_texts };

    ghost plan = { proof_text_plan };

    ghost Seen = { Tally };

    ghost seen = { λ tally. tally };

    ghost watcher = { proof_text_watcher };

    fn may_be_empty(self) -> bool {
        matches!(
            self,
            TextPart::Row(
                Rule::ListedNames
                    | Rule::MoreNames
                    | Rule::MoreCases(_)
                    | Rule::Rank
                    | Rule::ListedBinds
                    | Rule::MoreBinds
                    | Rule::AfterTrue
                    | Rule::AfterAtom
                    | Rule::Bars
                    | Rule::MoreAtoms
                    | Rule::AfterWord
                    | Rule::AfterNegated
                    | Rule::Does(_)
            )
        )
    }

    fn step(self, token: Token, stack: &mut Vec<TextPart>) -> Result<Step, Memory> {
        match self {
            TextPart::Taken(taker) => Ok(if taker.takes(token.mark) {
                Step::Take
            } else {
                Step::Refuse
            }),
            TextPart::Row(rule) => rule.step(token, stack),
        }
    }

    fn note(self, _token: Token, watch: &mut Tally) -> Result<Result<(), Limit>, Memory> {
        Ok(match self {
            TextPart::Taken(Taker::Fixed(Fixed::Mp | Fixed::As | Fixed::Efq | Fixed::Gap, _)) =>
                watch.count(),
            TextPart::Taken(Taker::Fixed(Fixed::Cs, _)) => watch.open_split(),
            TextPart::Taken(Taker::Fixed(Fixed::End, _)) => {
                watch.close();
                Ok(())
            }
            TextPart::Taken(Taker::WrongVersion) => Err(Limit::Version),
            _ => Ok(()),
        })
    }

    ghost predictive = { proof_text_law };

    ghost decided = { computed_decided look };
}
