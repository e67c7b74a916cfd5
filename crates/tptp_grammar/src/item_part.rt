ghost use Rattle.std.specs.Prelude.{◌≡◌};
ghost use Rattle.tptp_grammar.specs.Parts.{takes};

use crate::limit::Limit;
use crate::mark::Mark;
use crate::scopes::Scopes;
use crate::{annotation_steps as annotations, formula_steps as formulas, item_steps as items};
use logic_core::Memory;
use token_grammar::{Part, Step};
use tptp_lexer::Kind;

/// A part of the grammar of items, factored so that the next token chooses the row that it stands
/// for. The number is the level: how many brackets, negations and quantifiers are open around the
/// part. Source: the TPTP syntax, FOF.
#[derive(Clone, Copy, Debug)]
pub enum ItemPart {
    /// A token of this kind.
    Token(Kind),
    /// The word `fof`.
    FofWord,
    /// The word `include`.
    IncludeWord,
    /// The name of a formula.
    Name,
    /// The role of a formula: any lower word.
    RoleWord,
    /// A word that names a predicate, a constant, or data of an annotation.
    Word,
    /// `$true` or `$false`.
    TruthWord,
    /// A binary connective other than `&` and `|`.
    Connective,
    /// A variable in a term.
    Variable(u32),
    /// A variable in a quantifier's list.
    Binds(u32),
    /// A token of this kind, which opens this level.
    Opens(u32, Kind),
    /// The `)` behind the arguments of an atom.
    ClosesArguments,
    /// An upper word, an integer or a distinct object in an annotation.
    Plain,
    /// All items of a text.
    Items,
    /// One item.
    Item,
    /// A formula's item behind `fof`.
    FofHead,
    /// A formula's item behind its formula: its end, or an annotation.
    FofTail,
    /// A formula's item behind the first part of its annotation: its end, or the second part.
    FofEnd,
    /// An inclusion behind `include`.
    IncludeHead,
    /// An inclusion behind the file's name: its end, or a selection.
    IncludeTail,
    /// Further names of a selection.
    NamesRest,
    /// A formula.
    Formula(u32),
    /// What follows a formula's first unit: nothing, a chain, or a connective with its right side.
    FormulaRest(u32),
    /// Further members of a conjunction.
    AndRest(u32),
    /// Further members of a disjunction.
    OrRest(u32),
    /// A unit formula.
    Unitary(u32),
    /// A quantifier's list and its body.
    Quantified(u32),
    /// Further variables of a quantifier's list.
    BindsRest(u32),
    /// What follows a unit's first word: nothing, arguments, or the rest of an equation.
    AfterWord(u32),
    /// What follows a unit's first variable: the rest of an equation.
    Equation(u32),
    /// A term.
    Term(u32),
    /// Further arguments of an atom.
    TermsRest(u32),
    /// A general term of an annotation.
    General(u32),
    /// What follows a general term's data: nothing, or `:` and a general term.
    GeneralRest(u32),
    /// Further general terms of a list.
    GeneralsRest(u32),
    /// Data of an annotation.
    Data(u32),
    /// What follows a word of an annotation: nothing, or arguments.
    DataArguments(u32),
    /// A list of general terms.
    List(u32),
    /// A list behind its opening bracket.
    ListBody(u32),
}

impl ItemPart {
    // Whether a part takes the token.
    fn takes(self, token: Mark) -> bool
        ensures { result ≡ takes self token }
    {
        match self {
            ItemPart::Token(kind) | ItemPart::Opens(_, kind) => token.is_kind(kind),
            ItemPart::FofWord => matches!(token, Mark::Fof),
            ItemPart::IncludeWord => matches!(token, Mark::Include),
            ItemPart::Name => token.is_name(),
            ItemPart::RoleWord => token.is_lower(),
            ItemPart::Word => token.is_word(),
            ItemPart::TruthWord => matches!(token, Mark::Truth(_)),
            ItemPart::Connective => matches!(token, Mark::Connective(_)),
            ItemPart::Variable(_) | ItemPart::Binds(_) => token.is_upper(),
            ItemPart::ClosesArguments => token.is_kind(Kind::CloseParenthesis),
            ItemPart::Plain => token.is_plain(),
            _ => false,
        }
    }
}

impl Part for ItemPart {
    type Token = Mark;

    type Watch = Scopes;

    type Fault = Limit;

    ghost use Rattle.token_grammar.proofs.Laws.{computed_decided};
    ghost use Rattle.tptp_grammar.specs.Parts.{fof_items};
    ghost use Rattle.tptp_grammar.specs.Plan.{items_plan};
    ghost use Rattle.tptp_grammar.specs.PartsLaw.{items_law};
    ghost use Rattle.tptp_grammar.specs.Limits.{Bindings, items_watcher, look};

    ghost grammar = { fof_items };

    ghost plan = { items_plan };

    ghost Seen = { Bindings };

    ghost seen = { λ scopes. scopes };

    ghost watcher = { items_watcher };

    fn may_be_empty(self) -> bool {
        matches!(
            self,
            ItemPart::Items
                | ItemPart::NamesRest
                | ItemPart::FormulaRest(_)
                | ItemPart::AndRest(_)
                | ItemPart::OrRest(_)
                | ItemPart::BindsRest(_)
                | ItemPart::AfterWord(_)
                | ItemPart::TermsRest(_)
                | ItemPart::GeneralRest(_)
                | ItemPart::GeneralsRest(_)
                | ItemPart::DataArguments(_)
        )
    }

    fn step(self, token: Mark, stack: &mut Vec<ItemPart>) -> Result<Step, Memory> {
        match self {
            ItemPart::Items => items::items(token, stack),
            ItemPart::Item => items::item(token, stack),
            ItemPart::FofHead => items::fof_head(token, stack),
            ItemPart::FofTail => items::fof_tail(token, stack),
            ItemPart::FofEnd => items::fof_end(token, stack),
            ItemPart::IncludeHead => items::include_head(token, stack),
            ItemPart::IncludeTail => items::include_tail(token, stack),
            ItemPart::NamesRest => items::names_rest(token, stack),
            ItemPart::Formula(level) => formulas::formula(level, token, stack),
            ItemPart::FormulaRest(level) => formulas::formula_rest(level, token, stack),
            ItemPart::AndRest(level) => formulas::and_rest(level, token, stack),
            ItemPart::OrRest(level) => formulas::or_rest(level, token, stack),
            ItemPart::Unitary(level) => formulas::unitary(level, token, stack),
            ItemPart::Quantified(level) => formulas::quantified(level, token, stack),
            ItemPart::BindsRest(level) => formulas::binds_rest(level, token, stack),
            ItemPart::AfterWord(level) => formulas::after_word(level, token, stack),
            ItemPart::Equation(level) => formulas::equation(level, token, stack),
            ItemPart::Term(level) => formulas::term(level, token, stack),
            ItemPart::TermsRest(level) => formulas::terms_rest(level, token, stack),
            ItemPart::General(level) => annotations::general(level, token, stack),
            ItemPart::GeneralRest(level) => annotations::general_rest(level, token, stack),
            ItemPart::GeneralsRest(level) => annotations::generals_rest(level, token, stack),
            ItemPart::Data(level) => annotations::data(level, token, stack),
            ItemPart::DataArguments(level) => annotations::data_arguments(level, token, stack),
            ItemPart::List(level) => annotations::list(level, token, stack),
            ItemPart::ListBody(level) => annotations::list_body(level, token, stack),
            ItemPart::Token(_)
            | ItemPart::FofWord
            | ItemPart::IncludeWord
            | ItemPart::Name
            | ItemPart::RoleWord
            | ItemPart::Word
            | ItemPart::TruthWord
            | ItemPart::Connective
            | ItemPart::Variable(_)
            | ItemPart::Binds(_)
            | ItemPart::Opens(_, _)
            | ItemPart::ClosesArguments
            | ItemPart::Plain => Ok(if self.takes(token) {
                Step::Take
            } else {
                Step::Refuse
            }),
        }
    }

    fn note(self, token: Mark, watch: &mut Scopes) -> Result<Result<(), Limit>, Memory> {
        match (self, token) {
            (ItemPart::Opens(level, _), _) => Ok(watch.open(level)),
            (ItemPart::RoleWord, Mark::Role(_)) => Ok(Ok(())),
            (ItemPart::RoleWord, _) => Ok(Err(Limit::UnknownRole)),
            (ItemPart::Binds(level), Mark::Upper(variable)) => {
                watch.bind(level, variable)?;
                Ok(Ok(()))
            }
            (ItemPart::Variable(level), Mark::Upper(variable)) => Ok(watch.find(level, variable)),
            _ => Ok(Ok(())),
        }
    }

    ghost predictive = { items_law };

    ghost decided = { computed_decided look };
}
