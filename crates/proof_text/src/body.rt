//! The parts of a script, as a proof text writes them: all that stands for an element is a name.

use coherent_form::{Citation, Label};
use text_core::{List, Name};

/// An atom with the names of its elements. A `predicate` of `None` is equality, which has two
/// arguments; `positive` is false for the complement.
#[derive(Debug, Drop)]
pub struct NamedAtom {
    pub positive: bool,
    pub predicate: Option<Name>,
    pub args: List<Name>,
}

/// A line that a step gives: falsehood, facts, or two or more cases.
#[derive(Debug, Drop)]
pub enum Shown {
    Falsum,
    Facts(List<NamedAtom>),
    Cases(List<List<NamedAtom>>),
}

/// A value for the universal variable with this label.
#[derive(Debug, Drop)]
pub struct Binding {
    pub label: Label,
    pub value: Name,
}

/// Which elements the universal variables of a form stand for: a name for each in order, or values
/// by their labels.
#[derive(Debug, Drop)]
pub enum ArgsText {
    Listed(List<Name>),
    Named(List<Binding>),
}

/// A step by extended modus ponens: the form that is cited, its instance, the names of the new
/// elements, and the line that the step gives, where it is shown.
#[derive(Debug, Drop)]
pub struct MpText {
    pub cite: Citation,
    pub args: ArgsText,
    pub fresh: List<Name>,
    pub shown: Option<Shown>,
}

/// A case of a split: its facts, where they are shown, and its proof.
#[derive(Debug, Drop)]
#[cycle(body)]
pub struct CaseText {
    pub shown: Option<List<NamedAtom>>,
    pub body: BodyText,
}

/// How a body ends: by a disjunct of the goal, counted from 1, with the names of its elements; by a
/// line of falsehood; by a split of the line with this number, with one case or more; or by a gap,
/// which at most `within` rule applications are to close.
#[derive(Debug, Drop)]
#[cycle(body)]
pub enum EndText {
    As { disjunct: u32, args: List<Name> },
    Efq,
    Cs { line: u32, cases: List<CaseText> },
    Gap { within: u32 },
}

/// Steps in order, and an end.
#[derive(Debug, Drop)]
#[cycle(body)]
pub struct BodyText {
    pub steps: List<MpText>,
    pub end: EndText,
}
