ghost use Rattle.std.specs.Prelude.{◌≡◌};
ghost use Rattle.proof_checker.specs.declared.refusal.CheckRefusal.{CheckRefusal};
ghost use Rattle.proof_checker.specs.Running as running;

use crate::halt::Halt;
use text_core::Memory;

/// A rule of a script: its header, which takes names; a step by extended modus ponens; an end by a
/// case split, by an assumption or by falsehood; or a gap.
#[derive(Clone, Copy, PartialEq, Eq, Debug)]
pub enum Rule {
    Take,
    Mp,
    Cs,
    As,
    Efq,
    Gap,
}

/// The first check of a step that fails. A number tells which premise, case, atom or binding it is,
/// from 1.
#[derive(Clone, Copy, PartialEq, Eq, Debug)]
pub enum Why {
    /// The taken names are not as many as the parameters.
    ParameterCount,
    /// A taken name is a constant or stands earlier in the list.
    NameTaken,
    /// No form is cited so.
    UnknownAxiom,
    /// The arguments are not as many as the form's universal variables.
    InstanceCount,
    /// A binding's label is not that of a universal variable of the form.
    VariableUnknown(u32),
    /// A binding's label is that of an earlier one.
    VariableTwice(u32),
    /// An argument names no element.
    InstanceUnknown,
    /// A premise does not stand.
    PremiseMissing(u32),
    /// The new names are not as many as the form's existential variables.
    WitnessCount,
    /// A new name is that of an element or stands earlier in the list.
    WitnessTaken,
    /// The shown line is not the one that the step gives.
    ShownDiffers,
    /// No line has this number.
    NoSuchLine,
    /// The line is no line of cases.
    NotCases,
    /// The cases are not as many as the line's.
    BranchCount,
    /// A case shows other facts than the line's.
    CaseDiffers(u32),
    /// No disjunct of the goal has this number.
    NoSuchDisjunct,
    /// The arguments are not as many as the goal's existential variables.
    AnswerCount,
    /// An argument names no element.
    AnswerUnknown,
    /// An atom of the disjunct does not stand.
    AtomMissing(u32),
    /// No line is falsehood.
    NoFalsum,
    /// A gap stands for no proof.
    GapOpen,
}

/// Where a script is refused: the number of the step, where the header is 0 and the others are
/// numbered from 1, each before those that it leads to; its rule; and its first check that fails.
#[derive(Clone, Copy, PartialEq, Eq, Debug)]
pub struct StepRefusal {
    pub step: u32,
    pub rule: Rule,
    pub why: Why,
}

/// Why a script is not accepted.
#[derive(Debug, Drop)]
pub enum CheckRefusal {
    /// The first fault of the script.
    Step(StepRefusal),
    /// Want of memory, or of numbers of 32 bits.
    Memory,
}

impl From<Memory> for CheckRefusal {
    ghost from_gives = { λ _ e. e ≡ CheckRefusal.Memory };

    fn from(_e: Memory) -> CheckRefusal {
        CheckRefusal::Memory
    }
}

/// The refusal of a step.
pub(crate) fn refused(step: u32, rule: Rule, halt: Halt) -> CheckRefusal
    ensures { result ≡ running.refusal_of step rule halt }
{
    match halt {
        Halt::Fault(why) => CheckRefusal::Step(StepRefusal { step, rule, why }),
        Halt::Memory => CheckRefusal::Memory,
    }
}
