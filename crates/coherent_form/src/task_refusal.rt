ghost use Rattle.std.specs.Prelude.{◌≡◌};
ghost use Rattle.coherent_form.specs.Gathered.{refusal_at, why_of};
ghost use Rattle.coherent_form.specs.declared.task_refusal.TaskWhy.{TaskWhy};

use crate::refusal::FormRefusal;
use text_core::Memory;
use thiserror::Error;

/// Why a formula of a problem is refused.
#[derive(Debug, Drop, Error)]
pub enum TaskWhy {
    /// The shape of a node does not fit one of its roles, and no node before it is such. Nodes are
    /// numbered in preorder from 0; a number above 4,294,967,295 is told as 4,294,967,295.
    #[error("NotCoherent")]
    NotCoherent { node: u32 },
    /// The formula's forms are not within the limits of a formula, or the symbols of the formulas
    /// up to this one have more than `MOST_PLACES` argument places.
    #[error("TooWide")]
    TooWide,
    /// A conjecture stands before it, and it is one.
    #[error("TooManyConjectures")]
    TooManyConjectures,
    /// With it the premises have more than `MOST_FORMS` forms, or these more than `MOST_ATOMS`
    /// atoms.
    #[error("TooManyForms")]
    TooManyForms,
    /// It is the conjecture, and gives two or more forms.
    #[error("ManyGoals")]
    ManyGoals,
    /// Want of memory, or of numbers of 32 bits.
    #[error("Memory")]
    Memory,
}

/// Which formula of a problem is refused, counted from 1, and why. It is 0 for want of memory.
#[derive(Debug, Drop)]
pub struct TaskRefusal {
    pub formula: u32,
    pub why: TaskWhy,
}

impl TaskRefusal {
    /// The refusal of a formula; want of memory has the number 0.
    pub(crate) fn at(formula: u32, why: TaskWhy) -> TaskRefusal
        ensures { result ≡ refusal_at formula why }
    {
        match why {
            TaskWhy::Memory => TaskRefusal { formula: 0, why },
            why => TaskRefusal { formula, why },
        }
    }
}

impl From<Memory> for TaskWhy {
    ghost from_gives = { λ _ e. e ≡ TaskWhy.Memory };

    fn from(_e: Memory) -> TaskWhy {
        TaskWhy::Memory
    }
}

impl From<FormRefusal> for TaskWhy {
    ghost from_gives = { λ f e. e ≡ why_of f };

    fn from(refusal: FormRefusal) -> TaskWhy {
        match refusal {
            FormRefusal::NotCoherent { node } => TaskWhy::NotCoherent { node },
            FormRefusal::TooWide => TaskWhy::TooWide,
            FormRefusal::Memory => TaskWhy::Memory,
        }
    }
}

impl From<Memory> for TaskRefusal {
    ghost from_gives = { λ _ e. e ≡ record { formula = 0; why = TaskWhy.Memory } };

    fn from(_e: Memory) -> TaskRefusal {
        TaskRefusal {
            formula: 0,
            why: TaskWhy::Memory,
        }
    }
}
