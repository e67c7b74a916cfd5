ghost use Rattle.std.specs.Prelude.{◌≡◌};
ghost use Rattle.coherent_form.specs.declared.refusal.FormRefusal.{FormRefusal};

use text_core::Memory;
use thiserror::Error;

/// Why a formula gives no coherent forms.
#[derive(Debug, Drop, Error)]
pub enum FormRefusal {
    /// The shape of a node does not fit one of its roles, and no node before it is such. Nodes are
    /// numbered in preorder from 0; a number above 4,294,967,295 is told as 4,294,967,295.
    #[error("NotCoherent")]
    NotCoherent { node: u32 },
    /// Every shape fits, and the formula gives more than `MOST_FORMULA_FORMS` forms, or a form with
    /// more than `MOST_FORM_VARIABLES` variables, an atom with more than `MOST_ARGUMENTS` arguments
    /// or more than `MOST_FORM_ATOMS` atoms.
    #[error("TooWide")]
    TooWide,
    /// Want of memory.
    #[error("Memory")]
    Memory,
}

impl From<Memory> for FormRefusal {
    ghost from_gives = { λ _ e. e ≡ FormRefusal.Memory };

    fn from(_e: Memory) -> FormRefusal {
        FormRefusal::Memory
    }
}
