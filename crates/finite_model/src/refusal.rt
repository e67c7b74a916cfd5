use text_core::Memory;
use thiserror::Error;

/// Why a structure is no countermodel of a problem.
#[derive(Debug, Drop, Error)]
pub enum ConfirmRefusal {
    /// The constant of the task with this number, from 1, is the first that has no place.
    #[error("ModelPlace")]
    ModelPlace(u32),
    /// Each constant has a place, and the formula of the problem with this number, from 1, is the
    /// first that fails: a premise that is not true, or a conjecture that is.
    #[error("ModelFails")]
    ModelFails(u32),
    /// Memory ran out.
    #[error("Memory")]
    Memory,
}

impl From<Memory> for ConfirmRefusal {
    ghost use Rattle.std.specs.Prelude.{◌≡◌};
    ghost use Rattle.finite_model.specs.declared.refusal.ConfirmRefusal.TheVariants as refusals;

    ghost from_gives = { λ _ e. e ≡ refusals.Memory };

    fn from(_memory: Memory) -> ConfirmRefusal {
        ConfirmRefusal::Memory
    }
}
