ghost use Rattle.std.specs.Prelude.{◌≡◌};
ghost use Rattle.proof_checker.specs.declared.halt.Halt.{Halt};

use crate::refusal::Why;
use text_core::Memory;

/// Why a step was not taken: a check failed, or memory is wanted.
#[derive(Debug, Drop)]
pub enum Halt {
    Fault(Why),
    Memory,
}

impl From<Memory> for Halt {
    ghost from_gives = { λ _ e. e ≡ Halt.Memory };

    fn from(_e: Memory) -> Halt {
        Halt::Memory
    }
}
