use logic_core::World;

/// The finite structures: a list of whole numbers spells the size and, behind it, the places and the
/// facts of one.
#[derive(Clone, Copy, Debug)]
pub struct FiniteWorld;

impl World for FiniteWorld {
    ghost use Rattle.finite_model.specs.Coded.{IsCodedElement, coded_holds, coded_place};
    ghost use Rattle.finite_model.specs.CodedLaw.{coded_placed, coded_inhabited};

    ghost element = { IsCodedElement };

    ghost holds = { coded_holds };

    ghost place = { coded_place };

    ghost some = { λ _. 0 };

    ghost placed = { coded_placed };

    ghost inhabited = { coded_inhabited };
}
