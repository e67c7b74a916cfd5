ghost use Rattle.std.specs.Prelude.{◌≡◌};
ghost use Rattle.finite_model.specs.Connectives as spec;

use logic_core::Op;

/// What a connective makes of the truth of its sides.
pub(crate) fn connected(op: Op, left: bool, right: bool) -> bool
    ensures { result ≡ spec.connected op left right }
{
    match op {
        Op::Implies => !left || right,
        Op::Implied => left || !right,
        Op::Iff => left == right,
        Op::Xor => left != right,
        Op::Nor => !(left || right),
        Op::Nand => !(left && right),
    }
}

/// What a connective makes of the truth of its left side alone, where that decides.
pub(crate) fn decided(op: Op, left: bool) -> Option<bool>
    ensures { result ≡ spec.decided op left }
{
    match (op, left) {
        (Op::Implies | Op::Nand, false) | (Op::Implied, true) => Some(true),
        (Op::Nor, true) => Some(false),
        _ => None,
    }
}
