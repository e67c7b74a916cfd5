ghost use Rattle.std.specs.Prelude.{◌≡◌, ◌<◌, ◌^◌, slice_index};
ghost use Rattle.instance_cursor.specs.Facts as facts;

use logic_core::{Atom, Slot};

/// The number of an atom's symbol, or of its complement, in a store.
pub fn signed_number(atom: &Atom) -> u32
    requires { facts.signed_number atom.now < 2 ^ 32 }
    ensures { result ≡ facts.signed_number atom.now }
{
    let twice = 2 * atom.symbol;
    if atom.positive { twice } else { twice + 1 }
}

/// The element of a slot, given the elements of the variables; constant number `c` is element `c`.
pub fn element_at(elements: &[u32], slot: Slot) -> u32
    ensures { result ≡ facts.element_at elements.now slot }
{
    match slot {
        Slot::Variable(variable) => number_at(elements, variable as usize),
        Slot::Constant(element) => element,
    }
}

/// The number at a place, and 0 past the end.
pub(crate) fn number_at(numbers: &[u32], at: usize) -> u32
    ensures { result ≡ slice_index numbers.now at }
{
    match numbers.get(at) {
        Some(number) => *number,
        None => 0,
    }
}
