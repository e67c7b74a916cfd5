ghost use Rattle.std.specs.Prelude.{◌≡◌, ◌+◌, ◌≤◌, length, vec_capacity};
ghost use Rattle.std.specs.List.{position};
ghost use Rattle.instance_cursor.specs.Origins as origins;

use crate::room::push_within;
use logic_core::{Atom, Slot};

/// Where the element of a variable is read: at a position of the fact that is picked at a depth, or
/// it is the pick itself at a depth behind the premises.
#[derive(Clone, Copy, Debug)]
pub struct Origin {
    pub depth: usize,
    pub position: usize,
}

/// Writes the origins of the variables below a number, in place of those that were there. How many
/// depths there are.
pub(crate) fn write_origins(premises: &[Atom], variables: u32, into: &mut Vec<Origin>) -> usize
    requires few { length premises.now ≤ 1024 }
    requires room { variables ≤ vec_capacity into.old }
    ensures origins { into.new.items ≡ origins.origins_of premises.now variables }
    ensures depths { result
        ≡ length premises.now + length (origins.free_variables premises.now variables) }
    ensures capacity { vec_capacity into.old ≤ vec_capacity into.new }
{
    into.clear();
    let mut depths = premises.len();
    for variable in 0..variables {
        let origin = origin_of(variable, premises, depths);
        push_within(into, origin);
        if origin.depth == depths {
            depths += 1;
        }
    }
    depths
}

/// The origin of a variable, where so many depths are taken by premises and by variables below it.
fn origin_of(variable: u32, premises: &[Atom], depths: usize) -> Origin
    requires { depths
        ≡ length premises.now + length (origins.free_variables premises.now variable) }
    ensures { result ≡ origins.origin_of premises.now variable }
{
    match first_occurrence(variable, premises) {
        Some(origin) => origin,
        None => Origin {
            depth: depths,
            position: 0,
        },
    }
}

/// The first place of a variable in premises; `None` where it is in none.
fn first_occurrence(variable: u32, premises: &[Atom]) -> Option<Origin>
    ensures { result ≡ origins.first_occurrence variable 0 premises.now }
{
    for (depth, atom) in premises.iter().enumerate() {
        if let Some(position) = first_position(variable, atom.args.as_slice()) {
            return Some(Origin { depth, position });
        }
    }
    None
}

/// The first position of a variable among slots; `None` where it is not among them.
fn first_position(variable: u32, slots: &[Slot]) -> Option<usize>
    ensures { result ≡ position (origins.is_variable variable) slots.now }
{
    slots.iter().position(|slot| is_variable(variable, *slot))
}

/// Whether a slot is this variable.
fn is_variable(variable: u32, slot: Slot) -> bool
    ensures { result ≡ origins.is_variable variable slot }
{
    match slot {
        Slot::Variable(number) => number == variable,
        Slot::Constant(_) => false,
    }
}
