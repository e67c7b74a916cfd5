//! Premises without which a form makes nothing new unless their two arguments differ.

ghost use Rattle.std.specs.Prelude.{ℕ, List, ◌≡◌};
ghost use Rattle.std.specs.Bool.{OnTrue};
ghost use Rattle.std.specs.List.{AllByRecursion};
ghost use Rattle.vernacular_tree.specs.Contexts.{slot_at, atom_at};
ghost use Rattle.proof_plans.specs.Idle.{Repeats, IsIdle};

use crate::item::{item_at, place_at};
use logic_core::{Atom, Form, Slot};

/// Whether two slots stand for one element wherever a premise's two slots do.
fn are_one_where(left: Slot, right: Slot, one: Slot, other: Slot) -> bool
    ensures { OnTrue result ((values : List ℕ) → slot_at values left ≡ slot_at values right
        → slot_at values one ≡ slot_at values other) }
{
    if one == other {
        return true;
    }
    if one == left && other == right {
        return true;
    }
    one == right && other == left
}

/// Whether a fact is a premise wherever a premise's two slots stand for one element.
fn is_repeated(left: Slot, right: Slot, fact: &Atom, premise: &Atom) -> bool
    ensures { OnTrue result ((values : List ℕ) → slot_at values left ≡ slot_at values right
        → atom_at values premise.now ≡ atom_at values fact.now) }
{
    let slots = fact.args.as_slice();
    let others = premise.args.as_slice();
    if fact.symbol != premise.symbol
        || fact.positive != premise.positive
        || slots.len() != others.len()
    {
        return false;
    }
    for at in 0..slots.len() {
        let (Some(slot), Some(other)) = (item_at(slots, at), item_at(others, at)) else {
            return false;
        };
        if !are_one_where(left, right, other, slot) {
            return false;
        }
    }
    true
}

/// Whether a fact is one of these premises wherever a premise's two slots stand for one element.
fn repeats_some(left: Slot, right: Slot, fact: &Atom, premises: &[Atom]) -> bool
    ensures { OnTrue result (Repeats left right premises.now fact.now) }
{
    for number in 0..premises.len() {
        if let Some(premise) = place_at(premises, number)
            && is_repeated(left, right, fact, premise)
        {
            return true;
        }
    }
    false
}

/// Whether each of these facts is one of the premises wherever a premise's two slots stand for one
/// element.
fn all_repeat(left: Slot, right: Slot, facts: &[Atom], premises: &[Atom]) -> bool
    ensures { OnTrue result (AllByRecursion (Repeats left right premises.now) facts.now) }
{
    for number in 0..facts.len() {
        let Some(fact) = place_at(facts, number) else {
            return false;
        };
        if !repeats_some(left, right, fact, premises) {
            return false;
        }
    }
    true
}

/// Whether a form of one list makes nothing new where this premise's two arguments are one.
pub(crate) fn is_idle(form: &Form, facts: &[Atom], premise: &Atom) -> bool
    ensures { OnTrue result (IsIdle form.now facts.now premise.now) }
{
    if form.existentials != 0 {
        return false;
    }
    match premise.args.as_slice() {
        [left, right] => all_repeat(*left, *right, facts, form.premises.as_slice()),
        _ => false,
    }
}
