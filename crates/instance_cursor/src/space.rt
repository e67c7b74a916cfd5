ghost use Rattle.std.specs.Prelude.{◌≡◌, length, slice_get};
ghost use Rattle.instance_cursor.specs.Fitting as fitting;

use crate::fact::{number_at, signed_number};
use crate::origin::Origin;
use fact_store::Store;
use logic_core::{Atom, Slot};
use std::marker::Model;

/// What a cursor goes through: a depth for each premise, at which a fact is picked, and behind them
/// one for each variable in no premise, at which an element is picked.
#[derive(Drop)]
pub(crate) struct Space<'a> {
    pub premises: &'a [Atom],
    pub origins: &'a [Origin],
    pub store: &'a Store,
    pub elements: u32,
}

impl<'a> Model for Space<'a> {
    ghost use Rattle.std.specs.Prelude.{◌<◌, ◌^◌};
    ghost use Rattle.std.specs.List.{AllByRecursion};
    ghost use Rattle.logic_core.specs.declared.form.Atom.{Atom};
    ghost use Rattle.instance_cursor.specs.Fitting.{Searched};

    ghost Value = { Searched };

    ghost view = { λ s. record {
      premises = s.premises.now;
      origins = s.origins.now;
      facts = s.store.now.facts;
      elements = s.elements;
    } };

    ghost invariant = { λ s.
        AllByRecursion (λ (atom : Atom). atom.symbol < 2 ^ 31) s.premises.now };
}

impl Space<'_> {
    /// The greatest candidate of a depth.
    pub(crate) fn newest(&self, depth: usize) -> Option<u32>
        ensures { fitting.IsNext self.now depth (fitting.bound self.now depth) result }
    {
        match self.premises.get(depth) {
            Some(atom) => self.store.newest(signed_number(atom)),
            None => self.elements.checked_sub(1),
        }
    }

    /// The greatest candidate of a depth below this one.
    pub(crate) fn older(&self, depth: usize, pick: u32) -> Option<u32>
        requires { fitting.IsCandidate self.now depth pick }
        ensures { fitting.IsNext self.now depth pick result }
    {
        if depth < self.premises.len() {
            self.store.older(pick)
        } else {
            pick.checked_sub(1)
        }
    }

    /// Whether the last of some picks, a candidate, fits at its depth.
    pub(crate) fn fits(&self, depth: usize, picks: &[u32], last: u32) -> bool
        requires { fitting.IsCandidate self.now depth last }
        ensures { result
            ≡ fitting.fits_at self.now (slice_get self.now.premises depth) picks.now last }
    {
        match self.premises.get(depth) {
            Some(atom) => self.are_at(picks, atom.args.as_slice(), self.args_at(last)),
            None => true,
        }
    }

    /// Whether slots have these elements at picks.
    fn are_at(&self, picks: &[u32], slots: &[Slot], elements: &[u32]) -> bool
        ensures { result ≡ fitting.are_at self.now picks.now slots.now elements.now }
    {
        match slots {
            [] => elements.is_empty(),
            [slot, slots @ ..] => match elements {
                [] => false,
                [element, elements @ ..] => {
                    self.is_at(picks, *slot, *element) && self.are_at(picks, slots, elements)
                }
            },
        }
    }

    /// Whether a slot has this element at picks; a variable has none but those of the cursor.
    fn is_at(&self, picks: &[u32], slot: Slot, element: u32) -> bool
        ensures { result ≡ fitting.is_at self.now picks.now slot element }
    {
        match slot {
            Slot::Variable(variable) => match self.origins.get(variable as usize) {
                Some(origin) => element < self.elements && self.read(picks, *origin) == element,
                None => false,
            },
            Slot::Constant(constant) => element == constant,
        }
    }

    /// The element at an origin.
    pub(crate) fn read(&self, picks: &[u32], origin: Origin) -> u32
        ensures { result ≡ fitting.read self.now picks.now origin }
    {
        let pick = number_at(picks, origin.depth);
        if origin.depth < self.premises.len() {
            number_at(self.args_at(pick), origin.position)
        } else {
            pick
        }
    }

    /// The elements of the fact with this number; none where there is no such fact.
    fn args_at(&self, fact: u32) -> &[u32]
        ensures { result.now ≡ fitting.args_at self.now.facts fact }
    {
        if fact < self.store.len() {
            self.store.args_of(fact)
        } else {
            &[]
        }
    }

    /// Writes the instance at picks.
    pub(crate) fn write_instance(&self, picks: &[u32], args: &mut [u32])
        requires { length args.old ≡ length self.now.origins }
        ensures { args.new ≡ fitting.instance_at self.now picks.now }
    {
        for (variable, origin) in self.origins.iter().enumerate() {
            args[variable] = self.read(picks, *origin);
        }
    }
}
