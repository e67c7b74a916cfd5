//! Facts over finitely many elements, and for each the forms without which it is not reached.
//! Whatever is written here, a search stays right: what it takes from here it tests.

use crate::draft::push_if_room;
use crate::fact_set::place_of;
use crate::item::{item_at, place_at};
use crate::scene::Scene;
use logic_core::{Atom, Form, List as Atoms};
use std::alloc::Global;
use text_core::{MOST_FORM_VARIABLES, Memory};
use vernacular_tree::Line;

/// The greatest number of forms.
pub(crate) const MOST_FORMS: u32 = 63;

/// The greatest number of symbols.
const MOST_SYMBOLS: usize = 1_024;

/// The greatest number of places of facts.
const MOST_PLACES: usize = 262_144;

/// The greatest number of tries in one look.
const MOST_TRIES: u64 = 200_000;

/// The greatest number of rounds in which facts are followed.
const MOST_ROUNDS: usize = 1_000;

/// The label of a fact that is not reached.
const UNREACHED: u64 = u64::MAX;

/// A label for each place of a fact: a bit for each form without which it is not reached.
#[derive(Drop)]
pub(crate) struct LabelTable {
    pub(crate) elements: u32,
    pub(crate) starts: Vec<usize>,
    pub(crate) fresh: Vec<u32>,
    pub(crate) told: Vec<bool>,
    pub(crate) values: Vec<u32>,
    pub(crate) fuel: u64,
    labels: Vec<u64>,
    goal: u64,
}

/// The label of a form alone.
fn bit_of(form: usize) -> u64 {
    if form < MOST_FORMS as usize {
        1 << form
    } else {
        0
    }
}

/// How many places the facts of a symbol with so many arguments have; `None` where there are too
/// many.
fn count_places(elements: u32, arguments: usize) -> Option<usize> {
    let mut count = 2usize;
    for _argument in 0..arguments {
        count = count.checked_mul(elements as usize)?;
        if count > MOST_PLACES {
            return None;
        }
    }
    Some(count)
}

/// Notes how many arguments the symbols of atoms have; `false` where there are too many symbols.
fn note_atoms(counts: &mut Vec<usize>, atoms: &[Atom]) -> bool {
    for atom in atoms {
        let symbol = atom.symbol as usize;
        for _further in counts.len()..symbol.saturating_add(1).min(MOST_SYMBOLS) {
            if !push_if_room(counts, 0) {
                return false;
            }
        }
        if symbol >= counts.len() {
            return false;
        }
        counts[symbol] = counts[symbol].max(atom.args.as_slice().len());
    }
    true
}

/// Notes those of all these lists.
fn note_lists(counts: &mut Vec<usize>, lists: &[Atoms<Atom>]) -> bool {
    for atoms in lists {
        if !note_atoms(counts, atoms.as_slice()) {
            return false;
        }
    }
    true
}

/// Notes those of forms.
fn note_forms(counts: &mut Vec<usize>, forms: &[Form]) -> bool {
    for form in forms {
        if !note_atoms(counts, form.premises.as_slice()) {
            return false;
        }
        if !note_lists(counts, form.disjuncts.as_slice()) {
            return false;
        }
    }
    true
}

/// Notes those of lines.
fn note_lines(counts: &mut Vec<usize>, lines: &[Line]) -> bool {
    for line in lines {
        let is_noted = match line {
            Line::Facts(facts) => note_atoms(counts, facts.as_slice()),
            Line::Cases(lists) => note_lists(counts, lists.as_slice()),
            Line::Falsum => false,
        };
        if !is_noted {
            return false;
        }
    }
    true
}

/// One of several lists: the one with this number, or the last.
fn chosen(lists: &[Atoms<Atom>], way: usize) -> Option<&Atoms<Atom>> {
    place_at(lists, way.min(lists.len().checked_sub(1)?))
}

impl LabelTable {
    /// A table without facts. `Memory` is want of memory.
    pub(crate) fn new(alloc: Global) -> Result<LabelTable, Memory> {
        Ok(LabelTable {
            elements: 0,
            starts: Vec::with_capacity(alloc, MOST_SYMBOLS)?,
            fresh: Vec::with_capacity(alloc, MOST_FORMS as usize)?,
            told: Vec::with_capacity(alloc, MOST_PLACES)?,
            values: Vec::with_capacity(alloc, 2 * MOST_FORM_VARIABLES as usize)?,
            fuel: 0,
            labels: Vec::with_capacity(alloc, MOST_PLACES)?,
            goal: UNREACHED,
        })
    }

    /// Gives each fact of a scene a place; `false` where there are too many.
    pub(crate) fn begin(&mut self, scene: &Scene<'_>, elements: u32) -> bool {
        self.starts.truncate(0);
        self.fresh.truncate(0);
        self.labels.truncate(0);
        self.fuel = MOST_TRIES;
        if scene.forms.len() > MOST_FORMS as usize {
            return false;
        }
        self.elements = elements;
        for form in scene.forms {
            let Some(next) = self.elements.checked_add(form.existentials) else {
                return false;
            };
            if !push_if_room(&mut self.fresh, self.elements) {
                return false;
            }
            self.elements = next;
        }
        note_forms(&mut self.starts, scene.forms)
            && note_forms(&mut self.starts, scene.answers)
            && note_lines(&mut self.starts, scene.lines)
            && self.lay_out()
    }

    /// Puts the places of each symbol behind those of the one before.
    fn lay_out(&mut self) -> bool {
        let mut next = 0usize;
        for symbol in 0..self.starts.len() {
            let Some(count) = count_places(self.elements, self.starts[symbol]) else {
                return false;
            };
            self.starts[symbol] = next;
            next = next.saturating_add(count);
        }
        if next > MOST_PLACES {
            return false;
        }
        for _place in 0..next {
            if !push_if_room(&mut self.labels, UNREACHED) {
                return false;
            }
        }
        true
    }

    /// Works out the labels of all facts, where of several cases the one with this number is gone
    /// into, or the last.
    pub(crate) fn spread(&mut self, scene: &Scene<'_>, way: usize) {
        for place in 0..self.labels.len() {
            self.labels[place] = UNREACHED;
        }
        self.goal = UNREACHED;
        self.values.truncate(0);
        for line in scene.lines {
            self.reach_line(line, way);
        }
        for _round in 0..MOST_ROUNDS {
            if !self.spread_once(scene.forms, way) {
                break;
            }
        }
        for form in scene.answers {
            self.values.truncate(0);
            self.try_form(form, 0, 0, form.universals, way);
        }
    }

    /// Marks the facts without which, of those that are reached, the form with this number is not
    /// needed; `false` where the goal is reached without it, or not at all.
    pub(crate) fn tell(&mut self, form: u32) -> bool {
        let bit = bit_of(form as usize);
        if self.goal == UNREACHED || self.goal & bit == 0 {
            return false;
        }
        self.told.truncate(0);
        for place in 0..self.labels.len() {
            let is_told = self.labels[place] & bit == 0;
            if !push_if_room(&mut self.told, is_told) {
                return false;
            }
        }
        true
    }

    /// Follows each form once; whether something is new.
    fn spread_once(&mut self, forms: &[Form], way: usize) -> bool {
        let mut is_new = false;
        for number in 0..forms.len() {
            let (Some(form), Some(fresh)) = (
                place_at(forms, number),
                item_at(self.fresh.as_slice(), number),
            ) else {
                return false;
            };
            self.values.truncate(0);
            if self.try_form(form, fresh, bit_of(number), form.universals, way) {
                is_new = true;
            }
        }
        is_new
    }

    /// Follows a form, where its first universal variables have elements; whether something is new.
    fn try_form(&mut self, form: &Form, fresh: u32, bit: u64, left: u32, way: usize) -> bool {
        if self.fuel == 0 {
            return false;
        }
        self.fuel -= 1;
        let Some(label) = self.label_of(form.premises.as_slice()) else {
            return false;
        };
        if left == 0 {
            return self.reach_lists(form, fresh, label | bit, way);
        }
        let count = self.values.len();
        let mut is_new = false;
        for element in 0..self.elements {
            if !push_if_room(&mut self.values, element) {
                return false;
            }
            if self.try_form(form, fresh, bit, left - 1, way) {
                is_new = true;
            }
            self.values.truncate(count);
        }
        is_new
    }

    /// The labels of facts together, as far as their variables have elements; `None` where one is
    /// not reached.
    fn label_of(&self, atoms: &[Atom]) -> Option<u64> {
        let mut all = 0u64;
        for atom in atoms {
            let Some(place) = self.place(atom) else {
                continue;
            };
            let label = item_at(self.labels.as_slice(), place)?;
            if label == UNREACHED {
                return None;
            }
            all |= label;
        }
        Some(all)
    }

    /// The place of a fact.
    fn place(&self, atom: &Atom) -> Option<usize> {
        place_of(
            self.elements,
            self.starts.as_slice(),
            self.values.as_slice(),
            atom,
        )
    }

    /// Facts are reached with no more forms than a label has; whether that is new.
    fn reach(&mut self, atoms: &[Atom], label: u64) -> bool {
        let mut is_new = false;
        for atom in atoms {
            if let Some(place) = self.place(atom)
                && place < self.labels.len()
                && self.labels[place] & label != self.labels[place]
            {
                self.labels[place] = self.labels[place] & label;
                is_new = true;
            }
        }
        is_new
    }

    /// The facts of a line are reached, or those of one of its cases.
    fn reach_line(&mut self, line: &Line, way: usize) {
        match line {
            Line::Facts(facts) => {
                self.reach(facts.as_slice(), 0);
            }
            Line::Cases(lists) => {
                if let Some(facts) = chosen(lists.as_slice(), way) {
                    self.reach(facts.as_slice(), 0);
                }
            }
            Line::Falsum => {}
        }
    }

    /// The facts of one of the lists of a form are reached, or the goal, where it has none; whether a
    /// fact is new.
    fn reach_lists(&mut self, form: &Form, fresh: u32, label: u64, way: usize) -> bool {
        let Some(facts) = chosen(form.disjuncts.as_slice(), way) else {
            self.goal &= label;
            return false;
        };
        let count = self.values.len();
        for number in 0..form.existentials {
            if !push_if_room(&mut self.values, fresh.saturating_add(number)) {
                return false;
            }
        }
        let is_new = self.reach(facts.as_slice(), label);
        self.values.truncate(count);
        is_new
    }
}
