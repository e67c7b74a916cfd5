use crate::literal::Literal;
use crate::table::{item_or, put};
use crate::trail::Trail;
use std::alloc::Global;
use text_core::Memory;

// A heap of less than 2^32 variables has no more levels.
const MOST_DEPTH: u32 = 32;

// Beyond this score all scores are made smaller.
const MOST_SCORE: u64 = 1 << 62;

/// Which variable is guessed next: one with a greatest score, with the value that it had last. What
/// it tells is help alone.
#[derive(Drop)]
pub(crate) struct Order {
    scores: Vec<u64>,
    phases: Vec<bool>,
    heap: Vec<u32>,
    places: Vec<Option<u32>>,
    bump: u64,
}

impl Order {
    /// No variables.
    pub(crate) fn new(alloc: Global) -> Order {
        Order {
            scores: Vec::new(alloc),
            phases: Vec::new(alloc),
            heap: Vec::new(alloc),
            places: Vec::new(alloc),
            bump: 1 << 10,
        }
    }

    /// Makes room for a variable. `Memory` is want of memory.
    pub(crate) fn add_variable(&mut self, variable: u32) -> Result<(), Memory> {
        self.scores.push(0)?;
        self.phases.push(false)?;
        self.places.push(None)?;
        self.insert(variable);
        Ok(())
    }

    /// Notes the value that a variable had, and that it is free again.
    pub(crate) fn give_back(&mut self, literal: Literal) {
        put(
            self.phases.as_mut_slice(),
            literal.place(),
            literal.positive,
        );
        self.insert(literal.variable);
    }

    /// The literal to guess next; none where each variable has a value.
    pub(crate) fn choose(&mut self, trail: &Trail) -> Option<Literal> {
        for _ in 0..self.heap.len() {
            let variable = self.pop()?;
            if trail.value(variable).is_none() {
                return Some(self.phased(variable));
            }
        }
        Some(self.phased(trail.free_variable()?))
    }

    /// Makes the score of a variable greater.
    pub(crate) fn raise(&mut self, variable: u32) {
        let score = self.score(variable).saturating_add(self.bump);
        put(self.scores.as_mut_slice(), variable as usize, score);
        if score > MOST_SCORE {
            self.shrink_scores();
        }
        if let Some(place) = item_or(self.places.as_slice(), variable as usize, None) {
            self.rise(place as usize);
        }
    }

    /// Makes later raises greater than those before.
    pub(crate) fn decay(&mut self) {
        self.bump = self.bump.saturating_add(self.bump / 20);
    }

    // A variable with the value that it had last.
    fn phased(&self, variable: u32) -> Literal {
        Literal {
            variable,
            positive: item_or(self.phases.as_slice(), variable as usize, false),
        }
    }

    fn score(&self, variable: u32) -> u64 {
        item_or(self.scores.as_slice(), variable as usize, 0)
    }

    fn shrink_scores(&mut self) {
        for score in self.scores.iter_mut() {
            *score >>= 32;
        }
        self.bump = (self.bump >> 32).max(1 << 10);
    }

    // Puts a variable into the heap, unless it is there. One that finds no room is found without
    // the heap.
    fn insert(&mut self, variable: u32) {
        if item_or(self.places.as_slice(), variable as usize, None).is_some() {
            return;
        }
        let place = self.heap.len();
        if self.heap.push(variable).is_ok() {
            self.note_place(place);
            self.rise(place);
        }
    }

    // Takes the first variable out of the heap.
    fn pop(&mut self) -> Option<u32> {
        let last = self.heap.pop()?;
        if self.heap.is_empty() {
            put(self.places.as_mut_slice(), last as usize, None);
            return Some(last);
        }
        let first = self.heap[0];
        self.heap[0] = last;
        put(self.places.as_mut_slice(), first as usize, None);
        self.note_place(0);
        self.sink();
        Some(first)
    }

    // Notes which variable stands at a place of the heap.
    fn note_place(&mut self, place: usize) {
        if place < self.heap.len() {
            let variable = self.heap[place] as usize;
            put(
                self.places.as_mut_slice(),
                variable,
                u32::try_from(place).ok(),
            );
        }
    }

    // Whether the variable at a place has a greater score than the one at another place.
    fn is_before(&self, place: usize, other: usize) -> bool {
        if place >= self.heap.len() || other >= self.heap.len() {
            return false;
        }
        self.score(self.heap[place]) > self.score(self.heap[other])
    }

    fn swap(&mut self, place: usize, other: usize) {
        if place < self.heap.len() && other < self.heap.len() {
            self.heap.swap(place, other);
            self.note_place(place);
            self.note_place(other);
        }
    }

    // Moves the variable at a place towards the first place.
    fn rise(&mut self, place: usize) {
        let mut place = place;
        for _ in 0..MOST_DEPTH {
            if place == 0 {
                return;
            }
            let parent = (place - 1) / 2;
            if !self.is_before(place, parent) {
                return;
            }
            self.swap(place, parent);
            place = parent;
        }
    }

    // Moves the variable at the first place towards the last places.
    fn sink(&mut self) {
        let mut place = 0usize;
        for _ in 0..MOST_DEPTH {
            let left = place.saturating_mul(2).saturating_add(1);
            let right = left.saturating_add(1);
            let child = if self.is_before(right, left) {
                right
            } else {
                left
            };
            if !self.is_before(child, place) {
                return;
            }
            self.swap(place, child);
            place = child;
        }
    }
}
