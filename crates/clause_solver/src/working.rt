ghost use Rattle.std.specs.Prelude.{◌≡◌, ◌⊎◌, ℕ, Bool, OnOk, OnSome};
ghost use Rattle.std.specs.Bool.{OnTrue};
ghost use Rattle.clause_solver.specs.Clauses.{IsLiteralTrue, IsLeftTrue, IsClauseTrue, Suits};
ghost use Rattle.clause_solver.specs.Stored.{kept_in, Follows};

use crate::literal::Literal;
use crate::store::Store;
use std::alloc::Global;
use text_core::Memory;

/// A clause that is made from others by resolution, no literal twice. Where a literal may stand is
/// told by its variable, and looked at before it is believed.
#[derive(Drop)]
pub(crate) struct Working {
    literals: Vec<Literal>,
    places: Vec<u32>,
}

impl Working {
    /// The clause of no literals, over no variables.
    pub(crate) fn new(alloc: Global) -> Working {
        Working {
            literals: Vec::new(alloc),
            places: Vec::new(alloc),
        }
    }

    /// Makes room for a variable. `Memory` is want of memory.
    pub(crate) fn add_variable(&mut self) -> Result<(), Memory> {
        self.places.push(0)?;
        Ok(())
    }

    /// The literals in order.
    pub(crate) fn literals(&self) -> &[Literal]
        ensures { result.now ≡ self.now.literals.items }
    {
        self.literals.as_slice()
    }

    // The place of a literal, if it is one of the clause.
    fn place_of(&self, literal: Literal) -> Option<usize>
        ensures { OnSome result ((sigma : ℕ → Bool) → IsLiteralTrue sigma literal
            → IsClauseTrue sigma self.now.literals.items) }
    {
        if literal.place() >= self.places.len() {
            return None;
        }
        let place = self.places[literal.place()] as usize;
        if place >= self.literals.len() || self.literals[place] != literal {
            return None;
        }
        Some(place)
    }

    /// Whether a literal is one of the clause.
    pub(crate) fn holds(&self, literal: Literal) -> bool
        ensures { OnTrue result ((sigma : ℕ → Bool) → IsLiteralTrue sigma literal
            → IsClauseTrue sigma self.now.literals.items) }
    {
        match self.place_of(literal) {
            Some(_) => true,
            None => false,
        }
    }

    /// Begins with the literals of a clause that are not false for certain. `Memory` is want of
    /// memory.
    pub(crate) fn start(&mut self, store: &Store, clause: &[Literal]) -> Result<(), Memory>
        ensures { OnOk result (Follows (kept_in store.now) clause.now
            → Follows (kept_in store.now) self.new.literals.items) }
    {
        self.literals.clear();
        self.merge(store, clause, None)
    }

    /// Resolves with a clause that holds this literal, whose opposite is in the working clause.
    /// `Memory` where it is not, and for want of memory.
    pub(crate) fn resolve(
        &mut self,
        store: &Store,
        pivot: Literal,
        clause: &[Literal],
    ) -> Result<(), Memory>
        ensures { OnOk result (Follows (kept_in store.now) self.old.literals.items
            → Follows (kept_in store.now) clause.now
            → Follows (kept_in store.now) self.new.literals.items) }
    {
        if !self.remove(pivot.opposite()) {
            return Err(Memory);
        }
        self.merge(store, clause, Some(pivot))
    }

    /// Whether each literal of a clause is one of the working clause, is the one that is left out
    /// or is false for certain.
    pub(crate) fn covers(&self, store: &Store, clause: &[Literal], left: Literal) -> bool {
        for literal in clause {
            if !self.holds(*literal) && !store.is_spent(*literal, Some(left)) {
                return false;
            }
        }
        true
    }

    // Takes a literal out, if it is there.
    fn remove(&mut self, literal: Literal) -> bool
        ensures { OnTrue result ((sigma : ℕ → Bool) → IsClauseTrue sigma self.old.literals.items
            → IsLiteralTrue sigma literal ⊎ IsClauseTrue sigma self.new.literals.items) }
    {
        let Some(place) = self.place_of(literal) else {
            return false;
        };
        if !take_out(&mut self.literals, literal, place) {
            return false;
        }
        if place < self.literals.len() {
            let moved = self.literals[place];
            self.note_place(moved, place);
        }
        true
    }

    // Adds the literals of a clause, but the one that is left out and those that are false for
    // certain. `Memory` is want of memory.
    fn merge(
        &mut self,
        store: &Store,
        clause: &[Literal],
        left: Option<Literal>,
    ) -> Result<(), Memory>
        ensures before { (sigma : ℕ → Bool) → IsClauseTrue sigma self.old.literals.items
            → IsClauseTrue sigma self.new.literals.items }
        ensures more { OnOk result ((sigma : ℕ → Bool) → Suits sigma (kept_in store.now)
            → IsClauseTrue sigma clause.now
            → IsLeftTrue sigma left ⊎ IsClauseTrue sigma self.new.literals.items) }
    {
        for literal in clause {
            self.insert(store, *literal, left)?;
        }
        Ok(())
    }

    // Adds a literal, unless it is there, is the one that is left out or is false for certain.
    // `Memory` is want of memory.
    fn insert(
        &mut self,
        store: &Store,
        literal: Literal,
        left: Option<Literal>,
    ) -> Result<(), Memory>
        ensures before { (sigma : ℕ → Bool) → IsClauseTrue sigma self.old.literals.items
            → IsClauseTrue sigma self.new.literals.items }
        ensures more { OnOk result ((sigma : ℕ → Bool) → Suits sigma (kept_in store.now)
            → IsLiteralTrue sigma literal
            → IsLeftTrue sigma left ⊎ IsClauseTrue sigma self.new.literals.items) }
    {
        if self.holds(literal) {
            return Ok(());
        }
        if store.is_spent(literal, left) {
            return Ok(());
        }
        let place = self.literals.len();
        self.literals.push(literal)?;
        self.note_place(literal, place);
        Ok(())
    }

    // Notes where a literal stands.
    fn note_place(&mut self, literal: Literal, place: usize)
        ensures { self.new.literals ≡ self.old.literals }
    {
        if literal.place() < self.places.len() {
            self.places[literal.place()] = u32::try_from(place).unwrap_or(u32::MAX);
        }
    }
}

// Takes the literal at this place out, and the last one stands there; not where another literal
// stands at the place.
fn take_out(literals: &mut Vec<Literal>, literal: Literal, place: usize) -> bool
    ensures { OnTrue result ((sigma : ℕ → Bool) → IsClauseTrue sigma literals.old.items
        → IsLiteralTrue sigma literal ⊎ IsClauseTrue sigma literals.new.items) }
{
    if place >= literals.len() || literals[place] != literal {
        return false;
    }
    let Some(last) = literals.pop() else {
        return false;
    };
    if place == literals.len() {
        return true;
    }
    literals[place] = last;
    true
}
