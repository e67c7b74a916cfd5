ghost use Rattle.std.specs.Prelude.{◌≡◌, ℕ, Bool, [], true, false, IfOk, IfSome, OnOk};
ghost use Rattle.std.specs.Bool.{OnTrue};
ghost use Rattle.clause_solver.specs.Clauses.{IsLiteralTrue, IsLeftTrue, IsClauseTrue, Suits};
ghost use Rattle.clause_solver.specs.Stored.{AreTrue, kept_in, StaySuited, Follows};

use crate::literal::Literal;
use std::alloc::Global;
use text_core::Memory;

/// Where the literals of a clause stand among all literals.
#[derive(Clone, Copy)]
pub(crate) struct Part {
    start: u32,
    count: u32,
}

/// Clauses by number in order of addition, the values that are held for certain, and whether no
/// assignment suits. What is held rests on the clauses that were given alone.
#[derive(Drop)]
pub(crate) struct Store {
    literals: Vec<Literal>,
    parts: Vec<Part>,
    certain: Vec<Option<bool>>,
    refuted: bool,
}

impl Store {
    /// No clauses, no variables.
    pub(crate) fn new(alloc: Global) -> Store
        ensures { kept_in result ≡ record { clauses = []; certain = []; refuted = false } }
    {
        Store {
            literals: Vec::new(alloc),
            parts: Vec::new(alloc),
            certain: Vec::new(alloc),
            refuted: false,
        }
    }

    /// How many clauses there are.
    pub(crate) fn len(&self) -> usize {
        self.parts.len()
    }

    /// Whether it is told that no assignment suits.
    pub(crate) fn is_refuted(&self) -> bool
        ensures { result ≡ self.now.refuted }
    {
        self.refuted
    }

    /// The clause with this number.
    pub(crate) fn clause(&self, number: u32) -> Option<&[Literal]>
        ensures { IfSome result (λ clause. Follows (kept_in self.now) clause.now) }
    {
        let number = number as usize;
        if number >= self.parts.len() {
            return None;
        }
        let part = self.parts[number];
        let start = part.start as usize;
        let end = start + part.count as usize;
        if end > self.literals.len() {
            return None;
        }
        Some(&self.literals[start..end])
    }

    /// Adds a clause and tells its number. `Memory` is want of memory, or of numbers.
    pub(crate) fn add(&mut self, clause: &[Literal]) -> Result<u32, Memory>
        ensures { (sigma : ℕ → Bool) → Suits sigma (kept_in self.old)
            → IsClauseTrue sigma clause.now → Suits sigma (kept_in self.new) }
    {
        let number = number_of(self.parts.len())?;
        add_clause(&mut self.literals, &mut self.parts, clause)?;
        Ok(number)
    }

    /// Makes room for a variable. `Memory` is want of memory.
    pub(crate) fn add_variable(&mut self) -> Result<(), Memory>
        ensures { StaySuited (kept_in self.old) (kept_in self.new) }
    {
        self.certain.push(None)?;
        Ok(())
    }

    /// The value of a variable that is held for certain.
    pub(crate) fn certainty(&self, variable: u32) -> Option<bool>
        ensures { IfSome result (λ value. (sigma : ℕ → Bool) → Suits sigma (kept_in self.now)
            → sigma variable ≡ value) }
    {
        *self.certain.get(variable as usize)?
    }

    /// Whether a literal is false for certain.
    pub(crate) fn is_false(&self, literal: Literal) -> bool
        ensures { OnTrue result ((sigma : ℕ → Bool) → Suits sigma (kept_in self.now)
            → IsLiteralTrue sigma literal → ⊥) }
    {
        match self.certainty(literal.variable) {
            Some(value) => value != literal.positive,
            None => false,
        }
    }

    /// Whether a literal is the one that is left out, or false for certain.
    pub(crate) fn is_spent(&self, literal: Literal, left: Option<Literal>) -> bool
        ensures { OnTrue result ((sigma : ℕ → Bool) → Suits sigma (kept_in self.now)
            → IsLiteralTrue sigma literal → IsLeftTrue sigma left) }
    {
        if self.is_false(literal) {
            return true;
        }
        match left {
            Some(other) => other == literal,
            None => false,
        }
    }

    // Whether all literals of a clause but the one that is left out are false for certain.
    fn are_spent(&self, clause: &[Literal], left: Option<Literal>) -> bool
        ensures { OnTrue result ((sigma : ℕ → Bool) → Suits sigma (kept_in self.now)
            → IsClauseTrue sigma clause.now → IsLeftTrue sigma left) }
    {
        for literal in clause {
            if !self.is_spent(*literal, left) {
                return false;
            }
        }
        true
    }

    /// Holds a literal for certain because all others of this clause are false for certain.
    /// `Memory` where one is not, and where there is no such clause or variable.
    pub(crate) fn settle(&mut self, literal: Literal, number: u32) -> Result<(), Memory>
        ensures { StaySuited (kept_in self.old) (kept_in self.new) }
    {
        let Some(clause) = self.clause(number) else {
            return Err(Memory);
        };
        if !self.are_spent(clause, Some(literal)) || literal.place() >= self.certain.len() {
            return Err(Memory);
        }
        self.certain[literal.place()] = Some(literal.positive);
        Ok(())
    }

    /// Tells that no assignment suits because all literals of this clause are false for certain.
    /// `Memory` where one is not, and where there is no such clause.
    pub(crate) fn refute(&mut self, number: u32) -> Result<(), Memory>
        ensures kept { StaySuited (kept_in self.old) (kept_in self.new) }
        ensures ok { OnOk result (self.new.refuted ≡ true) }
    {
        let Some(clause) = self.clause(number) else {
            return Err(Memory);
        };
        if !self.are_spent(clause, None) {
            return Err(Memory);
        }
        self.refuted = true;
        Ok(())
    }

    /// Keeps the clauses that are wanted, which get the numbers from 0 in their order. `Memory` is
    /// want of memory, and all are kept.
    pub(crate) fn keep(&mut self, alloc: Global, wanted: &[bool]) -> Result<(), Memory>
        ensures { StaySuited (kept_in self.old) (kept_in self.new) }
    {
        let mut literals = Vec::new(alloc);
        let mut parts = Vec::new(alloc);
        for (number, is_wanted) in wanted.iter().enumerate() {
            if *is_wanted {
                self.copy_clause(number, &mut literals, &mut parts)?;
            }
        }
        self.literals = literals;
        self.parts = parts;
        Ok(())
    }

    // Adds the clause with this number to clauses that are true where its own are.
    fn copy_clause(
        &self,
        number: usize,
        literals: &mut Vec<Literal>,
        parts: &mut Vec<Part>,
    ) -> Result<(), Memory>
        ensures { ((sigma : ℕ → Bool) → Suits sigma (kept_in self.now)
            → AreTrue sigma literals.old.items parts.old.items)
            → (sigma : ℕ → Bool) → Suits sigma (kept_in self.now)
            → AreTrue sigma literals.new.items parts.new.items }
    {
        let Some(clause) = self.clause(number_of(number)?) else {
            return Err(Memory);
        };
        add_clause(literals, parts, clause)
    }
}

// A place as a number; `Memory` where it is too great.
fn number_of(place: usize) -> Result<u32, Memory>
    ensures { IfOk result (λ number. number ≡ place) }
{
    u32::try_from(place).map_err(|_| Memory)
}

// Adds a clause behind others. `Memory` is want of memory, or of numbers.
fn add_clause(
    literals: &mut Vec<Literal>,
    parts: &mut Vec<Part>,
    clause: &[Literal],
) -> Result<(), Memory>
    ensures { (sigma : ℕ → Bool) → AreTrue sigma literals.old.items parts.old.items
        → IsClauseTrue sigma clause.now → AreTrue sigma literals.new.items parts.new.items }
{
    let part = Part {
        start: number_of(literals.len())?,
        count: number_of(clause.len())?,
    };
    literals.extend_from_slice(clause)?;
    parts.push(part)?;
    Ok(())
}
