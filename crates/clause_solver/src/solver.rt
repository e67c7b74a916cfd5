ghost use Rattle.std.specs.Prelude.{◌≡◌, ℕ, Bool, true, Ok};
ghost use Rattle.clause_solver.specs.Clauses.{IsClauseTrue, Suits};
ghost use Rattle.clause_solver.specs.Stored.{kept_in, StaySuited};

use crate::literal::Literal;
use crate::search::Search;
use crate::steps::{step, take_in};
use crate::store::Store;
use std::alloc::Global;
use std::marker::Model;
use text_core::Memory;

/// Variables have numbers below this one.
pub const MOST_VARIABLES: u32 = 1 << 30;

// So many steps a search takes at most.
const MOST_STEPS: u64 = 1 << 60;

/// What a solver answers.
#[derive(Clone, Copy, PartialEq, Eq, Debug)]
pub enum Answer {
    /// The values that `value` tells may suit.
    Values,
    /// No values suit.
    None,
}

/// A solver, to which clauses are given at any time. Contracts see what it keeps: clauses, given
/// and learnt, values that are held for certain, and whether no values suit.
#[derive(Drop)]
pub struct Solver {
    alloc: Global,
    store: Store,
    search: Search,
}

impl Model for Solver {
    ghost use Rattle.clause_solver.specs.Clauses.{Kept};
    ghost use Rattle.clause_solver.specs.Stored.{kept_in};

    ghost Value = { Kept };

    ghost view = { λ s. kept_in s.store };
}

impl Solver {
    /// A solver with no clauses: each assignment suits it.
    pub fn new(alloc: Global) -> Solver
        ensures { (sigma : ℕ → Bool) → Suits sigma result }
    {
        Solver {
            alloc,
            store: Store::new(alloc),
            search: Search::new(alloc),
        }
    }

    /// Adds a clause. Variables are numbers below `MOST_VARIABLES`. `Memory` where one is not, and
    /// for want of memory.
    pub fn add(&mut self, clause: &[Literal]) -> Result<(), Memory>
        ensures kept { (sigma : ℕ → Bool) → Suits sigma self.old → IsClauseTrue sigma clause.now
            → Suits sigma self.new }
    {
        self.search.go_back(0);
        for literal in clause {
            add_variables(&mut self.store, &mut self.search, literal.variable)?;
        }
        take_in(&mut self.store, &mut self.search, clause)
    }

    /// Seeks values at which all clauses are true. `Memory` is want of memory, and that the search
    /// took too many steps.
    pub fn solve(&mut self) -> Result<Answer, Memory>
        ensures kept { (sigma : ℕ → Bool) → Suits sigma self.old → Suits sigma self.new }
        ensures none { result ≡ Ok Answer.None → (sigma : ℕ → Bool) → Suits sigma self.old → ⊥ }
    {
        if self.store.is_refuted() {
            return Ok(Answer::None);
        }
        self.search.go_back(0);
        run(self.alloc, &mut self.store, &mut self.search)
    }

    /// The value of a variable, where it has one.
    pub fn value(&self, variable: u32) -> Option<bool> {
        self.search.trail.value(variable)
    }
}

// Makes room for the variables up to this one. `Memory` where it has too great a number, and for
// want of memory.
fn add_variables(store: &mut Store, search: &mut Search, variable: u32) -> Result<(), Memory>
    ensures { StaySuited (kept_in store.old) (kept_in store.new) }
{
    if variable >= MOST_VARIABLES {
        return Err(Memory);
    }
    for _ in search.trail.variables()..variable as usize + 1 {
        store.add_variable()?;
        search.add_variable()?;
    }
    Ok(())
}

// Searches step by step.
fn run(alloc: Global, store: &mut Store, search: &mut Search) -> Result<Answer, Memory>
    ensures kept { StaySuited (kept_in store.old) (kept_in store.new) }
    ensures none { result ≡ Ok Answer.None → store.new.refuted ≡ true }
{
    for _ in 0..MOST_STEPS {
        if let Some(answer) = step(alloc, store, search)? {
            return Ok(answer);
        }
    }
    Err(Memory)
}
