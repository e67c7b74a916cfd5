ghost use Rattle.std.specs.Prelude.{ℕ, ◌≡◌, ◌⊎◌, Bool, true, [], ◌∷◌, ◌++◌, IsTrue, IfOk, OnOk};
ghost use Rattle.text_core.specs.Lists.{IsAmong};
ghost use Rattle.clause_solver.specs.Clauses.{IsLiteralTrue};
ghost use Rattle.model_search.specs.Candidates.{Candidate};
ghost use Rattle.model_search.specs.Keys.{ground_true, key_true, Agrees, AllTrue};
ghost use Rattle.model_search.specs.Sheets.{IsSuited, Covers, Grows, Goes, GoesIf, Implies};

use crate::key::{Ground, Key};
use clause_solver::{Answer, Literal, Solver};
use indexmap::IndexSet;
use std::alloc::Global;
use std::marker::Model;
use text_core::Memory;

/// Clauses about structures of one size: the keys of their variables by number, a solver that holds
/// them, and one clause in the making.
#[derive(Drop)]
pub(crate) struct Sheet {
    keys: IndexSet<Key>,
    solver: Solver,
    literals: Vec<Literal>,
    is_true: bool,
}

impl Model for Sheet {
    ghost use Rattle.model_search.specs.Sheets.{Drawn};

    ghost Value = { Drawn };

    ghost view = { λ s. record {
      keys = s.keys.keys;
      kept = s.solver;
      literals = s.literals.items;
      is_true = s.is_true;
    } };
}

/// Whether a literal is one of several.
fn is_among(literal: Literal, literals: &[Literal]) -> bool
    ensures { IsTrue result → IsAmong literal literals.now }
{
    for other in literals {
        if other.variable == literal.variable && other.positive == literal.positive {
            return true;
        }
    }
    false
}

impl Sheet {
    /// No clauses.
    pub(crate) fn new(alloc: Global) -> Result<Sheet, Memory>
        ensures { IfOk result (λ sheet. (c : Candidate) → IsSuited c sheet) }
    {
        Ok(Sheet {
            keys: IndexSet::new(alloc),
            solver: Solver::new(alloc),
            literals: Vec::new(alloc),
            is_true: false,
        })
    }

    /// The keys of the variables by number.
    pub(crate) fn keys(&self) -> &[Key] {
        self.keys.as_slice()
    }

    /// Whether the solver's values make a variable true.
    pub(crate) fn is_chosen(&self, variable: usize) -> bool {
        variable <= u32::MAX as usize && self.solver.value(variable as u32) == Some(true)
    }

    /// Begins a clause.
    pub(crate) fn begin(&mut self)
        ensures { (c : Candidate) → IsSuited c self.old → IsSuited c self.new }
    {
        self.literals.clear();
        self.is_true = false;
    }

    /// The variable of a key.
    fn number(&mut self, key: Key) -> Result<u32, Memory>
        ensures goes { OnOk result (Goes self.old self.new) }
        ensures means { IfOk result (λ v. (c : Candidate) (sigma : ℕ → Bool)
            → Agrees sigma c self.new.keys → sigma v ≡ key_true c key) }
    {
        let (number, _) = self.keys.insert_full(key)?;
        if number > u32::MAX as usize {
            return Err(Memory);
        }
        Ok(number as u32)
    }

    /// Adds a literal to the clause in the making, which is true if the opposite is there too.
    fn push(&mut self, literal: Literal) -> Result<(), Memory>
        ensures goes { OnOk result (Goes self.old self.new) }
        ensures covers { OnOk result ((c : Candidate)
            → ((sigma : ℕ → Bool) → Agrees sigma c self.old.keys → IsLiteralTrue sigma literal)
            → Covers c self.new) }
    {
        let opposite = Literal {
            variable: literal.variable,
            positive: !literal.positive,
        };
        if is_among(opposite, self.literals.as_slice()) {
            self.settle();
            return Ok(());
        }
        if is_among(literal, self.literals.as_slice()) {
            return Ok(());
        }
        self.literals.push(literal)?;
        Ok(())
    }

    /// Adds a literal to the clause in the making: what the key says is true, or it is not, as is
    /// wanted.
    pub(crate) fn add(&mut self, key: Key, wanted: bool) -> Result<(), Memory>
        ensures goes { OnOk result (Goes self.old self.new) }
        ensures covers { OnOk result ((c : Candidate) → key_true c key ≡ wanted
            → Covers c self.new) }
    {
        let variable = self.number(key)?;
        self.push(Literal {
            variable,
            positive: wanted,
        })
    }

    /// The literal that an atom at elements is true.
    fn literal(&mut self, fact: Ground) -> Result<Literal, Memory>
        ensures goes { OnOk result (Goes self.old self.new) }
        ensures means { IfOk result (λ literal. (c : Candidate) (sigma : ℕ → Bool)
            → Agrees sigma c self.new.keys → ground_true c fact ≡ true
            → IsLiteralTrue sigma literal) }
    {
        let positive = fact.positive;
        let variable = self.number(Key::Fact(Ground {
            positive: true,
            symbol: fact.symbol,
            elements: fact.elements,
        }))?;
        Ok(Literal { variable, positive })
    }

    /// Adds a literal to the clause in the making: an atom at elements is true.
    pub(crate) fn add_true(&mut self, fact: Ground) -> Result<(), Memory>
        ensures goes { OnOk result (Goes self.old self.new) }
        ensures covers { OnOk result ((c : Candidate) → ground_true c fact ≡ true
            → Covers c self.new) }
    {
        let literal = self.literal(fact)?;
        self.push(literal)
    }

    /// Adds a literal to the clause in the making: an atom at elements is not true.
    pub(crate) fn add_false(&mut self, fact: Ground) -> Result<(), Memory>
        ensures goes { OnOk result (Goes self.old self.new) }
        ensures covers { OnOk result ((c : Candidate) → (ground_true c fact ≡ true)
            ⊎ Covers c self.new) }
    {
        self.add_true(Ground {
            positive: !fact.positive,
            symbol: fact.symbol,
            elements: fact.elements,
        })
    }

    /// The clause in the making is known to be true.
    pub(crate) fn settle(&mut self)
        ensures goes { Goes self.old self.new }
        ensures covers { (c : Candidate) → Covers c self.new }
    {
        self.is_true = true;
    }

    /// Whether the clause in the making is known to be true.
    pub(crate) fn is_settled(&self) -> bool
        ensures { IsTrue result → (c : Candidate) → Covers c self.now }
    {
        self.is_true
    }

    /// Gives the clause in the making to the solver, unless it is known to be true.
    pub(crate) fn finish(&mut self) -> Result<(), Memory>
        ensures { OnOk result (GoesIf (λ c. Covers c self.old) self.old self.new) }
    {
        if self.is_true {
            return Ok(());
        }
        self.solver.add(self.literals.as_slice())
    }

    /// A clause of two literals: where the variable is true, so is the atom.
    fn imply(&mut self, variable: u32, fact: Ground) -> Result<(), Memory>
        ensures grows { OnOk result (Grows self.old self.new) }
        ensures suited { OnOk result
            (GoesIf (Implies self.old variable (fact ∷ [])) self.old self.new) }
    {
        let literal = self.literal(fact)?;
        self.solver.add(&[
            Literal {
                variable,
                positive: false,
            },
            literal,
        ])
    }

    /// Clauses: where the variable is true, so is each of the atoms.
    fn imply_each(&mut self, alloc: Global, variable: u32, grounds: &[Ground]) -> Result<(), Memory>
        ensures grows { OnOk result (Grows self.old self.new) }
        ensures suited { OnOk result
            (GoesIf (Implies self.old variable grounds.now) self.old self.new) }
    {
        for fact in grounds {
            self.imply(variable, fact.try_copy(alloc)?)?;
        }
        Ok(())
    }

    /// The same, where the variable is new; the clauses of another one are there.
    fn imply_new(
        &mut self,
        alloc: Global,
        is_new: bool,
        variable: u32,
        grounds: &[Ground],
    ) -> Result<(), Memory>
        ensures grows { OnOk result (Grows self.old self.new) }
        ensures suited { OnOk result
            (GoesIf (Implies self.old variable grounds.now) self.old self.new) }
    {
        if !is_new {
            return Ok(());
        }
        self.imply_each(alloc, variable, grounds)
    }

    /// Adds a literal to the clause in the making: all of these atoms are true.
    pub(crate) fn add_all(&mut self, alloc: Global, grounds: Vec<Ground>) -> Result<(), Memory>
        ensures goes { OnOk result (Goes self.old self.new) }
        ensures covers { OnOk result ((c : Candidate)
            → AllTrue c grounds.items
            → Covers c self.new) }
    {
        let copies = copied(alloc, grounds.as_slice())?;
        let known = self.keys.len();
        let variable = self.number(Key::All(grounds))?;
        let is_new = known < self.keys.len();
        self.imply_new(alloc, is_new, variable, copies.as_slice())?;
        self.push(Literal {
            variable,
            positive: true,
        })
    }

    /// Seeks values at which all clauses are true.
    pub(crate) fn solve(&mut self) -> Result<Answer, Memory>
        ensures suited { (c : Candidate) → IsSuited c self.old → IsSuited c self.new }
        ensures none { result ≡ Ok Answer.None → (c : Candidate) → IsSuited c self.old → ⊥ }
    {
        self.solver.solve()
    }
}

/// Copies of atoms.
fn copied(alloc: Global, grounds: &[Ground]) -> Result<Vec<Ground>, Memory>
    ensures { IfOk result (λ copies. copies.items ≡ grounds.now) }
{
    let mut copies = Vec::new(alloc);
    for fact in grounds {
        copies.push(fact.try_copy(alloc)?)?;
    }
    Ok(copies)
}
