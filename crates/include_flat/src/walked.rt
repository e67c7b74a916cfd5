ghost use Rattle.std.specs.Prelude.{◌≡◌, ◌+◌, ◌++◌, ◌∷◌, [], ◌<◌, ◌≤◌, ◌⊎◌, length, OnOk, IfErr};
ghost use Rattle.text_core.specs.declared.limits.TheConstants.{MOST_PROBLEM_BYTES};
ghost use Rattle.logic_core.specs.Allowed.{FofIsAllowed};
ghost use Rattle.include_flat.specs.declared.refusal.FlatWhy.TheVariants as whys;

use crate::refusal::FlatWhy;
use logic_core::{Fof, Problem};
use std::alloc::Global;
use text_core::{MOST_FORMULAS, MOST_PROBLEM_BYTES};

/// What was walked so far: the number of fetched bytes, and the formulas that are kept.
#[derive(Drop)]
pub(crate) struct Walked {
    bytes: u32,
    problem: Problem,
    ghost within: { bytes ≤ MOST_PROBLEM_BYTES },
}

impl Walked {
    /// Nothing was walked. It takes no memory.
    pub(crate) fn new(alloc: Global) -> Walked
        ensures bytes { result.bytes ≡ 0 }
        ensures problem { result.problem ≡ [] }
    {
        Walked {
            bytes: 0,
            problem: Problem::new(alloc),
        }
    }

    /// Counts the bytes of one more fetch, where all are not too many.
    pub(crate) fn count(&mut self, more: usize) -> Result<(), FlatWhy>
        ensures counted { OnOk result (self.new.bytes ≡ self.old.bytes + more) }
        ensures few { OnOk result (self.old.bytes + more ≤ MOST_PROBLEM_BYTES) }
        ensures problem { self.new.problem ≡ self.old.problem }
        ensures too_long { IfErr result (λ why. why ≡ whys.AllTooLong) }
        ensures many { IfErr result (λ why. MOST_PROBLEM_BYTES < self.old.bytes + more) }
    {
        if more > (MOST_PROBLEM_BYTES - self.bytes) as usize {
            return Err(FlatWhy::AllTooLong);
        }
        self.bytes += more as u32;
        Ok(())
    }

    /// Keeps one more formula, where they are not too many.
    pub(crate) fn keep(&mut self, fof: Fof) -> Result<(), FlatWhy>
        requires { FofIsAllowed fof }
        ensures kept { OnOk result (self.new.problem ≡ self.old.problem ++ fof ∷ []) }
        ensures few { OnOk result (length self.old.problem < MOST_FORMULAS) }
        ensures bytes { self.new.bytes ≡ self.old.bytes }
        ensures refused { IfErr result (λ why. (why ≡ whys.Memory)
            ⊎ ((why ≡ whys.TooManyFormulas) × (MOST_FORMULAS ≤ length self.old.problem))) }
    {
        if self.problem.as_slice().len() >= MOST_FORMULAS as usize {
            return Err(FlatWhy::TooManyFormulas);
        }
        self.problem.push(fof)?;
        Ok(())
    }

    /// The formulas that were kept.
    pub(crate) fn into_problem(self) -> Problem
        ensures { result ≡ self.problem }
    {
        self.problem
    }
}
