use crate::literal::Literal;
use crate::table::{item_or, put};
use crate::trail::Trail;
use std::alloc::Global;
use text_core::Memory;

// Learnt clauses of this rank or a smaller one are never given up.
const ALWAYS_KEPT: u32 = 2;

// Ranks above this one count as this one.
const MOST_RANK: u32 = 63;

/// How useful learnt clauses are, by number: over how many levels their literals were spread. A
/// small rank is good. A clause that was given has none.
#[derive(Drop)]
pub(crate) struct Ranks {
    ranks: Vec<Option<u32>>,
    learnt: usize,
    limit: usize,
    stamps: Vec<u64>,
    stamp: u64,
}

impl Ranks {
    /// No clauses.
    pub(crate) fn new(alloc: Global) -> Ranks {
        Ranks {
            ranks: Vec::new(alloc),
            learnt: 0,
            limit: 4000,
            stamps: Vec::new(alloc),
            stamp: 0,
        }
    }

    /// Makes room for one more level. `Memory` is want of memory.
    pub(crate) fn add_level(&mut self) -> Result<(), Memory> {
        self.stamps.push(0)?;
        Ok(())
    }

    /// Over how many levels literals are spread.
    pub(crate) fn spread(&mut self, trail: &Trail, literals: &[Literal]) -> u32 {
        self.stamp = self.stamp.wrapping_add(1);
        let mut levels = 0u32;
        for literal in literals {
            let level = trail.level_of(literal.variable);
            if item_or(self.stamps.as_slice(), level, 0) != self.stamp {
                put(self.stamps.as_mut_slice(), level, self.stamp);
                levels = levels.saturating_add(1);
            }
        }
        levels.min(MOST_RANK)
    }

    /// Notes the rank of the clause with this number. `Memory` is want of memory.
    pub(crate) fn note(&mut self, number: u32, rank: Option<u32>) -> Result<(), Memory> {
        for _ in self.ranks.len()..number as usize {
            self.ranks.push(None)?;
        }
        self.ranks.push(rank)?;
        if rank.is_some() {
            self.learnt = self.learnt.saturating_add(1);
        }
        Ok(())
    }

    /// The rank of the clause with this number.
    pub(crate) fn rank(&self, number: usize) -> Option<u32> {
        item_or(self.ranks.as_slice(), number, None)
    }

    /// Whether there are too many learnt clauses.
    pub(crate) fn is_full(&self) -> bool {
        self.learnt > self.limit
    }

    /// The rank of which about as many learnt clauses have a smaller one as have a greater one.
    pub(crate) fn middle(&self) -> u32 {
        let half = self.learnt / 2;
        for bound in 0..MOST_RANK {
            let below = self
                .ranks
                .iter()
                .filter(|rank| rank.is_some_and(|rank| rank <= bound))
                .count();
            if below > half {
                return bound;
            }
        }
        MOST_RANK
    }

    /// Whether a clause is to be kept where the middle rank is this one. Of those with that rank
    /// the later ones are.
    pub(crate) fn is_useful(&self, number: usize, middle: u32) -> bool {
        match self.rank(number) {
            None => true,
            Some(rank) => {
                rank <= ALWAYS_KEPT
                    || rank < middle
                    || (rank == middle && number > self.ranks.len() / 2)
            }
        }
    }

    /// Forgets all ranks, and lets more clauses be learnt before it is full again.
    pub(crate) fn clear(&mut self) {
        self.ranks.clear();
        self.learnt = 0;
        self.limit = self.limit.saturating_add(self.limit / 10);
    }
}
