use crate::literal::Literal;
use crate::order::Order;
use crate::pace::Pace;
use crate::ranks::Ranks;
use crate::trail::Trail;
use crate::watches::Watches;
use crate::working::Working;
use std::alloc::Global;
use text_core::Memory;

/// Where a search stands. Nothing of it is relied on but that the working clause follows while one
/// is made.
#[derive(Drop)]
pub(crate) struct Search {
    pub(crate) trail: Trail,
    pub(crate) watches: Watches,
    pub(crate) order: Order,
    pub(crate) ranks: Ranks,
    pub(crate) pace: Pace,
    pub(crate) working: Working,
}

impl Search {
    /// No variables.
    pub(crate) fn new(alloc: Global) -> Search {
        Search {
            trail: Trail::new(alloc),
            watches: Watches::new(alloc),
            order: Order::new(alloc),
            ranks: Ranks::new(alloc),
            pace: Pace::new(),
            working: Working::new(alloc),
        }
    }

    /// Makes room for a variable. `Memory` is want of memory, or of numbers.
    pub(crate) fn add_variable(&mut self) -> Result<(), Memory> {
        let Ok(variable) = u32::try_from(self.trail.variables()) else {
            return Err(Memory);
        };
        self.watches.add_variable()?;
        self.working.add_variable()?;
        self.ranks.add_level()?;
        self.order.add_variable(variable)?;
        self.trail.add_variable()
    }

    /// Takes all values back but those of this level and the ones below.
    pub(crate) fn go_back(&mut self, level: usize) {
        for _ in 0..self.trail.len() {
            let Some(literal) = self.trail.take_back(level) else {
                break;
            };
            self.order.give_back(literal);
        }
        self.trail.close_levels(level);
    }

    /// Lets a clause watch literals, of which the first is not false. Where it has no second one
    /// that may be true, the first one is made true. `Memory` is want of memory.
    pub(crate) fn watch(
        &mut self,
        number: u32,
        first: Literal,
        second: Option<Literal>,
    ) -> Result<(), Memory> {
        match second {
            Some(second) => self.watches.add(number, first, second),
            None => self.trail.assign(first, Some(number)),
        }
    }
}

/// A literal of a clause that is not false, and is not this one.
pub(crate) fn open_literal(
    trail: &Trail,
    clause: &[Literal],
    but: Option<Literal>,
) -> Option<Literal> {
    for literal in clause {
        if !trail.is_false(*literal) && but.is_none_or(|but| but != *literal) {
            return Some(*literal);
        }
    }
    None
}
