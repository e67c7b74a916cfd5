use crate::literal::Literal;
use crate::table::{item_or, put};
use std::alloc::Global;
use text_core::Memory;

/// At which level a variable has got its value, and which clause asks for it.
#[derive(Clone, Copy)]
struct Origin {
    level: usize,
    reason: Option<u32>,
}

const NOWHERE: Origin = Origin {
    level: 0,
    reason: None,
};

/// The values of variables in the order in which they were given, by levels. Each level above 0
/// begins with a guess.
#[derive(Drop)]
pub(crate) struct Trail {
    values: Vec<Option<bool>>,
    origins: Vec<Origin>,
    literals: Vec<Literal>,
    starts: Vec<usize>,
    propagated: usize,
    settled: usize,
}

impl Trail {
    /// No variables.
    pub(crate) fn new(alloc: Global) -> Trail {
        Trail {
            values: Vec::new(alloc),
            origins: Vec::new(alloc),
            literals: Vec::new(alloc),
            starts: Vec::new(alloc),
            propagated: 0,
            settled: 0,
        }
    }

    /// Makes room for a variable. `Memory` is want of memory.
    pub(crate) fn add_variable(&mut self) -> Result<(), Memory> {
        self.values.push(None)?;
        self.origins.push(NOWHERE)?;
        Ok(())
    }

    /// How many variables there are.
    pub(crate) fn variables(&self) -> usize {
        self.values.len()
    }

    /// The value of a variable, where it has one.
    pub(crate) fn value(&self, variable: u32) -> Option<bool> {
        item_or(self.values.as_slice(), variable as usize, None)
    }

    /// Whether a literal is true.
    pub(crate) fn is_true(&self, literal: Literal) -> bool {
        match self.value(literal.variable) {
            Some(value) => value == literal.positive,
            None => false,
        }
    }

    /// Whether a literal is false.
    pub(crate) fn is_false(&self, literal: Literal) -> bool {
        match self.value(literal.variable) {
            Some(value) => value != literal.positive,
            None => false,
        }
    }

    /// The first variable without a value.
    pub(crate) fn free_variable(&self) -> Option<u32> {
        let place = self.values.iter().position(|value| value.is_none())?;
        u32::try_from(place).ok()
    }

    /// The level of a variable that has a value.
    pub(crate) fn level_of(&self, variable: u32) -> usize {
        item_or(self.origins.as_slice(), variable as usize, NOWHERE).level
    }

    /// The clause that asks for the value of a variable; none where it is a guess.
    pub(crate) fn reason_of(&self, variable: u32) -> Option<u32> {
        item_or(self.origins.as_slice(), variable as usize, NOWHERE).reason
    }

    /// The present level.
    pub(crate) fn level(&self) -> usize {
        self.starts.len()
    }

    /// How many variables have a value.
    pub(crate) fn len(&self) -> usize {
        self.literals.len()
    }

    /// The true literal with this number.
    pub(crate) fn literal(&self, at: usize) -> Option<Literal> {
        self.literals.get(at).copied()
    }

    /// Opens a level. `Memory` is want of memory.
    pub(crate) fn open_level(&mut self) -> Result<(), Memory> {
        self.starts.push(self.literals.len())?;
        Ok(())
    }

    /// Makes a literal true. `Memory` is want of memory.
    pub(crate) fn assign(&mut self, literal: Literal, reason: Option<u32>) -> Result<(), Memory> {
        self.literals.push(literal)?;
        let level = self.level();
        put(
            self.values.as_mut_slice(),
            literal.place(),
            Some(literal.positive),
        );
        put(
            self.origins.as_mut_slice(),
            literal.place(),
            Origin { level, reason },
        );
        Ok(())
    }

    /// The next true literal that was not looked at yet.
    pub(crate) fn next(&mut self) -> Option<Literal> {
        let literal = self.literal(self.propagated)?;
        self.propagated = self.propagated.saturating_add(1);
        Some(literal)
    }

    /// Takes the newest value back, unless it is of this level or one below.
    pub(crate) fn take_back(&mut self, level: usize) -> Option<Literal> {
        if self.literals.len() <= item_or(self.starts.as_slice(), level, usize::MAX) {
            return None;
        }
        let literal = self.literals.pop()?;
        put(self.values.as_mut_slice(), literal.place(), None);
        Some(literal)
    }

    /// Closes the levels above this one, all of whose values were taken back.
    pub(crate) fn close_levels(&mut self, level: usize) {
        self.starts.truncate(level);
        self.propagated = self.propagated.min(self.literals.len());
    }

    /// How many values of level 0 are held for certain.
    pub(crate) fn settled(&self) -> usize {
        self.settled
    }

    /// Notes that so many values of level 0 are held for certain.
    pub(crate) fn note_settled(&mut self, settled: usize) {
        self.settled = settled;
    }

    /// Forgets which clauses ask for values.
    pub(crate) fn forget_reasons(&mut self) {
        for origin in self.origins.iter_mut() {
            origin.reason = None;
        }
    }
}
