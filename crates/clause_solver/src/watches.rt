use crate::literal::Literal;
use std::alloc::Global;
use text_core::Memory;

/// A clause that watches a literal, and another literal of it. Where that one is true the clause
/// need not be looked at.
#[derive(Clone, Copy)]
pub(crate) struct Watcher {
    pub(crate) clause: u32,
    pub(crate) blocker: Literal,
}

// The two literals that a clause watches.
#[derive(Clone, Copy)]
struct Watched {
    first: Literal,
    second: Literal,
}

/// For each literal the clauses that watch it, and for each clause, by number, the two literals
/// that it watches. What it tells is help alone.
#[derive(Drop)]
pub(crate) struct Watches {
    alloc: Global,
    lists: Vec<Vec<Watcher>>,
    pairs: Vec<Watched>,
}

impl Watches {
    /// No clauses, no variables.
    pub(crate) fn new(alloc: Global) -> Watches {
        Watches {
            alloc,
            lists: Vec::new(alloc),
            pairs: Vec::new(alloc),
        }
    }

    /// Makes room for a variable. `Memory` is want of memory.
    pub(crate) fn add_variable(&mut self) -> Result<(), Memory> {
        self.lists.push(Vec::new(self.alloc))?;
        self.lists.push(Vec::new(self.alloc))?;
        Ok(())
    }

    /// Forgets all clauses.
    pub(crate) fn clear(&mut self) {
        for list in self.lists.iter_mut() {
            list.clear();
        }
        self.pairs.clear();
    }

    /// Lets the clause with this number watch two literals. `Memory` is want of memory.
    pub(crate) fn add(
        &mut self,
        clause: u32,
        first: Literal,
        second: Literal,
    ) -> Result<(), Memory> {
        let number = clause as usize;
        let pair = Watched { first, second };
        for _ in self.pairs.len()..number {
            self.pairs.push(pair)?;
        }
        self.pairs.push(pair)?;
        let blocker = second;
        self.push(first, Watcher { clause, blocker })?;
        let blocker = first;
        self.push(second, Watcher { clause, blocker })
    }

    /// The literal that a clause watches beside this one; none where it does not watch this one.
    pub(crate) fn other(&self, clause: u32, literal: Literal) -> Option<Literal> {
        let pair = *self.pairs.get(clause as usize)?;
        if pair.first == literal {
            Some(pair.second)
        } else if pair.second == literal {
            Some(pair.first)
        } else {
            None
        }
    }

    /// Lets a clause watch a literal beside the blocker of the watcher, and no other. `Memory` is
    /// want of memory.
    pub(crate) fn turn(&mut self, watcher: Watcher, literal: Literal) -> Result<(), Memory> {
        self.push(literal, watcher)?;
        let number = watcher.clause as usize;
        if number < self.pairs.len() {
            self.pairs[number] = Watched {
                first: watcher.blocker,
                second: literal,
            };
        }
        Ok(())
    }

    /// Takes the list of those that watch a literal out.
    pub(crate) fn take(&mut self, literal: Literal) -> Vec<Watcher> {
        let mut list = Vec::new(self.alloc);
        self.exchange(literal, &mut list);
        list
    }

    /// Exchanges the list of those that watch a literal for another one.
    pub(crate) fn exchange(&mut self, literal: Literal, list: &mut Vec<Watcher>) {
        let place = list_place(literal);
        if place < self.lists.len() {
            std::mem::swap(&mut self.lists[place], list);
        }
    }

    fn push(&mut self, literal: Literal, watcher: Watcher) -> Result<(), Memory> {
        let place = list_place(literal);
        if place < self.lists.len() {
            self.lists[place].push(watcher)?;
        }
        Ok(())
    }
}

// Where the list of a literal stands.
fn list_place(literal: Literal) -> usize {
    2 * literal.place() + usize::from(literal.positive)
}
