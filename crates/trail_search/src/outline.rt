ghost use Rattle.std.specs.Prelude.{◌<◌, ◌^◌, IfSome};

use std::alloc::Global;
use text_core::{MOST_FORM_VARIABLES, Memory};

/// An argument of a step: an element of the lent context, or which new element of a step, from 0.
#[derive(Clone, Copy, Debug)]
pub(crate) enum OutlineArg {
    Element(u32),
    New { step: u32, number: u32 },
}

/// An application of a form in a branch: which of all arguments are its own.
#[derive(Clone, Copy, Debug)]
pub(crate) struct OutlineStep {
    pub(crate) form: u32,
    pub(crate) branch: u32,
    pub(crate) first: usize,
    pub(crate) count: usize,
}

/// A line of the lent context, or that of a step.
#[derive(Clone, Copy, Debug)]
pub(crate) enum OutlineLine {
    Given(u32),
    Step(u32),
}

/// A case of the line that is split at the end of a branch, and the branch that it begins.
#[derive(Clone, Copy, Debug)]
pub(crate) struct OutlineSplit {
    pub(crate) branch: u32,
    pub(crate) line: OutlineLine,
    pub(crate) number: u32,
    pub(crate) child: u32,
}

/// A proof in outline: its steps in an order in which they may be done, and its splits. Branches
/// have numbers, and 0 is the one that begins with the lent context. It need not be right.
#[derive(Drop)]
pub(crate) struct Outline {
    steps: Vec<OutlineStep>,
    args: Vec<OutlineArg>,
    splits: Vec<OutlineSplit>,
}

impl Outline {
    /// Nothing is in it, and there is room for so many steps and for as many cases. `Memory` is
    /// want of memory.
    pub(crate) fn new(alloc: Global, most: u32) -> Result<Outline, Memory> {
        let most_args = most as usize * MOST_FORM_VARIABLES as usize;
        Ok(Outline {
            steps: Vec::with_capacity(alloc, most as usize)?,
            args: Vec::with_capacity(alloc, most_args)?,
            splits: Vec::with_capacity(alloc, most as usize)?,
        })
    }

    /// Takes all out of it.
    pub(crate) fn clear(&mut self) {
        self.steps.clear();
        self.args.clear();
        self.splits.clear();
    }

    /// How many arguments there are.
    pub(crate) fn arg_count(&self) -> usize {
        self.args.len()
    }

    /// Adds an argument; whether there was room for it.
    pub(crate) fn push_arg(&mut self, arg: OutlineArg) -> bool {
        self.args.len() < self.args.capacity() && self.args.push(arg).is_ok()
    }

    /// Adds a step; whether there was room for it.
    pub(crate) fn push_step(&mut self, step: OutlineStep) -> bool {
        self.steps.len() < self.steps.capacity() && self.steps.push(step).is_ok()
    }

    /// Adds a case of a split; whether there was room for it.
    pub(crate) fn push_split(&mut self, split: OutlineSplit) -> bool {
        self.splits.len() < self.splits.capacity() && self.splits.push(split).is_ok()
    }

    /// The step with a number.
    pub(crate) fn step(&self, number: usize) -> Option<OutlineStep> {
        self.steps.get(number).copied()
    }

    /// The number of the first step of a branch, from a number on.
    pub(crate) fn next_in(&self, branch: u32, from: usize) -> Option<usize>
        ensures { IfSome result (λ number. number < 2 ^ 63) }
    {
        for number in from..self.steps.len() {
            if self.steps[number].branch == branch {
                return Some(number);
            }
        }
        None
    }

    /// The arguments of a step.
    pub(crate) fn args_of(&self, step: OutlineStep) -> Option<&[OutlineArg]> {
        let all = self.args.as_slice();
        if step.count > all.len() || step.first > all.len() - step.count {
            return None;
        }
        Some(&all[step.first..step.first + step.count])
    }

    /// The line that is split at the end of a branch.
    pub(crate) fn split_of(&self, branch: u32) -> Option<OutlineLine> {
        for split in self.splits.as_slice() {
            if split.branch == branch {
                return Some(split.line);
            }
        }
        None
    }

    /// The branch that a case begins at the end of a branch.
    pub(crate) fn child_of(&self, branch: u32, case: u32) -> Option<u32> {
        for split in self.splits.as_slice() {
            if split.branch == branch && split.number == case {
                return Some(split.child);
            }
        }
        None
    }
}
