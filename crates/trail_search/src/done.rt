ghost use Rattle.std.specs.Prelude.{◌≤◌, length};
ghost use Rattle.std.specs.Bool.{OnTrue};

use crate::outline::{Outline, OutlineArg, OutlineLine, OutlineStep};
use std::alloc::Global;
use text_core::Memory;

/// How a step of an outline was done: its first new element, and the number of its line.
#[derive(Clone, Copy, Debug)]
pub(crate) struct Done {
    pub(crate) first: u32,
    pub(crate) line: usize,
}

/// A place for each of so many steps. `Memory` is want of memory.
pub(crate) fn none_done(alloc: Global, most: u32) -> Result<Vec<Done>, Memory> {
    let mut done = Vec::with_capacity(alloc, most as usize)?;
    for made in 0..most {
        done.push(Done { first: 0, line: 0 })?;
    }
    Ok(done)
}

/// Notes how the step with a number was done, where there is a place for it.
pub(crate) fn note_done(done: &mut [Done], number: usize, step: Done) {
    if let Some(place) = done.get_mut(number) {
        *place = step;
    }
}

// The element that an argument is.
fn element_of(done: &[Done], arg: OutlineArg) -> Option<u32> {
    match arg {
        OutlineArg::Element(element) => Some(element),
        OutlineArg::New { step, number } => done.get(step as usize)?.first.checked_add(number),
    }
}

/// Writes the elements of a step's arguments at the front of a buffer, where they are known and it
/// has room for them; whether it has.
pub(crate) fn write_args(
    buffer: &mut [u32],
    outline: &Outline,
    done: &[Done],
    step: OutlineStep,
) -> bool
    ensures { OnTrue result (step.count ≤ length buffer.new) }
{
    let Some(args) = outline.args_of(step) else {
        return false;
    };
    if args.len() > buffer.len() {
        return false;
    }
    for (at, arg) in args.iter().enumerate() {
        let Some(element) = element_of(done, *arg) else {
            return false;
        };
        buffer[at] = element;
    }
    step.count <= buffer.len()
}

/// The number of the line that is split at the end of a branch.
pub(crate) fn line_split(outline: &Outline, done: &[Done], branch: u32) -> Option<usize> {
    match outline.split_of(branch)? {
        OutlineLine::Given(line) => Some(line as usize),
        OutlineLine::Step(step) => Some(done.get(step as usize)?.line),
    }
}
