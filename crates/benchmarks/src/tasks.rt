//! Times `Task::build` on the problems in files, beside reading the items of the same bytes;
//! bench/tasks makes the files.

use crate::items::items;
use crate::number;
use crate::timing::micros;
use anyhow::Error;
use coherent_form::Task;
use include_flat::flatten;
use io_core::RealFiles;
use logic_core::Problem;
use std::alloc::{AllocError, Global};
use std::fs;
use std::time::Instant;

/// The number of forms of the task of a problem, and 0 where it is refused.
fn forms(alloc: Global, problem: &Problem) -> usize {
    match Task::build(alloc, problem) {
        Ok(task) => task.forms().len(),
        Err(_) => 0,
    }
}

/// The items of a file, and the microseconds for reading them so often.
fn read(rt: &HostRuntime, name: &str, turns: u32) -> Result<(usize, u128), Error> {
    let bytes = fs::read(rt, name)?;
    let start = Instant::now(rt)?;
    let mut found = 0;
    for _ in 0..turns {
        found = items(rt, bytes.as_slice());
    }
    Ok((found, micros(start.elapsed(rt)?)))
}

/// The forms of the task of a problem, and the microseconds for building it so often.
fn built(rt: &HostRuntime, problem: &Problem, turns: u32) -> Result<(usize, u128), Error> {
    let start = Instant::now(rt)?;
    let mut found = 0;
    for _ in 0..turns {
        found = forms(rt.alloc(), problem);
    }
    Ok((found, micros(start.elapsed(rt)?)))
}

/// Prints a line for a file: its items and the forms of its task, and the microseconds for all turns
/// of each. A problem that the reader refuses has no line.
fn time_file(rt: &HostRuntime, name: &str, turns: u32) -> Result<(), Error> {
    let out = rt.stdout();
    let (items, reading) = read(rt, name, turns)?;
    let mut files = RealFiles::new(rt);
    let problem = flatten(rt.alloc(), &mut files, name.as_bytes()).map_err(|_| AllocError)?;
    let (forms, building) = built(rt, &problem, turns)?;
    println!(out;
        "{name} items {items} forms {forms} turns {turns} reading {reading} us building {building} us"
    )?;
    Ok(())
}

/// Takes the number of turns and files, and times each of them.
pub(crate) fn run(rt: &HostRuntime, words: &[String]) -> Result<(), Error> {
    let turns = number(words, 0)?;
    for name in words.iter().skip(1) {
        time_file(rt, name.as_str(), turns)?;
    }
    Ok(())
}
