//! Programs that the scripts of bench/ time, one for each word: `tokens FILE..`, `items FILE..`,
//! `scripts FILE..`, `tasks TURNS FILE..`, `trees [ROUNDS]`, `grammar [time]` and
//! `facts [FACTS [FILLS [FINDS]]]`. Other words give 64 and the list of these.
#![tactic(auto)]

use anyhow::Error;
use std::env;
use std::process::ExitCode;

mod facts;
mod grammar;
mod items;
mod scripts;
mod tasks;
mod timing;
mod tokens;
mod trees;

/// The status for words that name no benchmark.
const USAGE: u8 = 64;

fn main(rt: HostRuntime) -> Result<ExitCode, Error> {
    let words: Vec<String> = env::args(&rt)?.skip(1).collect(rt.alloc())?;
    match words.as_slice() {
        [name, rest @ ..] => run(&rt, name.as_str(), rest),
        [] => usage(&rt),
    }
}

/// Runs the benchmark of this name with the words behind it.
fn run(rt: &HostRuntime, name: &str, words: &[String]) -> Result<ExitCode, Error> {
    match name {
        "tokens" => tokens::run(rt, words)?,
        "items" => items::run(rt, words)?,
        "scripts" => scripts::run(rt, words)?,
        "tasks" => tasks::run(rt, words)?,
        "trees" => trees::run(rt, words)?,
        "grammar" => grammar::run(rt, words)?,
        "facts" => facts::run(rt, words)?,
        _ => return usage(rt),
    }
    Ok(ExitCode::SUCCESS)
}

/// The number that the word at this place is, or 1 where there is none.
fn number(words: &[String], place: usize) -> Result<u32, Error> {
    match words.get(place) {
        Some(word) => Ok(word.parse()?),
        None => Ok(1),
    }
}

/// Tells the words on standard error.
fn usage(rt: &HostRuntime) -> Result<ExitCode, Error> {
    eprintln!(rt;
        "usage: benchmarks tokens FILE.. | items FILE.. | scripts FILE.. | tasks TURNS FILE.. | trees [ROUNDS] | grammar [time] | facts [FACTS [FILLS [FINDS]]]"
    )?;
    Ok(ExitCode::from(USAGE))
}
