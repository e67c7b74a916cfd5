//! Hogbygone: a checker for proofs in coherent logic, as a program.
#![tactic(auto)]

use io_core::{RealFiles, StreamSink};
use logic_core::AnyWorld;
use std::process::ExitCode;

mod arguments;
mod command;
mod confirm;
mod decide;
mod demo;
mod judge;
mod law;
mod number;
mod reading;
mod refute;
mod reply;
mod report;
mod run;
mod search;
#[cfg(test)]
mod tests;

pub use command::{Command, Format, MOST_STEPS, Wanted, read_words};
pub use law::one_outcome;
pub use reply::message;
pub use report::{ProofRefusal, ProofWhy, Report};
pub use run::run;

fn main(rt: HostRuntime) -> ExitCode {
    let Ok(words) = arguments::words(&rt, rt.alloc()) else {
        return ExitCode::from(run::OUT_OF_MEMORY);
    };
    let mut files = RealFiles::new(&rt);
    let mut out = StreamSink::new(rt.stdout());
    let mut errs = StreamSink::new(rt.stderr());
    ExitCode::from(run::run::<AnyWorld, _, _, _>(
        rt.alloc(),
        words.as_slice(),
        &mut files,
        &mut out,
        &mut errs,
    ))
}
