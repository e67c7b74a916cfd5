//! The English text of a proof.
#![tactic(auto)]

mod ends;
mod sentence;
mod steps;
mod writer;

pub use writer::write_english;
