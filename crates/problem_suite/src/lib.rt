//! Texts of problems and proofs: made ones of any length, and those of worked examples.
#![tactic(auto)]

pub mod examples;
mod made;

pub use made::{MOST_IMPLICATIONS, made_problem, made_proof};
