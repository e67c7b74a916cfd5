//! The numbers of predicate symbols and of constants, in order of first occurrence.
#![tactic(auto)]

pub mod names;
mod tables;

pub use tables::Tables;
