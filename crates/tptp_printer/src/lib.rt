//! The canonical text of problems in the TPTP's first-order form.
#![tactic(auto)]

mod formula;
mod item;
mod print;
mod term;

pub use print::{print_item, print_problem};
