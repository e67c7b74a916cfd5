//! Least finite countermodels: one with the fewest elements, or that there is none with so few. Each
//! size is a problem for a solver of clauses, to which instances of the forms are given as they are
//! needed.
#![tactic(auto)]

mod choices;
mod elements;
mod find;
mod formed;
mod found;
mod goal;
mod instance;
mod key;
mod near;
mod one_size;
mod options;
mod order;
mod places;
mod read_off;
mod rule;
mod sheet;
mod violated;

pub use find::{MOST_SOUGHT, find_model};
