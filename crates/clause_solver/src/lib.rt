//! A solver for clauses that learns a clause from each conflict. That no values suit is proved; the
//! values that it tells are for the caller to confirm.
#![tactic(auto)]

mod analysis;
mod literal;
mod order;
mod pace;
mod propagation;
mod ranks;
mod reduction;
mod search;
mod solver;
mod steps;
mod store;
mod table;
mod trail;
mod watches;
mod working;

pub use literal::Literal;
pub use solver::{Answer, MOST_VARIABLES, Solver};
