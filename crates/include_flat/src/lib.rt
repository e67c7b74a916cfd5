//! Problems with the files that they include, as one list of formulas.
#![tactic(auto)]

mod law;
mod reading;
mod refusal;
mod selected;
mod walk;
mod walked;

pub use law::{flat_or_decided, never_flat_and_refused, one_deciding_refusal, one_flat_problem};
pub use refusal::{FlatRefusal, FlatWhy};
pub use walk::flatten;
