//! A context of a proof that is kept in place: what a step or a case adds is taken back to a point,
//! and no memory is taken on the way.
#![tactic(auto)]

mod case;
mod fact;
mod kept;
mod limits;
mod line;
mod room;

pub use kept::{KeptContext, Point};
pub use limits::{MOST_ELEMENTS, MOST_LINES};
