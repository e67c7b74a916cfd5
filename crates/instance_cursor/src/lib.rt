//! The instances of a form over the facts of a store, one after another: a cursor keeps its place
//! while facts are added and taken back.
#![tactic(auto)]

mod cursor;
mod fact;
mod origin;
mod room;
mod search;
mod space;
mod stage;

pub use cursor::Cursor;
pub use fact::{element_at, signed_number};
