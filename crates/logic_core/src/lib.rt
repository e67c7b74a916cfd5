//! What every other crate of Hogbygone speaks of: lists and names, formulas and problems as the
//! TPTP writes them, coherent forms, and structures with what is true in them.
#![tactic(auto)]

mod form;
mod formula;
mod formula_copy;
mod problem;
mod world;

pub use form::{Atom, Form, Slot};
pub use formula::{Formula, Op, Term};
pub use problem::{Fof, Item, Items, Problem, Role};
pub use text_core::{Boxed, Bytes, List, Memory, Name};
pub use world::{AnyWorld, World};
