//! Items of the TPTP's first-order form, read from tokens.
#![tactic(auto)]

mod annotation_steps;
mod atom_reader;
mod counted;
mod formula_reader;
mod formula_steps;
mod item_part;
mod item_reader;
mod item_steps;
mod items;
mod law;
mod limit;
mod mark;
mod marks;
mod printed_form;
mod refusal;
mod role;
mod scopes;

pub use item_part::ItemPart;
pub use items::read_items;
pub use law::{
    items_are_one, items_or_refusal, never_items_and_refusal, printed_agrees, refusals_are_one,
};
pub use limit::Limit;
pub use mark::Mark;
pub use printed_form::PrintedForm;
pub use refusal::SyntaxRefusal;
pub use scopes::{Binding, Scopes};
