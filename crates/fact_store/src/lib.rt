//! A store of facts that finds facts by their symbol and by equality, and takes back the newest
//! ones.
#![tactic(auto)]

mod chains;
mod entry;
mod store;
mod walk;

pub use store::Store;
