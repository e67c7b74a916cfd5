//! Plans of proofs: what every proof of some size has to do, as constraints on applications that are
//! not known yet.
#![tactic(auto)]

mod apply;
mod barren;
mod choice;
mod collect;
mod draft;
mod fact_set;
mod finish;
mod idle;
mod item;
mod joining;
mod label_table;
mod landmarks;
mod open;
mod pick;
mod place;
mod planner;
mod reach;
mod scene;
mod search;
mod settle;
mod sign_table;
mod useless;
mod word;

pub use choice::Choice;
pub use draft::{Draft, GoalOf, ListOf, Mark, Node, Pair, PlanGoal, PlanStep, PlanTie};
pub use fact_set::FactSet;
pub use finish::Span;
pub use joining::Joined;
pub use open::Open;
pub use place::{Deeper, Next, Place};
pub use planner::{Element, Planner, Verdict};
pub use reach::{Reached, Told};
pub use scene::{Read, Scene};
pub use settle::Settled;
