//! Scripts against tasks: which of them are accepted as a proof, and where the others are refused.
#![tactic(auto)]

mod args;
mod checker;
mod compare;
mod fact;
mod finish;
mod halt;
mod labels;
mod law;
mod open_node;
mod refusal;
mod script_check;
mod step;
mod trail;

pub use law::{
    accepted_bodies_are_as_large, accepted_scripts_are_open, faults_are_not_accepted,
    nodes_or_one_open_fault, scripts_have_one_body, scripts_have_one_fault,
};
pub use open_node::OpenNode;
pub use refusal::{CheckRefusal, Rule, StepRefusal, Why};
pub use script_check::{check_open, check_script};
