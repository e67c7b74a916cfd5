//! Proofs of the vernacular as trees of rule applications: what a context is, what each rule does
//! to it, what a proof is, and that what is proved is true.
#![tactic(auto)]

mod context;
mod law;
mod nodes;
mod proof;
mod tree;
mod tree_copy;

pub use context::{Context, Line};
pub use law::{
    barren_step_may_be_left_out, least_proof_has_no_barren_step, preorder_is_faithful,
    proof_carries_over, rules_keep_contexts, soundness, witnessed_step_carries_back,
};
pub use nodes::TreeRefusal;
pub use proof::Proof;
pub use tree::{Body, End, Mp, Node};
