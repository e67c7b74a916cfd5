//! Finite structures against problems: whether a structure is a countermodel, which excludes proofs
//! of every size.
#![tactic(auto)]

mod confirm;
mod connective;
mod finite_world;
mod law;
mod lookup;
mod refusal;
mod sought;
mod truth;
mod values;

pub use confirm::confirm_model;
pub use finite_world::FiniteWorld;
pub use law::countermodels_exclude_proofs;
pub use model_text::{Fact, MOST_ELEMENTS, Model, ModelRefusal, Place, read_model, write_model};
pub use refusal::ConfirmRefusal;
