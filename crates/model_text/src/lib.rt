//! Texts of finite structures: their grammar, and the structures that they spell.
#![tactic(auto)]

mod builder;
mod law;
mod limits;
mod mark;
mod number;
mod part;
mod reader;
mod refusal;
mod structure;
mod watch;
mod word_tokens;
mod writer;

pub use builder::ModelBuilder;
pub use law::{
    model_or_refusal, model_refusals_are_one, models_are_one, models_are_sound,
    never_model_and_refusal,
};
pub use limits::MOST_ELEMENTS;
pub use mark::Mark;
pub use part::{ModelPart, Rule, Taker};
pub use reader::read_model;
pub use refusal::ModelRefusal;
pub use structure::{Fact, Model, Place};
pub use watch::{Fault, Watch};
pub use word_tokens::WordTokens;
pub use writer::write_model;
