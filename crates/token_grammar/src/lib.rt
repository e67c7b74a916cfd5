//! Grammars over tokens, and one machine that reads a text of any of them.
//!
//! A grammar is given as data: which tokens a part takes, and which rows of parts it may stand for.
//! The machine looks at one token at a time, keeps one stack, and refuses at exactly the first
//! token with which the tokens begin no text.
#![tactic(auto)]

mod builder;
mod factored;
mod law;
mod machine;
mod nothing;
mod part;
mod refusal;
mod source;
mod stack;

pub use builder::Builder;
pub use factored::Factored;
pub use law::{
    answers_agree, factored_agrees, fronts_begin, seen_is_told, takers_agree, texts_are_taken,
    texts_have_one_value, tokens_have_answers,
};
pub use machine::{build, recognize};
pub use nothing::Nothing;
pub use part::{Part, Step, expand};
pub use refusal::Refusal;
pub use source::Source;
pub use stack::Stack;
