//! Proofs as texts in a fragment of Isar, written and read.
#![tactic(auto)]

mod body_steps;
mod branch;
mod builder;
mod first_lines;
mod fixed;
mod form_text;
mod formula_text;
mod head_text;
mod hex;
mod law;
mod lexer;
mod line_steps;
mod mark;
mod name;
mod part;
mod proof_lines;
mod reader;
mod refusal;
mod steps;
mod token_list;
mod watch;
mod writer;

pub use builder::IsarBuilder;
pub use fixed::Fixed;
pub use law::{
    isar_refusals_are_one, isar_script_or_refusal, isar_scripts_are_one, isar_scripts_are_proper,
    names_are_written_once, never_isar_script_and_refusal, written_names_are_names,
};
pub use mark::{Mark, Token};
pub use part::{IsarPart, Rule, Taker};
pub use reader::read_isar;
pub use refusal::IsarRefusal;
pub use token_list::IsarTokens;
pub use watch::{Excess, RuleWords};
pub use writer::write_isar;
