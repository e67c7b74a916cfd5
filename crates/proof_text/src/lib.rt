//! Proof texts of both versions: their grammar, and the scripts that they spell.
#![tactic(auto)]

mod body;
mod body_steps;
mod builder;
mod cite_steps;
mod fixed;
mod given;
mod law;
mod limits;
mod line_steps;
mod line_text;
mod mark;
mod part;
mod printed;
mod proof_script;
mod reader;
mod refusal;
mod script;
mod step;
mod step_text;
mod store;
mod watch;
mod wording;
mod writer;

pub use body::{ArgsText, Binding, BodyText, CaseText, EndText, MpText, NamedAtom, Shown};
pub use builder::{Frame, ScriptBuilder};
pub use coherent_form::{Citation, Label, Symbol};
pub use fixed::Fixed;
pub use given::facts_at;
pub use law::{
    never_script_and_refusal, proof_scripts_stand, refusals_are_one, script_or_refusal,
    scripts_are_one, scripts_are_proper,
};
pub use limits::MOST_WITHIN;
pub use line_text::{put_facts, put_line, put_number, put_words};
pub use mark::{Integer, Mark, Token};
pub use part::{Act, Counting, Edition, Naming, Pass, Rule, Taker, TextPart};
pub use printed::{element_names, named_facts, named_line};
pub use proof_script::{case_facts, parameters_of, script_of, second_of, start_context};
pub use reader::read_script;
pub use refusal::ScriptRefusal;
pub use script::Script;
pub use step::{Addition, take_step};
pub use step_text::{put_cite, put_indent};
pub use store::number_in;
pub use watch::{Limit, Tally};
pub use wording::Wording;
pub use writer::write_script;
