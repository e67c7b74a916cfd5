//! First-order formulas read as coherent forms, and problems as tasks.
#![tactic(auto)]

mod alternative;
mod alternatives;
mod atoms;
mod axiom_forms;
mod axioms;
mod build_law;
mod built_in_law;
mod built_ins;
mod citation;
mod counts;
mod forms;
mod head;
mod label;
mod law;
mod limits;
mod numbering;
mod occurrences;
mod printed_element;
mod problem_reading;
mod refusal;
mod rule;
mod scope;
mod source;
mod source_citation;
mod source_cited;
mod survey;
mod task;
mod task_law;
mod task_refusal;
mod variable_label;
mod variables;

pub use alternative::{Alternative, Head};
pub use build_law::one_task_or_refusal;
pub use built_in_law::built_ins_are_true;
pub use citation::{Citation, Symbol};
pub use forms::forms_of;
pub use label::Label;
pub use law::{reading_is_well_formed, reading_keeps_truth};
pub use limits::{MOST_CONSTANTS, MOST_START_ELEMENTS, MOST_SYMBOLS, TASK_FORMS_BELOW};
pub use refusal::FormRefusal;
pub use source::{BuiltIn, Source};
pub use task::Task;
pub use task_law::{
    forms_are_cited_once, labels_differ, printed_names_differ, proved_task_follows,
};
pub use task_refusal::{TaskRefusal, TaskWhy};
