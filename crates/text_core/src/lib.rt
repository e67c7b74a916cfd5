//! What every other crate of Hogbygone stands on: lists and names, classes of bytes, limits, and
//! the answer for want of memory.
#![tactic(auto)]

mod byte;
mod limits;
mod list;
mod memory;
mod name;
mod name_bytes;

pub use byte::{
    are_digits, are_word_bytes, begins_with, is_digit, is_lower, is_lower_word, is_printable,
    is_upper, is_word,
};
pub use limits::{
    MOST_APPLICATIONS, MOST_ARGUMENTS, MOST_ATOMS, MOST_FILE_BYTES, MOST_FILES, MOST_FORM_ATOMS,
    MOST_FORM_VARIABLES, MOST_FORMS, MOST_FORMULA_FORMS, MOST_FORMULAS, MOST_LEVELS, MOST_PLACES,
    MOST_PROBLEM_BYTES, MOST_SPLITS,
};
pub use list::{Bytes, List};
pub use memory::Memory;
pub use name::Name;
pub use sqlite_items::Boxed;
