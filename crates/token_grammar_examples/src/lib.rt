//! A worked grammar for the machine of `token_grammar`: expressions of numbers, signs, sums and
//! rows, with a watcher that stops at a count and at a level, and a builder that makes their
//! values.
#![tactic(auto)]

mod builder;
mod expression;
mod mark;
mod reader;
mod symbol;
mod watch;

pub use builder::ExpressionBuilder;
pub use expression::Expression;
pub use mark::Mark;
pub use reader::{expressions_have_one_value, read_expression};
pub use symbol::{Rule, Symbol, Taker};
pub use watch::{Count, Fault, MOST_LEVELS, MOST_PIECES};
