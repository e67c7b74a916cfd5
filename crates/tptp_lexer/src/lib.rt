//! The tokens of a text: those of the TPTP's first-order form, which every text that Hogbygone
//! reads is made of.
#![tactic(auto)]

mod byte;
mod comment;
mod cursor;
mod integer;
mod kind;
mod law;
mod lexer;
mod name;
mod numbered_tokens;
mod piece;
mod quote;
mod reader;
mod refusal;
mod sign;
mod token;
mod token_list;
mod writer;

pub use cursor::Cursor;
pub use integer::is_integer;
pub use kind::Kind;
pub use law::{
    never_tokens_and_refusal, one_first_refusal, one_list_of_tokens, tokens_in_order,
    tokens_or_refusal,
};
pub use lexer::tokens;
pub use numbered_tokens::NumberedTokens;
pub use reader::{Naming, NotRead, Reads};
pub use refusal::LexRefusal;
pub use token::Token;
pub use token_list::Tokens;
pub use writer::{put_file, put_name, put_word};
