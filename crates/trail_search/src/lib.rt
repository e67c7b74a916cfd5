//! A search for a proof with the fewest rule applications from a context, exactly and in place.
#![tactic(auto)]

mod answers;
mod close;
mod done;
mod entry;
mod find;
mod found;
mod law;
mod look;
mod outline;
mod plan;
mod replay;
mod scene;
mod search;
mod searcher;
mod start;

pub use law::least_is_one;
pub use searcher::Searcher;
pub use start::start_context;
