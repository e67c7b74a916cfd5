//! The outside as two traits: files that are fetched by name, and sinks that take bytes. Each
//! counts its faults, so that a contract can say that an answer was caused by one. There are
//! implementations in memory, whose contents and faults are known, and adapters of the file system
//! and of a writer.
#![tactic(auto)]

mod count;
mod files;
mod memory_files;
mod memory_sink;
mod real_files;
mod sink;
mod stream_sink;
#[cfg(test)]
mod tests;

pub use files::{FetchFault, Files, fetch_whole};
pub use memory_files::MemoryFiles;
pub use memory_sink::MemorySink;
pub use real_files::RealFiles;
pub use sink::{Sink, SinkFault};
pub use stream_sink::StreamSink;
