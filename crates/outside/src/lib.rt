//! What the program meets outside: a source that is read and a sink that is written, each with a
//! count of its faults; over memory for tests, and over the streams of std.
#![tactic(auto)]

mod memory;
mod streams;
mod traits;

pub use memory::{MemSink, MemSource, NoMemory};
pub use streams::{StdSink, StdSource};
pub use traits::{Failed, Sink, Source};

#[cfg(test)]
mod tests;
