//! The queue of posts that wait for the handler: first in, first out.
#![tactic(auto)]

mod queue;
#[cfg(test)]
mod tests;

pub use queue::{DeferredQueue, Full};
