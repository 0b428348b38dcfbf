//! The looks that are still to come, by their moments: one that waits costs nothing, and the next is found at once.
#![tactic(auto)]

mod queue;
#[cfg(test)]
mod tests;

pub use queue::Looks;
