//! A task's own semaphore and message queue: what a call on them comes to, and how they change.
#![tactic(auto)]

mod boxes;

pub use boxes::TaskBox;

#[cfg(test)]
mod tests;
