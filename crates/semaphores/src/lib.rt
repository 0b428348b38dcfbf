//! Counting semaphores: what a call on one comes to, and how its count changes.
#![tactic(auto)]

mod semaphores;

pub use semaphores::Sem;

#[cfg(test)]
mod tests;
