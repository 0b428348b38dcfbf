//! Event flag groups: what a call on one comes to, and how its bits change.
#![tactic(auto)]

mod flags;

pub use flags::FlagGroup;

#[cfg(test)]
mod tests;
