//! What the program tells on the standard error: how its words are used, what the cause of a refusal means, and
//! why a command ended early.
#![tactic(auto)]

mod endings;
mod keeping;
mod meanings;
mod refusals;
mod telling;

pub use keeping::{KEPT, KeepingSink};
pub use refusals::every_cause_has_a_meaning;
pub use telling::tell;

#[cfg(test)]
mod tests;
