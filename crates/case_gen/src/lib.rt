//! The text of a generated case: an application of three tasks, and random interrupts for a seed.
#![tactic(auto)]

mod draws;
mod generating;
mod lines;

pub use generating::generate;
