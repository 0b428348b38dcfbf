//! The printed lines of a run and of a history, from its events.
#![tactic(auto)]

mod interrupts;
mod lines;
mod looks;
mod pieces;
mod tasks;
mod words;

pub use lines::{end_of_history, end_of_run, history_of, line_of};
