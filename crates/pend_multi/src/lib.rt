//! Waits for the first of several objects: what polls of them give, and the lists in which such a
//! waiter stands.
#![tactic(auto)]

mod polls;
mod results;
mod tables;
mod waits;

pub use polls::{Pollable, Taken, any_ready, poll_all};
pub use results::taken_result;
pub use tables::table_error;
pub use waits::{leave_others, wait_on};

#[cfg(test)]
mod tests;
