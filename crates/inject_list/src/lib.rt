//! The recorded interrupts of a case and the looks at its lists: their types, and what the lines behind
//! `.inject` mean.
#![tactic(auto)]

mod causes;
mod entries;
mod forms;
mod lists;
mod reading;
mod words;

pub use causes::{InjectCause, InjectError};
pub use lists::{InjectList, Injection, Look, Moment, Seen};
pub use reading::read;

#[cfg(test)]
mod tests;
