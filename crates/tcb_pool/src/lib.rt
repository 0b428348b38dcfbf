//! The records of the 64 tasks: their priorities, what they wait for, their registers, and the result
//! that waits for them.
#![tactic(auto)]

mod answers;
mod records;
mod tables;

pub use kern_base::{Finished, Waiting};
pub use records::Tcb;
pub use tables::{Tcbs, is_ready};
