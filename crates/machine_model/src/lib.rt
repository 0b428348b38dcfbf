//! The machine's events, and its definitions: tasks, the kernel and memory, interrupt code, and what
//! happens next by either way in which interrupt code posts.
#![tactic(auto)]

mod events;

pub use events::{Event, How, What};
