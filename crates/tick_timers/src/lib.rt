//! Ticks and timers: the tick counter with the tasks that wait for a tick, and the timer count with the
//! timers that run. A timer itself is held by its object.
//!
//! Both are wheels: 64 lists, one for each remainder of the count at which a match is due, each in the
//! order in which its matches were given. So a count looks at one list alone, and a match is looked at
//! once in 64 counts, however many wait.
#![tactic(auto)]

mod delays;
mod giving;
mod timer_table;
mod timers;
mod wheels;

pub use delays::{Ticks, decide_resume, is_delayed};
pub use timer_table::Timers;
pub use timers::{Timer, TimerState};
pub use wheels::Match;

#[cfg(test)]
mod tests;
