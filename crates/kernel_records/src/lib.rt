//! Everything of the kernel but its lists: the records of tasks and objects, the matches of timeouts and of timers, the counters.
//! A call is decided here, and its last micro-step makes here what was decided, or what a unit of an internal task does; the
//! lists go their own way in between.
#![tactic(auto)]

mod changes;
mod concluding;
mod deciding;
mod laws;
mod objects;
mod records;
mod scheduler_calls;
mod starting;
mod suspension;
mod task_calls;
mod ticks;
mod timer_calls;
mod timer_units;

pub use laws::{a_decision_has_its_outcome, a_decision_is_concluded};
pub use records::Records;
pub use scheduler_calls::is_scheduler_call;
pub use suspension::moves_task;
pub use task_calls::is_task_call;
pub use ticks::is_tick;
pub use timer_calls::is_timer_call;
