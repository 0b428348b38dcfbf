//! The machine: tasks, the units of internal tasks, callbacks of timers, the kernel, memory and interrupt code, which posts at
//! once or through a queue, and what happens next. One call of [`Machine::step`] is one event.
#![tactic(auto)]

mod answers;
mod frame_steps;
mod interrupts;
mod looks;
mod machine;
mod posts;
mod takes;
mod tasks;
mod units;

pub use frame_steps::{isr_step, isr_step_into};
pub use machine::Machine;
pub use machine_model::{Event, How, What};
