//! The kernel: its records, its lists over links, and its services, which are made one micro-step at a time.
//!
//! A whole step is a call of a task, a post or a unit of the tick task or the timer task. What it comes to is decided when it
//! begins; each micro-step changes one link of one list, and the last one makes in the records what was decided. The kernel owns
//! the step in hand: what stands of it in the lists is never apart from the kernel on which it was begun.
#![tactic(auto)]

mod concluding;
mod kernels;
mod making;
mod planning;
mod seen;
mod starting;
mod stepping;
mod ticking;
mod work;

pub use kernels::Kernel;
pub use stepping::Progress;
pub use work::Work;
