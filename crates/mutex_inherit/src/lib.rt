//! Mutual exclusion semaphores, and the priorities that tasks inherit through them.
#![tactic(auto)]

mod chains;
mod mutexes;

pub use chains::inherited;
pub use mutexes::Mutex;

#[cfg(test)]
mod tests;
