//! Message queues and the pool of messages: what a call on a queue comes to, and how its messages change.
#![tactic(auto)]

mod pool;
mod queues;

pub use pool::MsgPool;
pub use queues::MsgQueue;

#[cfg(test)]
mod tests;
