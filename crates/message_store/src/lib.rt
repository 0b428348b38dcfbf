//! All messages of the kernel: the pool, the queues of the declared objects, and the own semaphore and
//! queue of each task. Those above see plain lists of messages, and never the keys under which the pool
//! has them.
#![tactic(auto)]

mod starting;
mod stores;

pub use stores::MessageStore;

#[cfg(test)]
mod tests;
