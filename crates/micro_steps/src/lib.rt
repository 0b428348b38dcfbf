//! Whole steps of the kernel on its lists, one micro-step a call.
//!
//! A whole step is a list of blocks, and a block is a link: a task or a node joins or leaves one list. Each micro-step of a block
//! makes the link of one direction, sets the mark of a priority, or passes one waiter. Nothing is remembered between two of them
//! but the block in hand and how far it is. The lists as the step found them are kept beside the chains: a link that is made
//! notes the nodes whose successor it changes, and the end of the step mends these alone.
#![tactic(auto)]

mod chains;
mod link;
mod start;
mod steps;

pub use chains::Chains;
pub use link::{Cursor, Link, Stage};
pub use steps::Steps;
