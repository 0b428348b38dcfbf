//! The links of a whole step, one after another, out of the records of tasks as they were when it began.
//!
//! A plan is small: what the call comes to, the tasks that it wakes or the objects for which the caller is to wait, and how far
//! its links are made. Contracts see the list of the links that are left.
#![tactic(auto)]

mod laws;
mod moves;
mod plan;
mod renewal_plan;
mod standings;

pub use laws::{
    a_block_fits, a_block_is_its_blocks, a_block_keeps_nodes, a_block_tells, a_waiter_can_wake,
    calls_renew, links_keep_past, links_keep_priorities, links_lead, matching_are_blocks,
    matching_are_wakes, matching_fit, matching_keep, moves_are_written, renewals_follow,
    renewals_hold, wakes_are_blocks, wakes_fit, wakes_keep_nodes, wakes_tell,
};
pub use moves::{Move, Moves, Standing};
pub use plan::Plan;
pub use renewal_plan::RenewalPlan;
