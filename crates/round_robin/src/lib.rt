//! Round robin: the ready tasks of one priority take turns. At each tick the first of them spends from its quantum; where that is
//! used up and another is ready, the first goes to the tail. Nothing changes here: what a tick or a yield comes to is decided.
#![tactic(auto)]

mod turns;

pub use turns::{Front, Turn, decide_tick, decide_yield, front_of, round_robin_is_a_turn};

#[cfg(test)]
mod tests;
