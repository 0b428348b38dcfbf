//! The lists of tasks and of waiters, used over both kinds of links.
#![tactic(auto)]

#[cfg(test)]
mod pend_tests;
#[cfg(test)]
mod ready_tests;
#[cfg(test)]
mod tests;
