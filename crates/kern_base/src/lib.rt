//! The words that every layer of the kernel shares: the numbers of tasks, objects and priorities, the
//! services with their numbers and names, the errors, and the records that calls pass on.
#![tactic(auto)]

mod checks;
mod errors;
mod kinds;
mod numbers;
mod outcomes;
mod requests;
mod services;

pub use checks::static_refusal;
pub use errors::OsErr;
pub use kinds::{Kind, Kinds, Method};
pub use numbers::{LEAVE, NoMemory, ObjId, Prio, TaskId};
pub use outcomes::{Answer, Around, Decision, Finished, Outcome, UnitEnd, Waiting, Who};
pub use requests::{Post, Request};
pub use services::Service;

#[cfg(test)]
mod tests;
