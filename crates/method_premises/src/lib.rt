//! The premises under which changing the posting method changes no task history, kept over the events of a run.
#![tactic(auto)]

mod watch;

pub use watch::Premises;
