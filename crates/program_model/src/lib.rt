//! The program's definitions: the words and the commands that they are, the case that an input is, the generated
//! case, the listing, and the defined answer of each command.
#![tactic(auto)]

mod causes;
mod commands;
mod statuses;

pub use causes::CaseCause;
pub use commands::{CaseCommand, Command};
pub use statuses::Status;
