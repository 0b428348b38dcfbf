//! The top call of the program: it takes the words, a source and a sink, and answers a status.
#![tactic(auto)]

mod both;
mod case;
mod causes;
mod counting;
mod disassembly;
mod ends;
mod history;
mod listing;
mod machines;
mod pieces;
mod reading;
mod soak;
mod text;
mod top;
mod words;

pub use causes::CaseError;
pub use ends::every_run_comes_to_its_end;
pub use listing::write_listing;
pub use program_model::{CaseCause, CaseCommand, Command, Status};
pub use top::ucos_main;
pub use words::command_of;

/// The longest input that is read, in bytes.
pub const INPUT_LIMIT: usize = 4_194_304;

/// The most task steps that a run may be asked for.
pub const COUNT_LIMIT: u32 = 1_000_000;

/// The most lines of interrupts that a generated case may be asked for.
pub const SIZE_LIMIT: u32 = 16_384;
