//! The assembler: the code, the RAM and the declarations that a case text gives.
#![tactic(auto)]

mod assembling;
mod declaring;
mod draft;
mod errors;
mod instructions;

pub use asm_causes::AsmCause;
pub use assembling::assemble;
pub use declaring::declare;
pub use errors::AsmError;
