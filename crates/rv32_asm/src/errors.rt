// Why a text is not assembled.

use asm_causes::AsmCause;
use thiserror::Error;

/// Why a text was not assembled.
#[derive(Debug, Drop, Error)]
pub enum AsmError {
    /// There was no memory for what the text gives.
    #[error("out of memory")]
    NoMemory,
    /// The line, from 1, of the first cause, and the cause.
    #[error("line {0}: {1:?}")]
    At(u32, AsmCause),
}
