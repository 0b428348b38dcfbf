// Why the lines behind `.inject` are refused.

use thiserror::Error;

/// Why a line of injections is refused, in the order of the causes' numbers, from 1. The first line with
/// a cause decides, and on it the least number.
#[derive(Clone, Copy, Debug, PartialEq, Eq)]
pub enum InjectCause {
    /// The line has none of the forms `task T, VECTOR`, `step S, VECTOR` and `look S, WHAT`.
    WrongForm,
    /// A vector that is not declared.
    NoVector,
    /// More than four words.
    TooManyWords,
    /// The 16,385th line of injections and looks.
    TooMany,
    /// A look at a name that is no semaphore, queue, event flag group or mutex, or at a priority above 63.
    NoList,
    /// A moment above 1,000,000 task steps.
    LateMoment,
}

/// Why a list of injections was not read.
#[derive(Debug, Drop, Error)]
pub enum InjectError {
    /// Memory was wanted and was not there.
    #[error("no memory for the injections")]
    NoMemory,
    /// The line, from 1, and its cause.
    #[error("line {0} of the injections is refused")]
    At(u32, InjectCause),
}
