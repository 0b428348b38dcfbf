// Why an executable is refused.

use thiserror::Error;

/// Why an executable is refused. The causes stand in their order; of several that hold, the first
/// decides.
#[derive(Clone, Copy, Debug, PartialEq, Eq)]
pub enum ElfCause {
    /// The header is not that of a 32-bit little-endian executable for RISC-V, its tables have entries
    /// of an unknown size, or it has fewer than 52 bytes.
    Header,
    /// A table, or the bytes of a segment or a section, end past the input.
    Range,
    /// A loaded segment has more bytes in the file than in memory, or lies neither wholly in the code
    /// nor wholly in RAM.
    Place,
    /// Two loaded segments hold one address.
    Overlap,
    /// A symbol table has entries of another size, a size that is no multiple of theirs, or no strings;
    /// or a name in it does not end in its strings.
    SymbolTable,
}

/// The refusal of an executable.
#[derive(Clone, Copy, Debug, PartialEq, Eq, Error)]
pub enum ElfError {
    /// Memory was wanted and was not there.
    #[error("no memory for the executable")]
    NoMemory,
    /// The first cause that holds.
    #[error("executable refused: {0:?}")]
    Bad(ElfCause),
}
