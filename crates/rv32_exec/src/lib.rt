// One instruction of RV32IM on registers and RAM (RISC-V Unprivileged ISA, RV32I and the extension M).
#![tactic(auto)]

mod laws;
mod memory;
mod programs;
mod registers;
mod running;
#[cfg(test)]
mod tests;
mod words;

pub use laws::{
    a_store_changes_its_own_bytes, an_instruction_changes_what_it_tells, an_instruction_keeps_words,
};
pub use memory::{NoMemory, Ram};
pub use programs::Program;
pub use registers::Regs;
pub use running::step;

/// Why an instruction trapped.
#[derive(Clone, Copy, PartialEq, Eq)]
pub enum TrapKind {
    /// The word is no instruction.
    Illegal,
    /// An EBREAK.
    Break,
    /// A jump or a taken branch to an address that is not a multiple of 4.
    Jump,
    /// pc is not the address of a code word.
    Fetch,
    /// A load from an address that is not a multiple of its width, or not wholly in RAM.
    Load,
    /// A store to such an address.
    Store,
}

/// What came of one instruction.
#[derive(Clone, Copy, PartialEq, Eq)]
pub enum Stepped {
    /// The instruction is done.
    Next,
    /// An ECALL; pc stands after it.
    Call,
    /// The instruction trapped, which changes nothing: the cause, and the address of the instruction.
    Trap(TrapKind, u32),
    /// A store is done.
    Stored {
        /// The address of its first byte.
        addr: u32,
        /// The number of its bytes, 1, 2 or 4.
        width: u8,
        /// What was stored, below 2 to the power of 8 times the width.
        value: u32,
    },
}
