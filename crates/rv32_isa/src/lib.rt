// The RV32I and RV32M instructions of the RISC-V Unprivileged ISA manual: words to instructions and back, and mnemonics.
#![tactic(auto)]

mod decoding;
mod encoding;
mod fields;
mod mnemonics;
mod operands;
pub mod spellings;
#[cfg(test)]
mod tests;

pub use decoding::decode;
pub use encoding::encode;
pub use mnemonics::{
    AloneOp, BranchOp, ImmediateOp, RegisterOp, ShiftOp, StoreOp, UpperOp, jump_mnemonic,
};

/// An instruction of RV32I or RV32M (RISC-V Unprivileged ISA, "RV32/64G Instruction Set Listings").
///
/// Registers are 0 to 31. An immediate is the signed number that the word stands for: -2048 to 2047, for a
/// shift 0 to 31, for a branch an even number from -4096 to 4094, for JAL an even number from -1048576 to
/// 1048574. Of LUI and AUIPC it is the number in bits 31 to 12, 0 to 1048575.
#[derive(Clone, Copy, PartialEq, Eq)]
pub enum Instr {
    /// Load upper immediate.
    Lui { rd: u8, imm: i32 },
    /// Add upper immediate to pc.
    Auipc { rd: u8, imm: i32 },
    /// Jump and link.
    Jal { rd: u8, imm: i32 },
    /// Jump and link to a register.
    Jalr { rd: u8, rs1: u8, imm: i32 },
    /// Branch if equal.
    Beq { rs1: u8, rs2: u8, imm: i32 },
    /// Branch if not equal.
    Bne { rs1: u8, rs2: u8, imm: i32 },
    /// Branch if less, signed.
    Blt { rs1: u8, rs2: u8, imm: i32 },
    /// Branch if greater or equal, signed.
    Bge { rs1: u8, rs2: u8, imm: i32 },
    /// Branch if less, unsigned.
    Bltu { rs1: u8, rs2: u8, imm: i32 },
    /// Branch if greater or equal, unsigned.
    Bgeu { rs1: u8, rs2: u8, imm: i32 },
    /// Load a byte, sign-extended.
    Lb { rd: u8, rs1: u8, imm: i32 },
    /// Load a halfword, sign-extended.
    Lh { rd: u8, rs1: u8, imm: i32 },
    /// Load a word.
    Lw { rd: u8, rs1: u8, imm: i32 },
    /// Load a byte, zero-extended.
    Lbu { rd: u8, rs1: u8, imm: i32 },
    /// Load a halfword, zero-extended.
    Lhu { rd: u8, rs1: u8, imm: i32 },
    /// Store a byte.
    Sb { rs1: u8, rs2: u8, imm: i32 },
    /// Store a halfword.
    Sh { rs1: u8, rs2: u8, imm: i32 },
    /// Store a word.
    Sw { rs1: u8, rs2: u8, imm: i32 },
    /// Add immediate.
    Addi { rd: u8, rs1: u8, imm: i32 },
    /// Set if less than immediate, signed.
    Slti { rd: u8, rs1: u8, imm: i32 },
    /// Set if less than immediate, unsigned.
    Sltiu { rd: u8, rs1: u8, imm: i32 },
    /// Exclusive or with immediate.
    Xori { rd: u8, rs1: u8, imm: i32 },
    /// Or with immediate.
    Ori { rd: u8, rs1: u8, imm: i32 },
    /// And with immediate.
    Andi { rd: u8, rs1: u8, imm: i32 },
    /// Shift left by immediate.
    Slli { rd: u8, rs1: u8, imm: i32 },
    /// Shift right by immediate, filling with zeros.
    Srli { rd: u8, rs1: u8, imm: i32 },
    /// Shift right by immediate, copying the sign.
    Srai { rd: u8, rs1: u8, imm: i32 },
    /// Add.
    Add { rd: u8, rs1: u8, rs2: u8 },
    /// Subtract.
    Sub { rd: u8, rs1: u8, rs2: u8 },
    /// Shift left.
    Sll { rd: u8, rs1: u8, rs2: u8 },
    /// Set if less than, signed.
    Slt { rd: u8, rs1: u8, rs2: u8 },
    /// Set if less than, unsigned.
    Sltu { rd: u8, rs1: u8, rs2: u8 },
    /// Exclusive or.
    Xor { rd: u8, rs1: u8, rs2: u8 },
    /// Shift right, filling with zeros.
    Srl { rd: u8, rs1: u8, rs2: u8 },
    /// Shift right, copying the sign.
    Sra { rd: u8, rs1: u8, rs2: u8 },
    /// Or.
    Or { rd: u8, rs1: u8, rs2: u8 },
    /// And.
    And { rd: u8, rs1: u8, rs2: u8 },
    /// Order memory accesses; any bits in its fields.
    Fence { rd: u8, rs1: u8, imm: i32 },
    /// Call the environment.
    Ecall,
    /// Break to a debugger.
    Ebreak,
    /// Low word of the product.
    Mul { rd: u8, rs1: u8, rs2: u8 },
    /// High word of the product, signed.
    Mulh { rd: u8, rs1: u8, rs2: u8 },
    /// High word of the product, signed by unsigned.
    Mulhsu { rd: u8, rs1: u8, rs2: u8 },
    /// High word of the product, unsigned.
    Mulhu { rd: u8, rs1: u8, rs2: u8 },
    /// Quotient, signed.
    Div { rd: u8, rs1: u8, rs2: u8 },
    /// Quotient, unsigned.
    Divu { rd: u8, rs1: u8, rs2: u8 },
    /// Remainder, signed.
    Rem { rd: u8, rs1: u8, rs2: u8 },
    /// Remainder, unsigned.
    Remu { rd: u8, rs1: u8, rs2: u8 },
}
