// The form of an instruction's line.

ghost use Rattle.std.specs.Prelude.{◌≡◌};
ghost use Rattle.rv32_listing.specs.Forms.{fence_form, form_of};

use rv32_isa::{AloneOp, BranchOp, ImmediateOp, Instr, RegisterOp, ShiftOp, StoreOp, UpperOp};

/// An instruction by the form of its line: what of the assembler's table it begins with, and its operands.
#[derive(Clone, Copy)]
pub enum Form {
    /// `rd, rs1, rs2`
    Registers(RegisterOp, u8, u8, u8),
    /// `rd, rs1, constant`
    Immediate(ImmediateOp, u8, u8, i32),
    /// `rd, constant(rs1)`
    Load(ImmediateOp, u8, u8, i32),
    /// `rd, rs1, constant`
    Shift(ShiftOp, u8, u8, i32),
    /// `rs2, constant(rs1)`, with rs1 first here
    Store(StoreOp, u8, u8, i32),
    /// `rs1, rs2, label`, with the distance here
    Branch(BranchOp, u8, u8, i32),
    /// `rd, constant`
    Upper(UpperOp, u8, i32),
    /// `rd, label`, with the distance here
    Jump(u8, i32),
    /// nothing
    Alone(AloneOp),
    /// The assembler has no line for it.
    Unwritten,
}

// Of the FENCE instructions, the one whose word `fence` gives.
fn fence_form(word: u32) -> Form
    ensures { result ≡ fence_form word }
{
    if word == 0x0ff0_000f {
        Form::Alone(AloneOp::Fence)
    } else {
        Form::Unwritten
    }
}

/// The form of the instruction that a word is.
pub fn form_of(word: u32, instr: Instr) -> Form
    ensures { result ≡ form_of word instr }
{
    match instr {
        Instr::Lui { rd, imm } => Form::Upper(UpperOp::Lui, rd, imm),
        Instr::Auipc { rd, imm } => Form::Upper(UpperOp::Auipc, rd, imm),
        Instr::Jal { rd, imm } => Form::Jump(rd, imm),
        Instr::Jalr { rd, rs1, imm } => Form::Load(ImmediateOp::Jalr, rd, rs1, imm),
        Instr::Beq { rs1, rs2, imm } => Form::Branch(BranchOp::Beq, rs1, rs2, imm),
        Instr::Bne { rs1, rs2, imm } => Form::Branch(BranchOp::Bne, rs1, rs2, imm),
        Instr::Blt { rs1, rs2, imm } => Form::Branch(BranchOp::Blt, rs1, rs2, imm),
        Instr::Bge { rs1, rs2, imm } => Form::Branch(BranchOp::Bge, rs1, rs2, imm),
        Instr::Bltu { rs1, rs2, imm } => Form::Branch(BranchOp::Bltu, rs1, rs2, imm),
        Instr::Bgeu { rs1, rs2, imm } => Form::Branch(BranchOp::Bgeu, rs1, rs2, imm),
        Instr::Lb { rd, rs1, imm } => Form::Load(ImmediateOp::Lb, rd, rs1, imm),
        Instr::Lh { rd, rs1, imm } => Form::Load(ImmediateOp::Lh, rd, rs1, imm),
        Instr::Lw { rd, rs1, imm } => Form::Load(ImmediateOp::Lw, rd, rs1, imm),
        Instr::Lbu { rd, rs1, imm } => Form::Load(ImmediateOp::Lbu, rd, rs1, imm),
        Instr::Lhu { rd, rs1, imm } => Form::Load(ImmediateOp::Lhu, rd, rs1, imm),
        Instr::Sb { rs1, rs2, imm } => Form::Store(StoreOp::Sb, rs1, rs2, imm),
        Instr::Sh { rs1, rs2, imm } => Form::Store(StoreOp::Sh, rs1, rs2, imm),
        Instr::Sw { rs1, rs2, imm } => Form::Store(StoreOp::Sw, rs1, rs2, imm),
        Instr::Addi { rd, rs1, imm } => Form::Immediate(ImmediateOp::Addi, rd, rs1, imm),
        Instr::Slti { rd, rs1, imm } => Form::Immediate(ImmediateOp::Slti, rd, rs1, imm),
        Instr::Sltiu { rd, rs1, imm } => Form::Immediate(ImmediateOp::Sltiu, rd, rs1, imm),
        Instr::Xori { rd, rs1, imm } => Form::Immediate(ImmediateOp::Xori, rd, rs1, imm),
        Instr::Ori { rd, rs1, imm } => Form::Immediate(ImmediateOp::Ori, rd, rs1, imm),
        Instr::Andi { rd, rs1, imm } => Form::Immediate(ImmediateOp::Andi, rd, rs1, imm),
        Instr::Slli { rd, rs1, imm } => Form::Shift(ShiftOp::Slli, rd, rs1, imm),
        Instr::Srli { rd, rs1, imm } => Form::Shift(ShiftOp::Srli, rd, rs1, imm),
        Instr::Srai { rd, rs1, imm } => Form::Shift(ShiftOp::Srai, rd, rs1, imm),
        Instr::Add { rd, rs1, rs2 } => Form::Registers(RegisterOp::Add, rd, rs1, rs2),
        Instr::Sub { rd, rs1, rs2 } => Form::Registers(RegisterOp::Sub, rd, rs1, rs2),
        Instr::Sll { rd, rs1, rs2 } => Form::Registers(RegisterOp::Sll, rd, rs1, rs2),
        Instr::Slt { rd, rs1, rs2 } => Form::Registers(RegisterOp::Slt, rd, rs1, rs2),
        Instr::Sltu { rd, rs1, rs2 } => Form::Registers(RegisterOp::Sltu, rd, rs1, rs2),
        Instr::Xor { rd, rs1, rs2 } => Form::Registers(RegisterOp::Xor, rd, rs1, rs2),
        Instr::Srl { rd, rs1, rs2 } => Form::Registers(RegisterOp::Srl, rd, rs1, rs2),
        Instr::Sra { rd, rs1, rs2 } => Form::Registers(RegisterOp::Sra, rd, rs1, rs2),
        Instr::Or { rd, rs1, rs2 } => Form::Registers(RegisterOp::Or, rd, rs1, rs2),
        Instr::And { rd, rs1, rs2 } => Form::Registers(RegisterOp::And, rd, rs1, rs2),
        Instr::Fence { .. } => fence_form(word),
        Instr::Ecall => Form::Alone(AloneOp::Ecall),
        Instr::Ebreak => Form::Alone(AloneOp::Ebreak),
        Instr::Mul { rd, rs1, rs2 } => Form::Registers(RegisterOp::Mul, rd, rs1, rs2),
        Instr::Mulh { rd, rs1, rs2 } => Form::Registers(RegisterOp::Mulh, rd, rs1, rs2),
        Instr::Mulhsu { rd, rs1, rs2 } => Form::Registers(RegisterOp::Mulhsu, rd, rs1, rs2),
        Instr::Mulhu { rd, rs1, rs2 } => Form::Registers(RegisterOp::Mulhu, rd, rs1, rs2),
        Instr::Div { rd, rs1, rs2 } => Form::Registers(RegisterOp::Div, rd, rs1, rs2),
        Instr::Divu { rd, rs1, rs2 } => Form::Registers(RegisterOp::Divu, rd, rs1, rs2),
        Instr::Rem { rd, rs1, rs2 } => Form::Registers(RegisterOp::Rem, rd, rs1, rs2),
        Instr::Remu { rd, rs1, rs2 } => Form::Registers(RegisterOp::Remu, rd, rs1, rs2),
    }
}
