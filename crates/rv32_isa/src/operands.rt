// The registers that an instruction reads and writes.

ghost use Rattle.std.specs.Prelude.{◌≡◌, ◌||◌, ℕ, Bool, false};
ghost use Rattle.std.specs.List.{list_any};
ghost use Rattle.rv32_isa.specs.Operands.{reads, writes};

use crate::Instr;

impl Instr {
    /// The register that the instruction writes; 0 where it writes none.
    pub fn target(&self) -> u8
        ensures { result ≡ writes self.now }
    {
        match *self {
            Instr::Beq { .. }
            | Instr::Bne { .. }
            | Instr::Blt { .. }
            | Instr::Bge { .. }
            | Instr::Bltu { .. }
            | Instr::Bgeu { .. }
            | Instr::Sb { .. }
            | Instr::Sh { .. }
            | Instr::Sw { .. }
            | Instr::Fence { .. }
            | Instr::Ecall
            | Instr::Ebreak => 0,
            Instr::Lui { rd, .. }
            | Instr::Auipc { rd, .. }
            | Instr::Jal { rd, .. }
            | Instr::Jalr { rd, .. }
            | Instr::Lb { rd, .. }
            | Instr::Lh { rd, .. }
            | Instr::Lw { rd, .. }
            | Instr::Lbu { rd, .. }
            | Instr::Lhu { rd, .. }
            | Instr::Addi { rd, .. }
            | Instr::Slti { rd, .. }
            | Instr::Sltiu { rd, .. }
            | Instr::Xori { rd, .. }
            | Instr::Ori { rd, .. }
            | Instr::Andi { rd, .. }
            | Instr::Slli { rd, .. }
            | Instr::Srli { rd, .. }
            | Instr::Srai { rd, .. }
            | Instr::Add { rd, .. }
            | Instr::Sub { rd, .. }
            | Instr::Sll { rd, .. }
            | Instr::Slt { rd, .. }
            | Instr::Sltu { rd, .. }
            | Instr::Xor { rd, .. }
            | Instr::Srl { rd, .. }
            | Instr::Sra { rd, .. }
            | Instr::Or { rd, .. }
            | Instr::And { rd, .. }
            | Instr::Mul { rd, .. }
            | Instr::Mulh { rd, .. }
            | Instr::Mulhsu { rd, .. }
            | Instr::Mulhu { rd, .. }
            | Instr::Div { rd, .. }
            | Instr::Divu { rd, .. }
            | Instr::Rem { rd, .. }
            | Instr::Remu { rd, .. } => rd,
        }
    }

    /// The registers that the instruction reads; 0 in the place of one that it does not. Of ECALL none: what a
    /// call reads is its environment's matter.
    pub fn sources(&self) -> (u8, u8)
        ensures { (p : ℕ → Bool) → p 0 ≡ false → list_any p (reads self.now) ≡ (p result.0 || p result.1) }
    {
        match *self {
            Instr::Lui { .. }
            | Instr::Auipc { .. }
            | Instr::Jal { .. }
            | Instr::Fence { .. }
            | Instr::Ecall
            | Instr::Ebreak => (0, 0),
            Instr::Jalr { rs1, .. }
            | Instr::Lb { rs1, .. }
            | Instr::Lh { rs1, .. }
            | Instr::Lw { rs1, .. }
            | Instr::Lbu { rs1, .. }
            | Instr::Lhu { rs1, .. }
            | Instr::Addi { rs1, .. }
            | Instr::Slti { rs1, .. }
            | Instr::Sltiu { rs1, .. }
            | Instr::Xori { rs1, .. }
            | Instr::Ori { rs1, .. }
            | Instr::Andi { rs1, .. }
            | Instr::Slli { rs1, .. }
            | Instr::Srli { rs1, .. }
            | Instr::Srai { rs1, .. } => (rs1, 0),
            Instr::Beq { rs1, rs2, .. }
            | Instr::Bne { rs1, rs2, .. }
            | Instr::Blt { rs1, rs2, .. }
            | Instr::Bge { rs1, rs2, .. }
            | Instr::Bltu { rs1, rs2, .. }
            | Instr::Bgeu { rs1, rs2, .. }
            | Instr::Sb { rs1, rs2, .. }
            | Instr::Sh { rs1, rs2, .. }
            | Instr::Sw { rs1, rs2, .. }
            | Instr::Add { rs1, rs2, .. }
            | Instr::Sub { rs1, rs2, .. }
            | Instr::Sll { rs1, rs2, .. }
            | Instr::Slt { rs1, rs2, .. }
            | Instr::Sltu { rs1, rs2, .. }
            | Instr::Xor { rs1, rs2, .. }
            | Instr::Srl { rs1, rs2, .. }
            | Instr::Sra { rs1, rs2, .. }
            | Instr::Or { rs1, rs2, .. }
            | Instr::And { rs1, rs2, .. }
            | Instr::Mul { rs1, rs2, .. }
            | Instr::Mulh { rs1, rs2, .. }
            | Instr::Mulhsu { rs1, rs2, .. }
            | Instr::Mulhu { rs1, rs2, .. }
            | Instr::Div { rs1, rs2, .. }
            | Instr::Divu { rs1, rs2, .. }
            | Instr::Rem { rs1, rs2, .. }
            | Instr::Remu { rs1, rs2, .. } => (rs1, rs2),
        }
    }
}
