// The mnemonics of the instructions, by the operands that they take.

ghost use Rattle.std.specs.Prelude.{◌≡◌};
ghost use Rattle.rv32_isa.specs.Mnemonics.{alone_mnemonic, branch_mnemonic, immediate_mnemonic, jump_mnemonic, register_mnemonic, shift_mnemonic, store_mnemonic, upper_mnemonic};

use crate::spellings;

/// An instruction on three registers (RISC-V Unprivileged ISA, formats of the RV32/64G listing: R).
#[derive(Clone, Copy)]
pub enum RegisterOp {
    Add,
    Sub,
    Sll,
    Slt,
    Sltu,
    Xor,
    Srl,
    Sra,
    Or,
    And,
    Mul,
    Mulh,
    Mulhsu,
    Mulhu,
    Div,
    Divu,
    Rem,
    Remu,
}

impl RegisterOp {
    /// The mnemonic.
    pub fn mnemonic(self) -> &'static [u8]
        ensures { result.now ≡ register_mnemonic self }
    {
        match self {
            RegisterOp::Add => spellings::ADD,
            RegisterOp::Sub => spellings::SUB,
            RegisterOp::Sll => spellings::SLL,
            RegisterOp::Slt => spellings::SLT,
            RegisterOp::Sltu => spellings::SLTU,
            RegisterOp::Xor => spellings::XOR,
            RegisterOp::Srl => spellings::SRL,
            RegisterOp::Sra => spellings::SRA,
            RegisterOp::Or => spellings::OR,
            RegisterOp::And => spellings::AND,
            RegisterOp::Mul => spellings::MUL,
            RegisterOp::Mulh => spellings::MULH,
            RegisterOp::Mulhsu => spellings::MULHSU,
            RegisterOp::Mulhu => spellings::MULHU,
            RegisterOp::Div => spellings::DIV,
            RegisterOp::Divu => spellings::DIVU,
            RegisterOp::Rem => spellings::REM,
            RegisterOp::Remu => spellings::REMU,
        }
    }
}

/// An instruction on two registers and an immediate (format I).
#[derive(Clone, Copy)]
pub enum ImmediateOp {
    Addi,
    Slti,
    Sltiu,
    Xori,
    Ori,
    Andi,
    Jalr,
    Lb,
    Lh,
    Lw,
    Lbu,
    Lhu,
}

impl ImmediateOp {
    /// The mnemonic.
    pub fn mnemonic(self) -> &'static [u8]
        ensures { result.now ≡ immediate_mnemonic self }
    {
        match self {
            ImmediateOp::Addi => spellings::ADDI,
            ImmediateOp::Slti => spellings::SLTI,
            ImmediateOp::Sltiu => spellings::SLTIU,
            ImmediateOp::Xori => spellings::XORI,
            ImmediateOp::Ori => spellings::ORI,
            ImmediateOp::Andi => spellings::ANDI,
            ImmediateOp::Jalr => spellings::JALR,
            ImmediateOp::Lb => spellings::LB,
            ImmediateOp::Lh => spellings::LH,
            ImmediateOp::Lw => spellings::LW,
            ImmediateOp::Lbu => spellings::LBU,
            ImmediateOp::Lhu => spellings::LHU,
        }
    }
}

/// A shift by an immediate.
#[derive(Clone, Copy)]
pub enum ShiftOp {
    Slli,
    Srli,
    Srai,
}

impl ShiftOp {
    /// The mnemonic.
    pub fn mnemonic(self) -> &'static [u8]
        ensures { result.now ≡ shift_mnemonic self }
    {
        match self {
            ShiftOp::Slli => spellings::SLLI,
            ShiftOp::Srli => spellings::SRLI,
            ShiftOp::Srai => spellings::SRAI,
        }
    }
}

/// A store (format S).
#[derive(Clone, Copy)]
pub enum StoreOp {
    Sb,
    Sh,
    Sw,
}

impl StoreOp {
    /// The mnemonic.
    pub fn mnemonic(self) -> &'static [u8]
        ensures { result.now ≡ store_mnemonic self }
    {
        match self {
            StoreOp::Sb => spellings::SB,
            StoreOp::Sh => spellings::SH,
            StoreOp::Sw => spellings::SW,
        }
    }
}

/// A conditional branch (format B).
#[derive(Clone, Copy)]
pub enum BranchOp {
    Beq,
    Bne,
    Blt,
    Bge,
    Bltu,
    Bgeu,
}

impl BranchOp {
    /// The mnemonic.
    pub fn mnemonic(self) -> &'static [u8]
        ensures { result.now ≡ branch_mnemonic self }
    {
        match self {
            BranchOp::Beq => spellings::BEQ,
            BranchOp::Bne => spellings::BNE,
            BranchOp::Blt => spellings::BLT,
            BranchOp::Bge => spellings::BGE,
            BranchOp::Bltu => spellings::BLTU,
            BranchOp::Bgeu => spellings::BGEU,
        }
    }
}

/// An instruction on a register and the upper 20 bits (format U).
#[derive(Clone, Copy)]
pub enum UpperOp {
    Lui,
    Auipc,
}

impl UpperOp {
    /// The mnemonic.
    pub fn mnemonic(self) -> &'static [u8]
        ensures { result.now ≡ upper_mnemonic self }
    {
        match self {
            UpperOp::Lui => spellings::LUI,
            UpperOp::Auipc => spellings::AUIPC,
        }
    }
}

/// An instruction without operands.
#[derive(Clone, Copy)]
pub enum AloneOp {
    Fence,
    Ecall,
    Ebreak,
}

impl AloneOp {
    /// The mnemonic.
    pub fn mnemonic(self) -> &'static [u8]
        ensures { result.now ≡ alone_mnemonic self }
    {
        match self {
            AloneOp::Fence => spellings::FENCE,
            AloneOp::Ecall => spellings::ECALL,
            AloneOp::Ebreak => spellings::EBREAK,
        }
    }
}

/// The mnemonic of the jump to a label.
pub fn jump_mnemonic() -> &'static [u8]
    ensures { result.now ≡ jump_mnemonic }
{
    spellings::JAL
}
