// What a line may begin with: mnemonics, pseudo-instructions and directives.

ghost use Rattle.std.specs.Prelude.{◌≡◌};
ghost use Rattle.asm_lines.specs.Tables.{entry};
ghost use Rattle.asm_lines.specs.Initials.{rows_by};
ghost use Rattle.asm_lines.specs.Mnemonics.{head_of, heads};

use crate::tables::entry;
use kern_base::Kind;
use rv32_isa::{AloneOp, BranchOp, ImmediateOp, RegisterOp, ShiftOp, StoreOp, UpperOp, spellings};

/// An instruction that stands for one or two others.
#[derive(Clone, Copy)]
pub enum Pseudo {
    Nop,
    Mv,
    Not,
    Neg,
    Seqz,
    Snez,
    Beqz,
    Bnez,
    J,
    Call,
    Jr,
    Ret,
    Li,
    La,
    Os,
}

/// Where words go: `Nowhere` before the first section.
#[derive(Clone, Copy, PartialEq, Eq)]
pub enum Section {
    Nowhere,
    Code,
    Ram,
}

/// What a line begins with, by the form of what follows.
#[derive(Clone, Copy)]
pub enum Head {
    /// `rd, rs1, rs2`
    Registers(RegisterOp),
    /// `rd, rs1, constant`
    Immediate(ImmediateOp),
    /// `rd, constant(rs1)`
    Load(ImmediateOp),
    /// `rd, rs1, constant`
    Shift(ShiftOp),
    /// `rs2, constant(rs1)`
    Store(StoreOp),
    /// `rs1, rs2, label`
    Branch(BranchOp),
    /// `rd, constant`
    Upper(UpperOp),
    /// `rd, label`
    Jump,
    /// nothing
    Alone(AloneOp),
    Pseudo(Pseudo),
    /// `.code` or `.ram`
    Section(Section),
    Word,
    Space,
    Equ,
    Task,
    /// `.sem`, `.queue` or `.flags`
    Object(Kind),
    Mutex,
    Timer,
    Vector,
    Config,
    Inject,
}

// The table of what a line may begin with, in parts by the first byte.

static DIRECTIVES: [(&[u8], Head); 14] = [
    (b".code", Head::Section(Section::Code)),
    (b".ram", Head::Section(Section::Ram)),
    (b".word", Head::Word),
    (b".space", Head::Space),
    (b".equ", Head::Equ),
    (b".task", Head::Task),
    (b".sem", Head::Object(Kind::Sem)),
    (b".queue", Head::Object(Kind::Queue)),
    (b".flags", Head::Object(Kind::Flags)),
    (b".mutex", Head::Mutex),
    (b".timer", Head::Timer),
    (b".vector", Head::Vector),
    (b".config", Head::Config),
    (b".inject", Head::Inject),
];

static A_HEADS: [(&[u8], Head); 5] = [
    (spellings::ADD, Head::Registers(RegisterOp::Add)),
    (spellings::AND, Head::Registers(RegisterOp::And)),
    (spellings::ADDI, Head::Immediate(ImmediateOp::Addi)),
    (spellings::ANDI, Head::Immediate(ImmediateOp::Andi)),
    (spellings::AUIPC, Head::Upper(UpperOp::Auipc)),
];

static B_HEADS: [(&[u8], Head); 8] = [
    (spellings::BEQ, Head::Branch(BranchOp::Beq)),
    (spellings::BNE, Head::Branch(BranchOp::Bne)),
    (spellings::BLT, Head::Branch(BranchOp::Blt)),
    (spellings::BGE, Head::Branch(BranchOp::Bge)),
    (spellings::BLTU, Head::Branch(BranchOp::Bltu)),
    (spellings::BGEU, Head::Branch(BranchOp::Bgeu)),
    (b"beqz", Head::Pseudo(Pseudo::Beqz)),
    (b"bnez", Head::Pseudo(Pseudo::Bnez)),
];

static C_HEADS: [(&[u8], Head); 1] = [(b"call", Head::Pseudo(Pseudo::Call))];

static D_HEADS: [(&[u8], Head); 2] = [
    (spellings::DIV, Head::Registers(RegisterOp::Div)),
    (spellings::DIVU, Head::Registers(RegisterOp::Divu)),
];

static E_HEADS: [(&[u8], Head); 2] = [
    (spellings::ECALL, Head::Alone(AloneOp::Ecall)),
    (spellings::EBREAK, Head::Alone(AloneOp::Ebreak)),
];

static F_HEADS: [(&[u8], Head); 1] = [(spellings::FENCE, Head::Alone(AloneOp::Fence))];

static J_HEADS: [(&[u8], Head); 4] = [
    (spellings::JALR, Head::Load(ImmediateOp::Jalr)),
    (spellings::JAL, Head::Jump),
    (b"j", Head::Pseudo(Pseudo::J)),
    (b"jr", Head::Pseudo(Pseudo::Jr)),
];

static L_HEADS: [(&[u8], Head); 8] = [
    (spellings::LB, Head::Load(ImmediateOp::Lb)),
    (spellings::LH, Head::Load(ImmediateOp::Lh)),
    (spellings::LW, Head::Load(ImmediateOp::Lw)),
    (spellings::LBU, Head::Load(ImmediateOp::Lbu)),
    (spellings::LHU, Head::Load(ImmediateOp::Lhu)),
    (spellings::LUI, Head::Upper(UpperOp::Lui)),
    (b"li", Head::Pseudo(Pseudo::Li)),
    (b"la", Head::Pseudo(Pseudo::La)),
];

static M_HEADS: [(&[u8], Head); 5] = [
    (spellings::MUL, Head::Registers(RegisterOp::Mul)),
    (spellings::MULH, Head::Registers(RegisterOp::Mulh)),
    (spellings::MULHSU, Head::Registers(RegisterOp::Mulhsu)),
    (spellings::MULHU, Head::Registers(RegisterOp::Mulhu)),
    (b"mv", Head::Pseudo(Pseudo::Mv)),
];

static N_HEADS: [(&[u8], Head); 3] = [
    (b"nop", Head::Pseudo(Pseudo::Nop)),
    (b"not", Head::Pseudo(Pseudo::Not)),
    (b"neg", Head::Pseudo(Pseudo::Neg)),
];

static O_HEADS: [(&[u8], Head); 3] = [
    (spellings::OR, Head::Registers(RegisterOp::Or)),
    (spellings::ORI, Head::Immediate(ImmediateOp::Ori)),
    (b"os", Head::Pseudo(Pseudo::Os)),
];

static R_HEADS: [(&[u8], Head); 3] = [
    (spellings::REM, Head::Registers(RegisterOp::Rem)),
    (spellings::REMU, Head::Registers(RegisterOp::Remu)),
    (b"ret", Head::Pseudo(Pseudo::Ret)),
];

static S_HEADS: [(&[u8], Head); 16] = [
    (spellings::SUB, Head::Registers(RegisterOp::Sub)),
    (spellings::SLL, Head::Registers(RegisterOp::Sll)),
    (spellings::SLT, Head::Registers(RegisterOp::Slt)),
    (spellings::SLTU, Head::Registers(RegisterOp::Sltu)),
    (spellings::SRL, Head::Registers(RegisterOp::Srl)),
    (spellings::SRA, Head::Registers(RegisterOp::Sra)),
    (spellings::SLTI, Head::Immediate(ImmediateOp::Slti)),
    (spellings::SLTIU, Head::Immediate(ImmediateOp::Sltiu)),
    (spellings::SLLI, Head::Shift(ShiftOp::Slli)),
    (spellings::SRLI, Head::Shift(ShiftOp::Srli)),
    (spellings::SRAI, Head::Shift(ShiftOp::Srai)),
    (spellings::SB, Head::Store(StoreOp::Sb)),
    (spellings::SH, Head::Store(StoreOp::Sh)),
    (spellings::SW, Head::Store(StoreOp::Sw)),
    (b"seqz", Head::Pseudo(Pseudo::Seqz)),
    (b"snez", Head::Pseudo(Pseudo::Snez)),
];

static X_HEADS: [(&[u8], Head); 2] = [
    (spellings::XOR, Head::Registers(RegisterOp::Xor)),
    (spellings::XORI, Head::Immediate(ImmediateOp::Xori)),
];

// The entry of a name that begins with a byte.
fn head_from(first: u8, name: &[u8]) -> Option<Head>
    ensures { result ≡ entry name.now (rows_by first heads) }
{
    match first {
        b'.' => entry(name, &DIRECTIVES),
        b'a' => entry(name, &A_HEADS),
        b'b' => entry(name, &B_HEADS),
        b'c' => entry(name, &C_HEADS),
        b'd' => entry(name, &D_HEADS),
        b'e' => entry(name, &E_HEADS),
        b'f' => entry(name, &F_HEADS),
        b'j' => entry(name, &J_HEADS),
        b'l' => entry(name, &L_HEADS),
        b'm' => entry(name, &M_HEADS),
        b'n' => entry(name, &N_HEADS),
        b'o' => entry(name, &O_HEADS),
        b'r' => entry(name, &R_HEADS),
        b's' => entry(name, &S_HEADS),
        b'x' => entry(name, &X_HEADS),
        _ => None,
    }
}

/// What a line begins with that begins so.
pub fn head_of(name: &[u8]) -> Option<Head>
    ensures { result ≡ head_of name.now }
{
    match name {
        [] => None,
        [first, ..] => head_from(*first, name),
    }
}
