// An instruction's word.

ghost use Rattle.std.specs.Prelude.{◌≡◌, ◌≢◌, ◌<◌, ◌≤◌, ◌+◌, ◌-◌, ◌*◌, ◌/◌, ◌%◌, ◌^◌, ℕ, Some};
ghost use Rattle.rv32_isa.specs.Formats.{field, unsigned, r_format as r_word, i_format as i_word, s_format as s_word, b_format as b_word, u_format as u_word, j_format as j_word};
ghost use Rattle.rv32_isa.specs.Listing.{encoded, IsInRange, IsRegisterForm, IsOperationForm};
ghost use Rattle.rv32_isa.specs.Decoded.{decoded};

use crate::Instr;
use crate::fields::bits;

// The six columns of a word.
fn r_format(funct7: u32, rs2: u32, rs1: u8, funct3: u32, rd: u32, opcode: u32) -> u32
    requires funct7 { funct7 < 2 ^ 7 }
    requires rs2 { rs2 < 2 ^ 5 }
    requires rs1 { rs1 < 2 ^ 5 }
    requires funct3 { funct3 < 2 ^ 3 }
    requires rd { rd < 2 ^ 5 }
    requires opcode { opcode < 2 ^ 7 }
    ensures { result ≡ r_word funct7 rs2 rs1 funct3 rd opcode }
{
    (funct7 << 25) + (rs2 << 20) + (u32::from(rs1) << 15) + (funct3 << 12) + (rd << 7) + opcode
}

fn i_format(imm: i32, rs1: u8, funct3: u32, rd: u8, opcode: u32) -> u32
    requires rs1 { rs1 < 2 ^ 5 }
    requires funct3 { funct3 < 2 ^ 3 }
    requires rd { rd < 2 ^ 5 }
    requires opcode { opcode < 2 ^ 7 }
    ensures { result ≡ i_word imm rs1 funct3 rd opcode }
{
    let u = imm.cast_unsigned();
    r_format(
        bits(u, 5, 7),
        bits(u, 0, 5),
        rs1,
        funct3,
        u32::from(rd),
        opcode,
    )
}

fn s_format(imm: i32, rs2: u8, rs1: u8, funct3: u32, opcode: u32) -> u32
    requires rs2 { rs2 < 2 ^ 5 }
    requires rs1 { rs1 < 2 ^ 5 }
    requires funct3 { funct3 < 2 ^ 3 }
    requires opcode { opcode < 2 ^ 7 }
    ensures { result ≡ s_word imm rs2 rs1 funct3 opcode }
{
    let u = imm.cast_unsigned();
    r_format(
        bits(u, 5, 7),
        u32::from(rs2),
        rs1,
        funct3,
        bits(u, 0, 5),
        opcode,
    )
}

fn b_format(imm: i32, rs2: u8, rs1: u8, funct3: u32, opcode: u32) -> u32
    requires rs2 { rs2 < 2 ^ 5 }
    requires rs1 { rs1 < 2 ^ 5 }
    requires funct3 { funct3 < 2 ^ 3 }
    requires opcode { opcode < 2 ^ 7 }
    ensures { result ≡ b_word imm rs2 rs1 funct3 opcode }
{
    let u = imm.cast_unsigned();
    let high = (bits(u, 12, 1) << 6) + bits(u, 5, 6);
    let low = (bits(u, 1, 4) << 1) + bits(u, 11, 1);
    r_format(high, u32::from(rs2), rs1, funct3, low, opcode)
}

fn u_format(imm: i32, rd: u8, opcode: u32) -> u32
    requires rd { rd < 2 ^ 5 }
    requires opcode { opcode < 2 ^ 7 }
    ensures { result ≡ u_word imm rd opcode }
{
    let u = imm.cast_unsigned();
    r_format(
        bits(u, 13, 7),
        bits(u, 8, 5),
        bits(u, 3, 5) as u8,
        bits(u, 0, 3),
        u32::from(rd),
        opcode,
    )
}

fn j_format(imm: i32, rd: u8, opcode: u32) -> u32
    requires rd { rd < 2 ^ 5 }
    requires opcode { opcode < 2 ^ 7 }
    ensures { result ≡ j_word imm rd opcode }
{
    let u = imm.cast_unsigned();
    let high = (bits(u, 20, 1) << 6) + bits(u, 5, 6);
    let low = (bits(u, 1, 4) << 1) + bits(u, 11, 1);
    r_format(
        high,
        low,
        bits(u, 15, 5) as u8,
        bits(u, 12, 3),
        u32::from(rd),
        opcode,
    )
}

// A shift by an immediate.
fn shift(funct7: u32, imm: i32, rs1: u8, funct3: u32, rd: u8) -> u32
    requires funct7 { funct7 < 2 ^ 7 }
    requires imm { unsigned imm < 2 ^ 5 }
    requires rs1 { rs1 < 2 ^ 5 }
    requires funct3 { funct3 < 2 ^ 3 }
    requires rd { rd < 2 ^ 5 }
    ensures { result ≡ r_word funct7 (unsigned imm) rs1 funct3 rd 0b0010011 }
{
    r_format(
        funct7,
        imm.cast_unsigned(),
        rs1,
        funct3,
        u32::from(rd),
        0b001_0011,
    )
}

// An operation on registers.
fn operation(funct7: u32, rs2: u8, rs1: u8, funct3: u32, rd: u8) -> u32
    requires funct7 { funct7 < 2 ^ 7 }
    requires rs2 { rs2 < 2 ^ 5 }
    requires rs1 { rs1 < 2 ^ 5 }
    requires funct3 { funct3 < 2 ^ 3 }
    requires rd { rd < 2 ^ 5 }
    ensures { result ≡ r_word funct7 rs2 rs1 funct3 rd 0b0110011 }
{
    r_format(
        funct7,
        u32::from(rs2),
        rs1,
        funct3,
        u32::from(rd),
        0b011_0011,
    )
}

// The word of an operation on registers.
fn register_word(instr: &Instr) -> u32
    requires range { IsInRange instr.now }
    requires form { IsRegisterForm instr.now }
    ensures { result ≡ encoded instr.now }
{
    match *instr {
        Instr::Add { rd, rs1, rs2 } => operation(0b000_0000, rs2, rs1, 0b000, rd),
        Instr::Sub { rd, rs1, rs2 } => operation(0b010_0000, rs2, rs1, 0b000, rd),
        Instr::Sll { rd, rs1, rs2 } => operation(0b000_0000, rs2, rs1, 0b001, rd),
        Instr::Slt { rd, rs1, rs2 } => operation(0b000_0000, rs2, rs1, 0b010, rd),
        Instr::Sltu { rd, rs1, rs2 } => operation(0b000_0000, rs2, rs1, 0b011, rd),
        Instr::Xor { rd, rs1, rs2 } => operation(0b000_0000, rs2, rs1, 0b100, rd),
        Instr::Srl { rd, rs1, rs2 } => operation(0b000_0000, rs2, rs1, 0b101, rd),
        Instr::Sra { rd, rs1, rs2 } => operation(0b010_0000, rs2, rs1, 0b101, rd),
        Instr::Or { rd, rs1, rs2 } => operation(0b000_0000, rs2, rs1, 0b110, rd),
        Instr::And { rd, rs1, rs2 } => operation(0b000_0000, rs2, rs1, 0b111, rd),
        Instr::Mul { rd, rs1, rs2 } => operation(0b000_0001, rs2, rs1, 0b000, rd),
        Instr::Mulh { rd, rs1, rs2 } => operation(0b000_0001, rs2, rs1, 0b001, rd),
        Instr::Mulhsu { rd, rs1, rs2 } => operation(0b000_0001, rs2, rs1, 0b010, rd),
        Instr::Mulhu { rd, rs1, rs2 } => operation(0b000_0001, rs2, rs1, 0b011, rd),
        Instr::Div { rd, rs1, rs2 } => operation(0b000_0001, rs2, rs1, 0b100, rd),
        Instr::Divu { rd, rs1, rs2 } => operation(0b000_0001, rs2, rs1, 0b101, rd),
        Instr::Rem { rd, rs1, rs2 } => operation(0b000_0001, rs2, rs1, 0b110, rd),
        Instr::Remu { rd, rs1, rs2 } => operation(0b000_0001, rs2, rs1, 0b111, rd),
        _ => unreachable!(),
    }
}

// The word of an operation with an immediate, or on registers.
fn operation_word(instr: &Instr) -> u32
    requires range { IsInRange instr.now }
    requires form { IsOperationForm instr.now }
    ensures { result ≡ encoded instr.now }
{
    match *instr {
        Instr::Addi { rd, rs1, imm } => i_format(imm, rs1, 0b000, rd, 0b001_0011),
        Instr::Slti { rd, rs1, imm } => i_format(imm, rs1, 0b010, rd, 0b001_0011),
        Instr::Sltiu { rd, rs1, imm } => i_format(imm, rs1, 0b011, rd, 0b001_0011),
        Instr::Xori { rd, rs1, imm } => i_format(imm, rs1, 0b100, rd, 0b001_0011),
        Instr::Ori { rd, rs1, imm } => i_format(imm, rs1, 0b110, rd, 0b001_0011),
        Instr::Andi { rd, rs1, imm } => i_format(imm, rs1, 0b111, rd, 0b001_0011),
        Instr::Slli { rd, rs1, imm } => shift(0b000_0000, imm, rs1, 0b001, rd),
        Instr::Srli { rd, rs1, imm } => shift(0b000_0000, imm, rs1, 0b101, rd),
        Instr::Srai { rd, rs1, imm } => shift(0b010_0000, imm, rs1, 0b101, rd),
        _ => register_word(instr),
    }
}

/// The word of an instruction, whose registers and immediate are in range.
pub fn encode(instr: &Instr) -> u32
    requires { IsInRange instr.now }
    ensures value { result ≡ encoded instr.now }
    ensures back { decoded result ≡ Some instr.now }
    ensures only { (word : ℕ) → word < 2 ^ 32 → decoded word ≡ Some instr.now → word ≡ result }
{
    listed(instr)
}

// The word of an instruction, by the listing.
fn listed(instr: &Instr) -> u32
    requires { IsInRange instr.now }
    ensures { result ≡ encoded instr.now }
{
    match *instr {
        Instr::Lui { rd, imm } => u_format(imm, rd, 0b011_0111),
        Instr::Auipc { rd, imm } => u_format(imm, rd, 0b001_0111),
        Instr::Jal { rd, imm } => j_format(imm, rd, 0b110_1111),
        Instr::Jalr { rd, rs1, imm } => i_format(imm, rs1, 0b000, rd, 0b110_0111),
        Instr::Beq { rs1, rs2, imm } => b_format(imm, rs2, rs1, 0b000, 0b110_0011),
        Instr::Bne { rs1, rs2, imm } => b_format(imm, rs2, rs1, 0b001, 0b110_0011),
        Instr::Blt { rs1, rs2, imm } => b_format(imm, rs2, rs1, 0b100, 0b110_0011),
        Instr::Bge { rs1, rs2, imm } => b_format(imm, rs2, rs1, 0b101, 0b110_0011),
        Instr::Bltu { rs1, rs2, imm } => b_format(imm, rs2, rs1, 0b110, 0b110_0011),
        Instr::Bgeu { rs1, rs2, imm } => b_format(imm, rs2, rs1, 0b111, 0b110_0011),
        Instr::Lb { rd, rs1, imm } => i_format(imm, rs1, 0b000, rd, 0b000_0011),
        Instr::Lh { rd, rs1, imm } => i_format(imm, rs1, 0b001, rd, 0b000_0011),
        Instr::Lw { rd, rs1, imm } => i_format(imm, rs1, 0b010, rd, 0b000_0011),
        Instr::Lbu { rd, rs1, imm } => i_format(imm, rs1, 0b100, rd, 0b000_0011),
        Instr::Lhu { rd, rs1, imm } => i_format(imm, rs1, 0b101, rd, 0b000_0011),
        Instr::Sb { rs1, rs2, imm } => s_format(imm, rs2, rs1, 0b000, 0b010_0011),
        Instr::Sh { rs1, rs2, imm } => s_format(imm, rs2, rs1, 0b001, 0b010_0011),
        Instr::Sw { rs1, rs2, imm } => s_format(imm, rs2, rs1, 0b010, 0b010_0011),
        Instr::Fence { rd, rs1, imm } => i_format(imm, rs1, 0b000, rd, 0b000_1111),
        Instr::Ecall => 0x0000_0073,
        Instr::Ebreak => 0x0010_0073,
        _ => operation_word(instr),
    }
}
