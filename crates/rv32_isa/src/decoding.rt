// A word's instruction.

ghost use Rattle.std.specs.Prelude.{◌≡◌, ◌≢◌, ◌<◌, ◌≤◌, ◌+◌, ◌-◌, ◌*◌, ◌/◌, ◌%◌, ◌^◌, pos, IfSome, IfNone};
ghost use Rattle.rv32_isa.specs.Formats.{field, signed, i_immediate, s_immediate, b_immediate, u_immediate, j_immediate};
ghost use Rattle.rv32_isa.specs.Listing.{encoded, IsInRange};
ghost use Rattle.rv32_isa.specs.declared.Instr.{Instr};
ghost use Rattle.rv32_isa.specs.Decoded.{decoded, jump_row, fence_row, shift_left_row, branch_row, load_row, store_row, shift_right_row, immediate_row, base_row, alternate_row, multiply_row, register_row, system_row};

use crate::Instr;
use crate::fields::bits;

// The register in the five bits from bit `low` on.
fn register(word: u32, low: u32) -> u8
    requires { low < 32 }
    ensures { result ≡ field word low 5 }
{
    bits(word, low, 5) as u8
}

// A number of so many bits in two's complement.
fn sign_extended(width: u32, number: u32) -> i32
    requires some { 0 < width }
    requires narrow { width < 32 }
    requires fits { number < 2 ^ width }
    ensures { result ≡ signed width number }
{
    if number < 1 << (width - 1) {
        number.cast_signed()
    } else {
        number.wrapping_sub(1 << width).cast_signed()
    }
}

fn immediate_i(word: u32) -> i32
    ensures { result ≡ i_immediate (field word 25 7) (field word 20 5) }
{
    sign_extended(12, (bits(word, 25, 7) << 5) + bits(word, 20, 5))
}

fn immediate_s(word: u32) -> i32
    ensures { result ≡ s_immediate (field word 25 7) (field word 7 5) }
{
    sign_extended(12, (bits(word, 25, 7) << 5) + bits(word, 7, 5))
}

fn immediate_b(word: u32) -> i32
    ensures { result ≡ b_immediate (field word 25 7) (field word 7 5) }
{
    let (high, low) = (bits(word, 25, 7), bits(word, 7, 5));
    sign_extended(
        13,
        ((high >> 6) << 12) + ((low % 2) << 11) + ((high % (1 << 6)) << 5) + ((low >> 1) << 1),
    )
}

fn immediate_u(word: u32) -> i32
    ensures { result ≡ u_immediate (field word 25 7) (field word 20 5) (field word 15 5) (field word 12 3) }
{
    (word >> 12).cast_signed()
}

fn immediate_j(word: u32) -> i32
    ensures { result ≡ j_immediate (field word 25 7) (field word 20 5) (field word 15 5) (field word 12 3) }
{
    let (high, low) = (bits(word, 25, 7), bits(word, 20, 5));
    let middle = (bits(word, 12, 8) << 12) + ((low % 2) << 11);
    sign_extended(
        21,
        ((high >> 6) << 20) + middle + ((high % (1 << 6)) << 5) + ((low >> 1) << 1),
    )
}

// A branch.
fn branch(word: u32) -> Option<Instr>
    ensures { result ≡ branch_row (field word 12 3) (field word 15 5) (field word 20 5) (b_immediate (field word 25 7) (field word 7 5)) }
{
    let (rs1, rs2, imm) = (register(word, 15), register(word, 20), immediate_b(word));
    match bits(word, 12, 3) {
        0b000 => Some(Instr::Beq { rs1, rs2, imm }),
        0b001 => Some(Instr::Bne { rs1, rs2, imm }),
        0b100 => Some(Instr::Blt { rs1, rs2, imm }),
        0b101 => Some(Instr::Bge { rs1, rs2, imm }),
        0b110 => Some(Instr::Bltu { rs1, rs2, imm }),
        0b111 => Some(Instr::Bgeu { rs1, rs2, imm }),
        _ => None,
    }
}

// A load.
fn load(word: u32) -> Option<Instr>
    ensures { result ≡ load_row (field word 12 3) (field word 7 5) (field word 15 5) (i_immediate (field word 25 7) (field word 20 5)) }
{
    let (rd, rs1, imm) = (register(word, 7), register(word, 15), immediate_i(word));
    match bits(word, 12, 3) {
        0b000 => Some(Instr::Lb { rd, rs1, imm }),
        0b001 => Some(Instr::Lh { rd, rs1, imm }),
        0b010 => Some(Instr::Lw { rd, rs1, imm }),
        0b100 => Some(Instr::Lbu { rd, rs1, imm }),
        0b101 => Some(Instr::Lhu { rd, rs1, imm }),
        _ => None,
    }
}

// A store.
fn store(word: u32) -> Option<Instr>
    ensures { result ≡ store_row (field word 12 3) (field word 15 5) (field word 20 5) (s_immediate (field word 25 7) (field word 7 5)) }
{
    let (rs1, rs2, imm) = (register(word, 15), register(word, 20), immediate_s(word));
    match bits(word, 12, 3) {
        0b000 => Some(Instr::Sb { rs1, rs2, imm }),
        0b001 => Some(Instr::Sh { rs1, rs2, imm }),
        0b010 => Some(Instr::Sw { rs1, rs2, imm }),
        _ => None,
    }
}

// A jump to a register.
fn jump(word: u32) -> Option<Instr>
    ensures { result ≡ jump_row (field word 12 3) (field word 7 5) (field word 15 5) (i_immediate (field word 25 7) (field word 20 5)) }
{
    let (rd, rs1, imm) = (register(word, 7), register(word, 15), immediate_i(word));
    match bits(word, 12, 3) {
        0b000 => Some(Instr::Jalr { rd, rs1, imm }),
        _ => None,
    }
}

// A fence.
fn fence(word: u32) -> Option<Instr>
    ensures { result ≡ fence_row (field word 12 3) (field word 7 5) (field word 15 5) (i_immediate (field word 25 7) (field word 20 5)) }
{
    let (rd, rs1, imm) = (register(word, 7), register(word, 15), immediate_i(word));
    match bits(word, 12, 3) {
        0b000 => Some(Instr::Fence { rd, rs1, imm }),
        _ => None,
    }
}

// A shift to the left by an immediate.
fn shift_left(word: u32) -> Option<Instr>
    ensures { result ≡ shift_left_row (field word 25 7) (field word 7 5) (field word 15 5) (field word 20 5) }
{
    let (rd, rs1) = (register(word, 7), register(word, 15));
    let imm = i32::from(register(word, 20));
    match bits(word, 25, 7) {
        0b000_0000 => Some(Instr::Slli { rd, rs1, imm }),
        _ => None,
    }
}

// A shift to the right by an immediate.
fn shift_right(word: u32) -> Option<Instr>
    ensures { result ≡ shift_right_row (field word 25 7) (field word 7 5) (field word 15 5) (field word 20 5) }
{
    let (rd, rs1) = (register(word, 7), register(word, 15));
    let imm = i32::from(register(word, 20));
    match bits(word, 25, 7) {
        0b000_0000 => Some(Instr::Srli { rd, rs1, imm }),
        0b010_0000 => Some(Instr::Srai { rd, rs1, imm }),
        _ => None,
    }
}

// An operation with an immediate.
fn immediate(word: u32) -> Option<Instr>
    ensures { result ≡ immediate_row (field word 25 7) (field word 12 3) (field word 7 5) (field word 15 5) (field word 20 5) (i_immediate (field word 25 7) (field word 20 5)) }
{
    let (rd, rs1, imm) = (register(word, 7), register(word, 15), immediate_i(word));
    match bits(word, 12, 3) {
        0b000 => Some(Instr::Addi { rd, rs1, imm }),
        0b001 => shift_left(word),
        0b010 => Some(Instr::Slti { rd, rs1, imm }),
        0b011 => Some(Instr::Sltiu { rd, rs1, imm }),
        0b100 => Some(Instr::Xori { rd, rs1, imm }),
        0b101 => shift_right(word),
        0b110 => Some(Instr::Ori { rd, rs1, imm }),
        0b111 => Some(Instr::Andi { rd, rs1, imm }),
        _ => None,
    }
}

// An operation on registers with funct7 0000000.
fn base(word: u32) -> Option<Instr>
    ensures { result ≡ base_row (field word 12 3) (field word 7 5) (field word 15 5) (field word 20 5) }
{
    let (rd, rs1, rs2) = (register(word, 7), register(word, 15), register(word, 20));
    match bits(word, 12, 3) {
        0b000 => Some(Instr::Add { rd, rs1, rs2 }),
        0b001 => Some(Instr::Sll { rd, rs1, rs2 }),
        0b010 => Some(Instr::Slt { rd, rs1, rs2 }),
        0b011 => Some(Instr::Sltu { rd, rs1, rs2 }),
        0b100 => Some(Instr::Xor { rd, rs1, rs2 }),
        0b101 => Some(Instr::Srl { rd, rs1, rs2 }),
        0b110 => Some(Instr::Or { rd, rs1, rs2 }),
        0b111 => Some(Instr::And { rd, rs1, rs2 }),
        _ => None,
    }
}

// An operation on registers with funct7 0100000.
fn alternate(word: u32) -> Option<Instr>
    ensures { result ≡ alternate_row (field word 12 3) (field word 7 5) (field word 15 5) (field word 20 5) }
{
    let (rd, rs1, rs2) = (register(word, 7), register(word, 15), register(word, 20));
    match bits(word, 12, 3) {
        0b000 => Some(Instr::Sub { rd, rs1, rs2 }),
        0b101 => Some(Instr::Sra { rd, rs1, rs2 }),
        _ => None,
    }
}

// A multiplication or a division.
fn multiply(word: u32) -> Option<Instr>
    ensures { result ≡ multiply_row (field word 12 3) (field word 7 5) (field word 15 5) (field word 20 5) }
{
    let (rd, rs1, rs2) = (register(word, 7), register(word, 15), register(word, 20));
    match bits(word, 12, 3) {
        0b000 => Some(Instr::Mul { rd, rs1, rs2 }),
        0b001 => Some(Instr::Mulh { rd, rs1, rs2 }),
        0b010 => Some(Instr::Mulhsu { rd, rs1, rs2 }),
        0b011 => Some(Instr::Mulhu { rd, rs1, rs2 }),
        0b100 => Some(Instr::Div { rd, rs1, rs2 }),
        0b101 => Some(Instr::Divu { rd, rs1, rs2 }),
        0b110 => Some(Instr::Rem { rd, rs1, rs2 }),
        0b111 => Some(Instr::Remu { rd, rs1, rs2 }),
        _ => None,
    }
}

// An operation on registers.
fn registers(word: u32) -> Option<Instr>
    ensures { result ≡ register_row (field word 25 7) (field word 12 3) (field word 7 5) (field word 15 5) (field word 20 5) }
{
    match bits(word, 25, 7) {
        0b000_0000 => base(word),
        0b000_0001 => multiply(word),
        0b010_0000 => alternate(word),
        _ => None,
    }
}

// A whole word of the opcode SYSTEM.
fn system(word: u32) -> Option<Instr>
    requires { word % 2 ^ 7 ≡ 0b1110011 }
    ensures { result ≡ system_row (field word 25 7) (field word 20 5) (field word 15 5) (field word 12 3) (field word 7 5) }
{
    match word {
        0x0000_0073 => Some(Instr::Ecall),
        0x0010_0073 => Some(Instr::Ebreak),
        _ => None,
    }
}

// The row of a word, by its opcode.
#[tactic(auto, unfolding(crate::specs::Decoded::decoded))]
fn by_opcode(word: u32) -> Option<Instr>
    ensures { result ≡ decoded word }
{
    match word % (1 << 7) {
        0b011_0111 => Some(Instr::Lui {
            rd: register(word, 7),
            imm: immediate_u(word),
        }),
        0b001_0111 => Some(Instr::Auipc {
            rd: register(word, 7),
            imm: immediate_u(word),
        }),
        0b110_1111 => Some(Instr::Jal {
            rd: register(word, 7),
            imm: immediate_j(word),
        }),
        0b110_0111 => jump(word),
        0b110_0011 => branch(word),
        0b000_0011 => load(word),
        0b010_0011 => store(word),
        0b001_0011 => immediate(word),
        0b011_0011 => registers(word),
        0b000_1111 => fence(word),
        0b111_0011 => system(word),
        _ => None,
    }
}

/// The instruction of a word; None where the word has no row in the listing.
pub fn decode(word: u32) -> Option<Instr>
    ensures value { result ≡ decoded word }
    ensures row { IfSome result (λ instr. IsInRange instr × (encoded instr ≡ word)) }
    ensures only { (instr : Instr) → IsInRange instr → encoded instr ≡ word → result ≡ Some instr }
{
    by_opcode(word)
}
