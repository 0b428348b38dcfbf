// Words of the GNU assembler (tools/instruction_words.sh writes the rows) and their instructions.

use super::{Instr, decode, encode};
use std::test::Fail;

static ROWS: [(u32, Instr); 63] = [
    (0x8000_02b7, Instr::Lui { rd: 5, imm: 524288 }),
    (
        0xffff_f8b7,
        Instr::Lui {
            rd: 17,
            imm: 1048575,
        },
    ),
    (0x5555_5017, Instr::Auipc { rd: 0, imm: 349525 }),
    (0x8000_0297, Instr::Auipc { rd: 5, imm: 524288 }),
    (
        0xaaba_a8ef,
        Instr::Jal {
            rd: 17,
            imm: -349526,
        },
    ),
    (
        0x7fff_f2ef,
        Instr::Jal {
            rd: 5,
            imm: 1048574,
        },
    ),
    (
        0xfe31_0fe3,
        Instr::Beq {
            rs1: 2,
            rs2: 3,
            imm: -2,
        },
    ),
    (
        0xfe00_0f63,
        Instr::Beq {
            rs1: 0,
            rs2: 0,
            imm: -2050,
        },
    ),
    (
        0x01df_1163,
        Instr::Bne {
            rs1: 30,
            rs2: 29,
            imm: 2,
        },
    ),
    (
        0x0031_10e3,
        Instr::Bne {
            rs1: 2,
            rs2: 3,
            imm: 2048,
        },
    ),
    (
        0x01f4_4063,
        Instr::Blt {
            rs1: 8,
            rs2: 31,
            imm: 0,
        },
    ),
    (
        0x81df_4063,
        Instr::Blt {
            rs1: 30,
            rs2: 29,
            imm: -4096,
        },
    ),
    (
        0xfe31_5f63,
        Instr::Bge {
            rs1: 2,
            rs2: 3,
            imm: -2050,
        },
    ),
    (
        0x7ff4_5fe3,
        Instr::Bge {
            rs1: 8,
            rs2: 31,
            imm: 4094,
        },
    ),
    (
        0x01df_60e3,
        Instr::Bltu {
            rs1: 30,
            rs2: 29,
            imm: 2048,
        },
    ),
    (
        0xfea8_6fe3,
        Instr::Bltu {
            rs1: 16,
            rs2: 10,
            imm: -2,
        },
    ),
    (
        0x81f4_7063,
        Instr::Bgeu {
            rs1: 8,
            rs2: 31,
            imm: -4096,
        },
    ),
    (
        0x0000_7163,
        Instr::Bgeu {
            rs1: 0,
            rs2: 0,
            imm: 2,
        },
    ),
    (
        0x0001_00e7,
        Instr::Jalr {
            rd: 1,
            rs1: 2,
            imm: 0,
        },
    ),
    (
        0x8000_0067,
        Instr::Jalr {
            rd: 0,
            rs1: 0,
            imm: -2048,
        },
    ),
    (
        0x000f_0f83,
        Instr::Lb {
            rd: 31,
            rs1: 30,
            imm: 0,
        },
    ),
    (
        0x7ff1_1083,
        Instr::Lh {
            rd: 1,
            rs1: 2,
            imm: 2047,
        },
    ),
    (
        0x0008_2283,
        Instr::Lw {
            rd: 5,
            rs1: 16,
            imm: 0,
        },
    ),
    (
        0x7ff4_4883,
        Instr::Lbu {
            rd: 17,
            rs1: 8,
            imm: 2047,
        },
    ),
    (
        0x0001_5083,
        Instr::Lhu {
            rd: 1,
            rs1: 2,
            imm: 0,
        },
    ),
    (
        0x7e00_0fa3,
        Instr::Sb {
            rs1: 0,
            rs2: 0,
            imm: 2047,
        },
    ),
    (
        0x01f4_00a3,
        Instr::Sb {
            rs1: 8,
            rs2: 31,
            imm: 1,
        },
    ),
    (
        0x7e31_1fa3,
        Instr::Sh {
            rs1: 2,
            rs2: 3,
            imm: 2047,
        },
    ),
    (
        0x00a8_10a3,
        Instr::Sh {
            rs1: 16,
            rs2: 10,
            imm: 1,
        },
    ),
    (
        0x7fdf_2fa3,
        Instr::Sw {
            rs1: 30,
            rs2: 29,
            imm: 2047,
        },
    ),
    (
        0x0000_20a3,
        Instr::Sw {
            rs1: 0,
            rs2: 0,
            imm: 1,
        },
    ),
    (
        0xfff1_0093,
        Instr::Addi {
            rd: 1,
            rs1: 2,
            imm: -1,
        },
    ),
    (
        0x800f_2f93,
        Instr::Slti {
            rd: 31,
            rs1: 30,
            imm: -2048,
        },
    ),
    (
        0x7ff0_3013,
        Instr::Sltiu {
            rd: 0,
            rs1: 0,
            imm: 2047,
        },
    ),
    (
        0xfff4_4893,
        Instr::Xori {
            rd: 17,
            rs1: 8,
            imm: -1,
        },
    ),
    (
        0x0011_6093,
        Instr::Ori {
            rd: 1,
            rs1: 2,
            imm: 1,
        },
    ),
    (
        0x8004_7893,
        Instr::Andi {
            rd: 17,
            rs1: 8,
            imm: -2048,
        },
    ),
    (
        0x01f1_1093,
        Instr::Slli {
            rd: 1,
            rs1: 2,
            imm: 31,
        },
    ),
    (
        0x0004_5893,
        Instr::Srli {
            rd: 17,
            rs1: 8,
            imm: 0,
        },
    ),
    (
        0x41f8_5293,
        Instr::Srai {
            rd: 5,
            rs1: 16,
            imm: 31,
        },
    ),
    (
        0x01df_0fb3,
        Instr::Add {
            rd: 31,
            rs1: 30,
            rs2: 29,
        },
    ),
    (
        0x41df_0fb3,
        Instr::Sub {
            rd: 31,
            rs1: 30,
            rs2: 29,
        },
    ),
    (
        0x01df_1fb3,
        Instr::Sll {
            rd: 31,
            rs1: 30,
            rs2: 29,
        },
    ),
    (
        0x01df_2fb3,
        Instr::Slt {
            rd: 31,
            rs1: 30,
            rs2: 29,
        },
    ),
    (
        0x01df_3fb3,
        Instr::Sltu {
            rd: 31,
            rs1: 30,
            rs2: 29,
        },
    ),
    (
        0x01df_4fb3,
        Instr::Xor {
            rd: 31,
            rs1: 30,
            rs2: 29,
        },
    ),
    (
        0x01df_5fb3,
        Instr::Srl {
            rd: 31,
            rs1: 30,
            rs2: 29,
        },
    ),
    (
        0x41df_5fb3,
        Instr::Sra {
            rd: 31,
            rs1: 30,
            rs2: 29,
        },
    ),
    (
        0x01df_6fb3,
        Instr::Or {
            rd: 31,
            rs1: 30,
            rs2: 29,
        },
    ),
    (
        0x01df_7fb3,
        Instr::And {
            rd: 31,
            rs1: 30,
            rs2: 29,
        },
    ),
    (
        0x03df_0fb3,
        Instr::Mul {
            rd: 31,
            rs1: 30,
            rs2: 29,
        },
    ),
    (
        0x03df_1fb3,
        Instr::Mulh {
            rd: 31,
            rs1: 30,
            rs2: 29,
        },
    ),
    (
        0x03df_2fb3,
        Instr::Mulhsu {
            rd: 31,
            rs1: 30,
            rs2: 29,
        },
    ),
    (
        0x03df_3fb3,
        Instr::Mulhu {
            rd: 31,
            rs1: 30,
            rs2: 29,
        },
    ),
    (
        0x03df_4fb3,
        Instr::Div {
            rd: 31,
            rs1: 30,
            rs2: 29,
        },
    ),
    (
        0x03df_5fb3,
        Instr::Divu {
            rd: 31,
            rs1: 30,
            rs2: 29,
        },
    ),
    (
        0x03df_6fb3,
        Instr::Rem {
            rd: 31,
            rs1: 30,
            rs2: 29,
        },
    ),
    (
        0x03df_7fb3,
        Instr::Remu {
            rd: 31,
            rs1: 30,
            rs2: 29,
        },
    ),
    (
        0x0ff0_000f,
        Instr::Fence {
            rd: 0,
            rs1: 0,
            imm: 255,
        },
    ),
    (
        0x0310_000f,
        Instr::Fence {
            rd: 0,
            rs1: 0,
            imm: 49,
        },
    ),
    (
        0x8330_000f,
        Instr::Fence {
            rd: 0,
            rs1: 0,
            imm: -1997,
        },
    ),
    (0x0000_0073, Instr::Ecall),
    (0x0010_0073, Instr::Ebreak),
];

// Words without a row: of no opcode, a funct3 or a funct7 that the listing lacks, shifts by 32 and more, and other
// words of SYSTEM.
static NO_ROWS: [u32; 16] = [
    0x0000_0000,
    0xffff_ffff,
    0x0000_1067,
    0x0000_2063,
    0x0000_3063,
    0x0000_3003,
    0x0000_6003,
    0x0000_7003,
    0x0000_3023,
    0x0200_1013,
    0x4000_1013,
    0x0200_5013,
    0x4000_1033,
    0x0400_0033,
    0x0020_0073,
    0x0000_100f,
];

#[test]
fn words_and_instructions(rt: HostRuntime) -> Result<(), Fail> {
    for (word, expected) in ROWS.iter() {
        let instr = decode(*word).ok_or("no row")?;
        assert!(rt; instr == *expected);
        assert!(rt; encode(&instr) == *word);
    }
    Ok(())
}

#[test]
fn words_without_a_row(rt: HostRuntime) {
    for word in NO_ROWS.iter() {
        assert!(rt; decode(*word).is_none());
    }
}
