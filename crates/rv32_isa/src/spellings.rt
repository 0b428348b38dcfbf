// The mnemonics of the instructions, each written once (RISC-V Unprivileged ISA, "RV32/64G Instruction Set Listings").

pub const ADD: &[u8] = b"add";

pub const SUB: &[u8] = b"sub";

pub const SLL: &[u8] = b"sll";

pub const SLT: &[u8] = b"slt";

pub const SLTU: &[u8] = b"sltu";

pub const XOR: &[u8] = b"xor";

pub const SRL: &[u8] = b"srl";

pub const SRA: &[u8] = b"sra";

pub const OR: &[u8] = b"or";

pub const AND: &[u8] = b"and";

pub const MUL: &[u8] = b"mul";

pub const MULH: &[u8] = b"mulh";

pub const MULHSU: &[u8] = b"mulhsu";

pub const MULHU: &[u8] = b"mulhu";

pub const DIV: &[u8] = b"div";

pub const DIVU: &[u8] = b"divu";

pub const REM: &[u8] = b"rem";

pub const REMU: &[u8] = b"remu";

pub const ADDI: &[u8] = b"addi";

pub const SLTI: &[u8] = b"slti";

pub const SLTIU: &[u8] = b"sltiu";

pub const XORI: &[u8] = b"xori";

pub const ORI: &[u8] = b"ori";

pub const ANDI: &[u8] = b"andi";

pub const JALR: &[u8] = b"jalr";

pub const LB: &[u8] = b"lb";

pub const LH: &[u8] = b"lh";

pub const LW: &[u8] = b"lw";

pub const LBU: &[u8] = b"lbu";

pub const LHU: &[u8] = b"lhu";

pub const SLLI: &[u8] = b"slli";

pub const SRLI: &[u8] = b"srli";

pub const SRAI: &[u8] = b"srai";

pub const SB: &[u8] = b"sb";

pub const SH: &[u8] = b"sh";

pub const SW: &[u8] = b"sw";

pub const BEQ: &[u8] = b"beq";

pub const BNE: &[u8] = b"bne";

pub const BLT: &[u8] = b"blt";

pub const BGE: &[u8] = b"bge";

pub const BLTU: &[u8] = b"bltu";

pub const BGEU: &[u8] = b"bgeu";

pub const LUI: &[u8] = b"lui";

pub const AUIPC: &[u8] = b"auipc";

pub const JAL: &[u8] = b"jal";

pub const FENCE: &[u8] = b"fence";

pub const ECALL: &[u8] = b"ecall";

pub const EBREAK: &[u8] = b"ebreak";
