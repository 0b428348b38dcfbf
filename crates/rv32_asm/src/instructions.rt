// The words that statements give.

ghost use Rattle.std.specs.Prelude.{◌≡◌, ◌<◌, ◌++◌, [], ◌∷◌, map, not, true, false, pos, replicate, OnOk, IfSome};
ghost use Rattle.std.specs.List.{list_any};
ghost use Rattle.rv32_isa.specs.Listing.{encoded, IsInRange};
ghost use Rattle.rv32_isa.specs.declared.Instr.TheVariants.{Addi, Ecall};
ghost use Rattle.asm_lines.specs.Pieces.{piece_of, operands_among};
ghost use Rattle.asm_lines.specs.Kept.{operand_said, statement_said, spelling};
ghost use Rattle.asm_places.specs.Operands.{fits_low, is_within, registers_in, value_of as value_for};
ghost use Rattle.asm_causes.specs.Causes.{branch_reaches, jump_reaches, is_register, has_constant_out_of_range, has_far_target};
ghost use Rattle.asm_places.specs.NamesView.{known_in};
ghost use Rattle.rv32_asm.specs.Instructions as instructions;

use asm_causes::{distance, space_size};
use asm_lines::{Operand, Piece, Span, Statement, make_piece};
use asm_places::{
    LinePlaces, Meaning, Names, Place, constant_of, fits_low, meaning, value_of, word_of,
};
use rv32_isa::{
    AloneOp, BranchOp, ImmediateOp, Instr, RegisterOp, ShiftOp, StoreOp, UpperOp, encode,
};
use std::alloc::AllocError;
use text_lex::Token;

fn of_registers(op: RegisterOp, rd: u8, rs1: u8, rs2: u8) -> Instr
    requires rd { rd < 32 }
    requires rs1 { rs1 < 32 }
    requires rs2 { rs2 < 32 }
    ensures value { result ≡ instructions.of_registers op rd rs1 rs2 }
    ensures range { IsInRange result }
{
    match op {
        RegisterOp::Add => Instr::Add { rd, rs1, rs2 },
        RegisterOp::Sub => Instr::Sub { rd, rs1, rs2 },
        RegisterOp::Sll => Instr::Sll { rd, rs1, rs2 },
        RegisterOp::Slt => Instr::Slt { rd, rs1, rs2 },
        RegisterOp::Sltu => Instr::Sltu { rd, rs1, rs2 },
        RegisterOp::Xor => Instr::Xor { rd, rs1, rs2 },
        RegisterOp::Srl => Instr::Srl { rd, rs1, rs2 },
        RegisterOp::Sra => Instr::Sra { rd, rs1, rs2 },
        RegisterOp::Or => Instr::Or { rd, rs1, rs2 },
        RegisterOp::And => Instr::And { rd, rs1, rs2 },
        RegisterOp::Mul => Instr::Mul { rd, rs1, rs2 },
        RegisterOp::Mulh => Instr::Mulh { rd, rs1, rs2 },
        RegisterOp::Mulhsu => Instr::Mulhsu { rd, rs1, rs2 },
        RegisterOp::Mulhu => Instr::Mulhu { rd, rs1, rs2 },
        RegisterOp::Div => Instr::Div { rd, rs1, rs2 },
        RegisterOp::Divu => Instr::Divu { rd, rs1, rs2 },
        RegisterOp::Rem => Instr::Rem { rd, rs1, rs2 },
        RegisterOp::Remu => Instr::Remu { rd, rs1, rs2 },
    }
}

fn of_immediate(op: ImmediateOp, rd: u8, rs1: u8, imm: i32) -> Instr
    requires rd { rd < 32 }
    requires rs1 { rs1 < 32 }
    requires low { fits_low imm ≡ true }
    ensures value { result ≡ instructions.of_immediate op rd rs1 imm }
    ensures range { IsInRange result }
{
    match op {
        ImmediateOp::Addi => Instr::Addi { rd, rs1, imm },
        ImmediateOp::Slti => Instr::Slti { rd, rs1, imm },
        ImmediateOp::Sltiu => Instr::Sltiu { rd, rs1, imm },
        ImmediateOp::Xori => Instr::Xori { rd, rs1, imm },
        ImmediateOp::Ori => Instr::Ori { rd, rs1, imm },
        ImmediateOp::Andi => Instr::Andi { rd, rs1, imm },
        ImmediateOp::Jalr => Instr::Jalr { rd, rs1, imm },
        ImmediateOp::Lb => Instr::Lb { rd, rs1, imm },
        ImmediateOp::Lh => Instr::Lh { rd, rs1, imm },
        ImmediateOp::Lw => Instr::Lw { rd, rs1, imm },
        ImmediateOp::Lbu => Instr::Lbu { rd, rs1, imm },
        ImmediateOp::Lhu => Instr::Lhu { rd, rs1, imm },
    }
}

fn of_shift(op: ShiftOp, rd: u8, rs1: u8, imm: i32) -> Instr
    requires rd { rd < 32 }
    requires rs1 { rs1 < 32 }
    requires small { is_within (pos 0) (pos 31) imm ≡ true }
    ensures value { result ≡ instructions.of_shift op rd rs1 imm }
    ensures range { IsInRange result }
{
    match op {
        ShiftOp::Slli => Instr::Slli { rd, rs1, imm },
        ShiftOp::Srli => Instr::Srli { rd, rs1, imm },
        ShiftOp::Srai => Instr::Srai { rd, rs1, imm },
    }
}

fn of_store(op: StoreOp, rs1: u8, rs2: u8, imm: i32) -> Instr
    requires rs1 { rs1 < 32 }
    requires rs2 { rs2 < 32 }
    requires low { fits_low imm ≡ true }
    ensures value { result ≡ instructions.of_store op rs1 rs2 imm }
    ensures range { IsInRange result }
{
    match op {
        StoreOp::Sb => Instr::Sb { rs1, rs2, imm },
        StoreOp::Sh => Instr::Sh { rs1, rs2, imm },
        StoreOp::Sw => Instr::Sw { rs1, rs2, imm },
    }
}

fn of_branch(op: BranchOp, rs1: u8, rs2: u8, imm: i32) -> Instr
    requires rs1 { rs1 < 32 }
    requires rs2 { rs2 < 32 }
    requires reach { branch_reaches imm ≡ true }
    ensures value { result ≡ instructions.of_branch op rs1 rs2 imm }
    ensures range { IsInRange result }
{
    match op {
        BranchOp::Beq => Instr::Beq { rs1, rs2, imm },
        BranchOp::Bne => Instr::Bne { rs1, rs2, imm },
        BranchOp::Blt => Instr::Blt { rs1, rs2, imm },
        BranchOp::Bge => Instr::Bge { rs1, rs2, imm },
        BranchOp::Bltu => Instr::Bltu { rs1, rs2, imm },
        BranchOp::Bgeu => Instr::Bgeu { rs1, rs2, imm },
    }
}

fn of_upper(op: UpperOp, rd: u8, imm: i32) -> Instr
    requires rd { rd < 32 }
    requires upper { is_within (pos 0) (pos 1048575) imm ≡ true }
    ensures value { result ≡ instructions.of_upper op rd imm }
    ensures range { IsInRange result }
{
    match op {
        UpperOp::Lui => Instr::Lui { rd, imm },
        UpperOp::Auipc => Instr::Auipc { rd, imm },
    }
}

fn of_alone(op: AloneOp) -> Instr
    ensures value { result ≡ instructions.of_alone op }
    ensures range { IsInRange result }
{
    match op {
        AloneOp::Fence => Instr::Fence {
            rd: 0,
            rs1: 0,
            imm: 255,
        },
        AloneOp::Ecall => Instr::Ecall,
        AloneOp::Ebreak => Instr::Ebreak,
    }
}

fn low_part(value: u32) -> i32
    ensures { result ≡ instructions.low_part value }
{
    let low = (value % 4096) as i32;
    if low < 2048 { low } else { low - 4096 }
}

fn high_part(value: u32) -> u32
    ensures value { result ≡ instructions.high_part value }
    ensures small { result < 1048576 }
{
    (value / 4096 + value / 2048 % 2) % 0x10_0000
}

fn register_of(register: Option<u8>) -> u8
    requires { is_register register ≡ true }
    ensures value { result ≡ instructions.register_of register }
    ensures range { result < 32 }
{
    register.unwrap_or(0)
}

fn constant(text: &[u8], names: &Names, operand: Operand) -> i64
    ensures { result ≡ instructions.constant (known_in names.now) (operand_said text.now operand) }
{
    constant_of(text, names, operand).unwrap_or(0)
}

// A constant that an immediate of 12 bits holds.
fn low_constant(text: &[u8], names: &Names, operand: Operand) -> i32
    requires { fits_low (instructions.constant (known_in names.now) (operand_said text.now operand)) ≡ true }
    ensures { result ≡ instructions.constant (known_in names.now) (operand_said text.now operand) }
{
    constant(text, names, operand) as i32
}

// A constant that the upper 20 bits hold.
fn upper_constant(text: &[u8], names: &Names, operand: Operand) -> i32
    requires { is_within (pos 0) (pos 1048575) (instructions.constant (known_in names.now) (operand_said text.now operand)) ≡ true }
    ensures { result ≡ instructions.constant (known_in names.now) (operand_said text.now operand) }
{
    constant(text, names, operand) as i32
}

// A constant that 5 bits hold.
fn shift_constant(text: &[u8], names: &Names, operand: Operand) -> i32
    requires { is_within (pos 0) (pos 31) (instructions.constant (known_in names.now) (operand_said text.now operand)) ≡ true }
    ensures { result ≡ instructions.constant (known_in names.now) (operand_said text.now operand) }
{
    constant(text, names, operand) as i32
}

fn distance_to(places: &LinePlaces, from: Place, target: Option<Meaning>) -> i128
    ensures { result ≡ instructions.distance_to places.now from target }
{
    match target {
        Some(Meaning::Label(line)) => distance(from, places.at(line)),
        _ => 0,
    }
}

// The distance to a target that a branch reaches.
fn branch_distance(
    text: &[u8],
    names: &Names,
    places: &LinePlaces,
    from: Place,
    target: Span,
) -> i32
    requires { branch_reaches (instructions.target_distance (known_in names.now) places.now from (spelling text.now target)) ≡ true }
    ensures { result ≡ instructions.target_distance (known_in names.now) places.now from (spelling text.now target) }
{
    distance_to(places, from, meaning(text, names, target)) as i32
}

// The distance to a target that a jump reaches.
fn jump_distance(text: &[u8], names: &Names, places: &LinePlaces, from: Place, target: Span) -> i32
    requires { jump_reaches (instructions.target_distance (known_in names.now) places.now from (spelling text.now target)) ≡ true }
    ensures { result ≡ instructions.target_distance (known_in names.now) places.now from (spelling text.now target) }
{
    distance_to(places, from, meaning(text, names, target)) as i32
}

// Adds the word of an instruction.
fn push_instr(words: &mut Vec<u32>, instr: Instr) -> Result<(), AllocError>
    requires { IsInRange instr }
    ensures { OnOk result (words.new.items ≡ words.old.items ++ encoded instr ∷ []) }
{
    words.push(encode(&instr))?;
    Ok(())
}

// Adds the two words that load a word to a register.
fn push_load(words: &mut Vec<u32>, rd: u8, value: u32) -> Result<(), AllocError>
    requires { rd < 32 }
    ensures { OnOk result (words.new.items ≡ words.old.items ++ map encoded (instructions.load_word rd value)) }
{
    let imm = high_part(value) as i32;
    push_instr(words, Instr::Lui { rd, imm })?;
    let imm = low_part(value);
    push_instr(words, Instr::Addi { rd, rs1: rd, imm })
}

// Adds the words of `li`.
fn push_constant(words: &mut Vec<u32>, rd: u8, value: i64) -> Result<(), AllocError>
    requires { rd < 32 }
    ensures { OnOk result (words.new.items ≡ words.old.items ++ map encoded (instructions.load_constant rd value)) }
{
    if fits_low(value) {
        let imm = value as i32;
        push_instr(words, Instr::Addi { rd, rs1: 0, imm })
    } else {
        push_load(words, rd, word_of(value))
    }
}

// Adds the words of `os`.
fn push_call(words: &mut Vec<u32>, number: u8) -> Result<(), AllocError>
    ensures { OnOk result (words.new.items ≡ words.old.items ++ map encoded (Addi 17 0 (pos number) ∷ Ecall ∷ [])) }
{
    let imm = i32::from(number);
    push_instr(
        words,
        Instr::Addi {
            rd: 17,
            rs1: 0,
            imm,
        },
    )?;
    push_instr(words, Instr::Ecall)
}

// Adds the values among some tokens.
fn push_values(
    words: &mut Vec<u32>,
    text: &[u8],
    names: &Names,
    places: &LinePlaces,
    tokens: &[Token],
) -> Result<(), AllocError>
    ensures { OnOk result (words.new.items ≡ words.old.items ++ map (value_for (known_in names.now) places.now) (operands_among (map (piece_of text.now) tokens.now))) }
{
    for token in tokens {
        if let Piece::Is(operand) = make_piece(token) {
            words.push(value_of(text, names, places, operand))?;
        }
    }
    Ok(())
}

// Adds so many words of 0.
fn push_zeros(words: &mut Vec<u32>, count: u64) -> Result<(), AllocError>
    ensures { OnOk result (words.new.items ≡ words.old.items ++ replicate count 0) }
{
    let mut left = count;
    while left > 0 {
        words.push(0)?;
        left -= 1;
    }
    Ok(())
}

// The instruction that a statement gives alone.
fn instruction(
    text: &[u8],
    names: &Names,
    places: &LinePlaces,
    from: Place,
    statement: &Statement,
) -> Option<Instr>
    requires registers { list_any (λ r. not (is_register r)) (registers_in (statement_said text.now statement.now)) ≡ false }
    requires constant { has_constant_out_of_range (known_in names.now) (statement_said text.now statement.now) ≡ false }
    requires target { has_far_target (known_in names.now) places.now from (statement_said text.now statement.now) ≡ false }
    ensures value { result ≡ instructions.instruction (known_in names.now) places.now from (statement_said text.now statement.now) }
    ensures range { IfSome result IsInRange }
{
    match statement {
        Statement::Registers(op, d, s, t) => {
            let rd = register_of(*d);
            Some(of_registers(*op, rd, register_of(*s), register_of(*t)))
        }
        Statement::Immediate(op, d, s, constant) => {
            let imm = low_constant(text, names, *constant);
            Some(of_immediate(*op, register_of(*d), register_of(*s), imm))
        }
        Statement::Shift(op, d, s, constant) => {
            let imm = shift_constant(text, names, *constant);
            Some(of_shift(*op, register_of(*d), register_of(*s), imm))
        }
        Statement::Store(op, t, s, constant) => {
            let imm = low_constant(text, names, *constant);
            Some(of_store(*op, register_of(*s), register_of(*t), imm))
        }
        Statement::Branch(op, s, t, target) => {
            let imm = branch_distance(text, names, places, from, *target);
            Some(of_branch(*op, register_of(*s), register_of(*t), imm))
        }
        Statement::Upper(op, d, constant) => {
            let imm = upper_constant(text, names, *constant);
            Some(of_upper(*op, register_of(*d), imm))
        }
        Statement::Jump(d, target) => {
            let rd = register_of(*d);
            let imm = jump_distance(text, names, places, from, *target);
            Some(Instr::Jal { rd, imm })
        }
        Statement::Alone(op) => Some(of_alone(*op)),
        _ => None,
    }
}

/// Adds the words that a statement gives.
pub fn push_words(
    words: &mut Vec<u32>,
    text: &[u8],
    names: &Names,
    places: &LinePlaces,
    from: Place,
    statement: &Statement,
) -> Result<(), AllocError>
    requires registers { list_any (λ r. not (is_register r)) (registers_in (statement_said text.now statement.now)) ≡ false }
    requires constant { has_constant_out_of_range (known_in names.now) (statement_said text.now statement.now) ≡ false }
    requires target { has_far_target (known_in names.now) places.now from (statement_said text.now statement.now) ≡ false }
    ensures { OnOk result (words.new.items ≡ words.old.items ++ instructions.words (known_in names.now) places.now from (statement_said text.now statement.now)) }
{
    match statement {
        Statement::Words(listed) => push_values(words, text, names, places, listed.tokens()),
        Statement::Space(constant) => {
            let size = space_size(constant_of(text, names, *constant));
            push_zeros(words, size / 4)
        }
        Statement::LoadConstant(d, operand) => {
            push_constant(words, register_of(*d), constant(text, names, *operand))
        }
        Statement::LoadValue(d, value) => {
            let value = value_of(text, names, places, *value);
            push_load(words, register_of(*d), value)
        }
        Statement::CallService(number) => push_call(words, *number),
        _ => {
            if let Some(instr) = instruction(text, names, places, from, statement) {
                push_instr(words, instr)?;
            }
            Ok(())
        }
    }
}
