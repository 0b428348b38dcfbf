// The line of a code word.

ghost use Rattle.std.specs.Prelude.{◌≡◌, ◌++◌, ◌+◌, ◌*◌, ◌≤◌, ◌<◌, [], unwrap_or};
ghost use Rattle.arrayvec.specs.ArrayVec.{array_vec_len};
ghost use Rattle.rv32_listing.specs.Texts.{word_statement};
ghost use Rattle.rv32_listing.specs.WordLines.{branch_to, code_line, code_statement, form_statement, jump_to, target};

use crate::forms::{Form, form_of};
use crate::pieces::{Line, Operand, push_bytes, push_hexadecimal, push_label, push_statement};
use arrayvec::ArrayVec;
use rv32_isa::{BranchOp, decode, jump_mnemonic};

// Where a branch or a jump goes from an address, if that is a code word, of so many.
fn target(words: u32, address: u32, distance: i32) -> Option<u64>
    ensures { result ≡ target words address distance }
{
    let to = i64::from(address) + i64::from(distance);
    if to < 0 {
        return None;
    }
    let to = to as u64;
    if to % 4 == 0 && to < 4 * u64::from(words) {
        Some(to)
    } else {
        None
    }
}

/// Appends a word of data.
pub fn push_word(line: &mut Line, word: u32)
    requires room { array_vec_len line.old ≤ 60 }
    ensures items { line.new.items ≡ line.old.items ++ word_statement word }
    ensures len { array_vec_len line.new ≡ array_vec_len line.old + 16 }
{
    push_bytes(line, b".word ");
    push_hexadecimal(line, word);
}

// Appends a branch to a label, or the word where it goes to no code word.
fn push_branch(line: &mut Line, to: Option<u64>, word: u32, op: BranchOp, rs1: u8, rs2: u8)
    requires room { array_vec_len line.old ≤ 60 }
    ensures items { line.new.items ≡ line.old.items ++ unwrap_or (branch_to op rs1 rs2 to) (word_statement word) }
    ensures len { array_vec_len line.new ≤ array_vec_len line.old + 64 }
{
    match to {
        Some(address) => push_statement(
            line,
            op.mnemonic(),
            &[
                Operand::Register(rs1),
                Operand::Register(rs2),
                Operand::Label(address),
            ],
        ),
        None => push_word(line, word),
    }
}

// Appends a jump to a label, or the word where it goes to no code word.
fn push_jump(line: &mut Line, to: Option<u64>, word: u32, rd: u8)
    requires room { array_vec_len line.old ≤ 60 }
    ensures items { line.new.items ≡ line.old.items ++ unwrap_or (jump_to rd to) (word_statement word) }
    ensures len { array_vec_len line.new ≤ array_vec_len line.old + 64 }
{
    match to {
        Some(address) => push_statement(
            line,
            jump_mnemonic(),
            &[Operand::Register(rd), Operand::Label(address)],
        ),
        None => push_word(line, word),
    }
}

// Appends a code word in the form of its instruction, or the word where that has no statement.
fn push_form(line: &mut Line, words: u32, address: u32, word: u32, form: Form)
    requires room { array_vec_len line.old ≤ 60 }
    ensures items { line.new.items ≡ line.old.items ++ unwrap_or (form_statement words address form) (word_statement word) }
    ensures len { array_vec_len line.new ≤ array_vec_len line.old + 64 }
{
    use Operand::{Based, Constant, Register};
    match form {
        Form::Registers(op, rd, rs1, rs2) => push_statement(
            line,
            op.mnemonic(),
            &[Register(rd), Register(rs1), Register(rs2)],
        ),
        Form::Immediate(op, rd, rs1, imm) => push_statement(
            line,
            op.mnemonic(),
            &[Register(rd), Register(rs1), Constant(imm)],
        ),
        Form::Load(op, rd, rs1, imm) => {
            push_statement(line, op.mnemonic(), &[Register(rd), Based(imm, rs1)])
        }
        Form::Shift(op, rd, rs1, imm) => push_statement(
            line,
            op.mnemonic(),
            &[Register(rd), Register(rs1), Constant(imm)],
        ),
        Form::Store(op, rs1, rs2, imm) => {
            push_statement(line, op.mnemonic(), &[Register(rs2), Based(imm, rs1)])
        }
        Form::Branch(op, rs1, rs2, distance) => {
            push_branch(line, target(words, address, distance), word, op, rs1, rs2)
        }
        Form::Upper(op, rd, imm) => {
            push_statement(line, op.mnemonic(), &[Register(rd), Constant(imm)])
        }
        Form::Jump(rd, distance) => { push_jump(line, target(words, address, distance), word, rd) }
        Form::Alone(op) => push_statement(line, op.mnemonic(), &[]),
        Form::Unwritten => push_word(line, word),
    }
}

// Appends a code word as a statement.
fn push_code(line: &mut Line, words: u32, address: u32, word: u32)
    requires room { array_vec_len line.old ≤ 60 }
    ensures items { line.new.items ≡ line.old.items ++ code_statement words address word }
    ensures len { array_vec_len line.new ≤ array_vec_len line.old + 64 }
{
    match decode(word) {
        Some(instr) => push_form(line, words, address, word, form_of(word, instr)),
        None => push_word(line, word),
    }
}

/// Writes the line of the code word at an address, of so many code words.
pub fn line_of_word(addr: u32, word: u32, words: u32, out: &mut ArrayVec<u8, 128>)
    requires inside { addr < 4 * words }
    requires empty { out.old.items ≡ [] }
    ensures { out.new.items ≡ code_line words addr word }
{
    push_label(out, u64::from(addr));
    push_bytes(out, b": ");
    push_code(out, words, addr, word);
    out.push(b'\n');
}
