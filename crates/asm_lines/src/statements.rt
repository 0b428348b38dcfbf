// What stands on a line.

use crate::fields::{Fields, Listed};
use crate::mnemonics::Section;
use crate::pieces::{Operand, Span};
use app_image::ConfigKey;
use kern_base::Kind;
use rv32_isa::{AloneOp, BranchOp, ImmediateOp, RegisterOp, ShiftOp, StoreOp, UpperOp};

/// What follows the label of a line. A register is None where a name stands that is no register.
#[derive(Drop)]
pub enum Statement<'a> {
    /// No statement.
    Nothing,
    /// The first token is nothing that a line may begin with.
    Unknown,
    /// What follows the first token is not its form.
    Malformed,
    Section(Section),
    Inject,
    /// `.word`
    Words(Listed<'a>),
    Space(Operand),
    Equ(Span, i64),
    /// Name; entry, priority, quantum, queue size and stack pointer.
    Task(Span, Fields<5>),
    /// Name, kind, and the four fields of its record.
    Object(Span, Kind, Fields<4>),
    /// Number, level, entry and stack pointer.
    Vector(Fields<4>),
    /// None where the key is no setting.
    Setting(Option<ConfigKey>, Operand),
    /// rd, rs1, rs2.
    Registers(RegisterOp, Option<u8>, Option<u8>, Option<u8>),
    /// rd, rs1 and the constant.
    Immediate(ImmediateOp, Option<u8>, Option<u8>, Operand),
    /// rd, rs1 and the constant.
    Shift(ShiftOp, Option<u8>, Option<u8>, Operand),
    /// rs2, rs1 and the constant.
    Store(StoreOp, Option<u8>, Option<u8>, Operand),
    /// rs1, rs2 and the target.
    Branch(BranchOp, Option<u8>, Option<u8>, Span),
    /// rd and the constant.
    Upper(UpperOp, Option<u8>, Operand),
    /// rd and the target.
    Jump(Option<u8>, Span),
    Alone(AloneOp),
    /// `li`: rd and the constant.
    LoadConstant(Option<u8>, Operand),
    /// `la`: rd and the value.
    LoadValue(Option<u8>, Operand),
    /// `os`: the number of the service.
    CallService(u8),
}

/// A line of the text that is not empty.
#[derive(Drop)]
pub struct Line<'a> {
    /// Its number in the text, from 1.
    pub number: u32,
    pub label: Option<Span>,
    pub statement: Statement<'a>,
}
