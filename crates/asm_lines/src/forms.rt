// The forms of the statements: what the pieces after the first word of a line have to be.

ghost use Rattle.std.specs.Prelude.{◌≡◌, ◌<◌, ◌^◌, length, slice_index_or, IfOk};
ghost use Rattle.asm_lines.specs.KeptForms as forms;

use crate::fields::{Fields, Listed};
use crate::mnemonics::{Head, Pseudo};
use crate::pieces::{Operand, Piece, Span, spelling};
use crate::registers::register_number;
use crate::statements::Statement;
use crate::tables::entry;
use crate::words::{key_of, service_number};
use kern_base::Kind;
use rv32_isa::{AloneOp, BranchOp, ImmediateOp, RegisterOp, ShiftOp, StoreOp, UpperOp};
use std::alloc::{AllocError, Global};
use text_lex::Token;

const ZERO: Operand = Operand::Number(0);

const ZERO_REGISTER: Option<u8> = Some(0);

const LINK_REGISTER: Option<u8> = Some(1);

fn register(text: &[u8], name: Span) -> Option<u8>
    ensures { result ≡ forms.register text.now name }
{
    register_number(spelling(text, name))
}

// rd, rs1, rs2
fn register_form(text: &[u8], op: RegisterOp, pieces: &[Piece]) -> Option<Statement<'static>>
    ensures { result ≡ forms.register_form text.now op pieces.now }
{
    match pieces {
        [
            Piece::Is(Operand::Named(d)),
            Piece::Comma,
            Piece::Is(Operand::Named(s)),
            Piece::Comma,
            Piece::Is(Operand::Named(t)),
        ] => Some(Statement::Registers(
            op,
            register(text, *d),
            register(text, *s),
            register(text, *t),
        )),
        _ => None,
    }
}

// rd, rs1, constant
fn immediate_form(text: &[u8], op: ImmediateOp, pieces: &[Piece]) -> Option<Statement<'static>>
    ensures { result ≡ forms.immediate_form text.now op pieces.now }
{
    match pieces {
        [
            Piece::Is(Operand::Named(d)),
            Piece::Comma,
            Piece::Is(Operand::Named(s)),
            Piece::Comma,
            Piece::Is(constant),
        ] => Some(Statement::Immediate(op, register(text, *d), register(text, *s), *constant)),
        _ => None,
    }
}

// rd, rs1, constant
fn shift_form(text: &[u8], op: ShiftOp, pieces: &[Piece]) -> Option<Statement<'static>>
    ensures { result ≡ forms.shift_form text.now op pieces.now }
{
    match pieces {
        [
            Piece::Is(Operand::Named(d)),
            Piece::Comma,
            Piece::Is(Operand::Named(s)),
            Piece::Comma,
            Piece::Is(constant),
        ] => Some(Statement::Shift(op, register(text, *d), register(text, *s), *constant)),
        _ => None,
    }
}

// rd, constant(rs1)
fn load_form(text: &[u8], op: ImmediateOp, pieces: &[Piece]) -> Option<Statement<'static>>
    ensures { result ≡ forms.load_form text.now op pieces.now }
{
    match pieces {
        [
            Piece::Is(Operand::Named(d)),
            Piece::Comma,
            Piece::Is(constant),
            Piece::Open,
            Piece::Is(Operand::Named(s)),
            Piece::Close,
        ] => Some(Statement::Immediate(op, register(text, *d), register(text, *s), *constant)),
        [
            Piece::Is(Operand::Named(d)),
            Piece::Comma,
            Piece::Open,
            Piece::Is(Operand::Named(s)),
            Piece::Close,
        ] => Some(Statement::Immediate(op, register(text, *d), register(text, *s), ZERO)),
        _ => None,
    }
}

// rs2, constant(rs1)
fn store_form(text: &[u8], op: StoreOp, pieces: &[Piece]) -> Option<Statement<'static>>
    ensures { result ≡ forms.store_form text.now op pieces.now }
{
    match pieces {
        [
            Piece::Is(Operand::Named(t)),
            Piece::Comma,
            Piece::Is(constant),
            Piece::Open,
            Piece::Is(Operand::Named(s)),
            Piece::Close,
        ] => Some(Statement::Store(op, register(text, *t), register(text, *s), *constant)),
        [
            Piece::Is(Operand::Named(t)),
            Piece::Comma,
            Piece::Open,
            Piece::Is(Operand::Named(s)),
            Piece::Close,
        ] => Some(Statement::Store(op, register(text, *t), register(text, *s), ZERO)),
        _ => None,
    }
}

// rs1, rs2, label
fn branch_form(text: &[u8], op: BranchOp, pieces: &[Piece]) -> Option<Statement<'static>>
    ensures { result ≡ forms.branch_form text.now op pieces.now }
{
    match pieces {
        [
            Piece::Is(Operand::Named(s)),
            Piece::Comma,
            Piece::Is(Operand::Named(t)),
            Piece::Comma,
            Piece::Is(Operand::Named(target)),
        ] => Some(Statement::Branch(op, register(text, *s), register(text, *t), *target)),
        _ => None,
    }
}

// rd, constant
fn upper_form(text: &[u8], op: UpperOp, pieces: &[Piece]) -> Option<Statement<'static>>
    ensures { result ≡ forms.upper_form text.now op pieces.now }
{
    match pieces {
        [
            Piece::Is(Operand::Named(d)),
            Piece::Comma,
            Piece::Is(constant),
        ] => { Some(Statement::Upper(op, register(text, *d), *constant)) }
        _ => None,
    }
}

// rd, label
fn jump_form(text: &[u8], pieces: &[Piece]) -> Option<Statement<'static>>
    ensures { result ≡ forms.jump_form text.now pieces.now }
{
    match pieces {
        [
            Piece::Is(Operand::Named(d)),
            Piece::Comma,
            Piece::Is(Operand::Named(target)),
        ] => { Some(Statement::Jump(register(text, *d), *target)) }
        _ => None,
    }
}

// nothing
fn alone_form<'a>(statement: Statement<'a>, pieces: &[Piece]) -> Option<Statement<'a>>
    ensures { result ≡ forms.alone_form statement.entry pieces.now }
{
    match pieces {
        [] => Some(statement),
        _ => None,
    }
}

// rd, rs of a pseudo-instruction
fn two_form(text: &[u8], pseudo: Pseudo, pieces: &[Piece]) -> Option<Statement<'static>>
    ensures { result ≡ forms.two_form text.now pseudo pieces.now }
{
    match pieces {
        [
            Piece::Is(Operand::Named(d)),
            Piece::Comma,
            Piece::Is(Operand::Named(s)),
        ] => { of_two(pseudo, register(text, *d), register(text, *s)) }
        _ => None,
    }
}

// What stands for a pseudo-instruction on two registers.
fn of_two(pseudo: Pseudo, d: Option<u8>, s: Option<u8>) -> Option<Statement<'static>>
    ensures { result ≡ forms.of_two pseudo d s }
{
    match pseudo {
        Pseudo::Mv => Some(Statement::Immediate(ImmediateOp::Addi, d, s, ZERO)),
        Pseudo::Not => Some(Statement::Immediate(ImmediateOp::Xori, d, s, Operand::Number(-1))),
        Pseudo::Neg => Some(Statement::Registers(RegisterOp::Sub, d, ZERO_REGISTER, s)),
        Pseudo::Seqz => Some(Statement::Immediate(ImmediateOp::Sltiu, d, s, Operand::Number(1))),
        Pseudo::Snez => Some(Statement::Registers(RegisterOp::Sltu, d, ZERO_REGISTER, s)),
        _ => None,
    }
}

// rs, label of a pseudo-instruction
fn target_form(text: &[u8], pseudo: Pseudo, pieces: &[Piece]) -> Option<Statement<'static>>
    ensures { result ≡ forms.target_form text.now pseudo pieces.now }
{
    match pieces {
        [
            Piece::Is(Operand::Named(s)),
            Piece::Comma,
            Piece::Is(Operand::Named(target)),
        ] => { of_target(pseudo, register(text, *s), *target) }
        _ => None,
    }
}

// What stands for a pseudo-instruction on a register and a label.
fn of_target(pseudo: Pseudo, s: Option<u8>, target: Span) -> Option<Statement<'static>>
    ensures { result ≡ forms.of_target pseudo s target }
{
    match pseudo {
        Pseudo::Beqz => Some(Statement::Branch(BranchOp::Beq, s, ZERO_REGISTER, target)),
        Pseudo::Bnez => Some(Statement::Branch(BranchOp::Bne, s, ZERO_REGISTER, target)),
        _ => None,
    }
}

// label, for a jump that links in a register
fn go_form(link: Option<u8>, pieces: &[Piece]) -> Option<Statement<'static>>
    ensures { result ≡ forms.go_form link pieces.now }
{
    match pieces {
        [Piece::Is(Operand::Named(target))] => Some(Statement::Jump(link, *target)),
        _ => None,
    }
}

// rs
fn return_form(text: &[u8], pieces: &[Piece]) -> Option<Statement<'static>>
    ensures { result ≡ forms.return_form text.now pieces.now }
{
    match pieces {
        [Piece::Is(Operand::Named(s))] => {
            Some(Statement::Immediate(ImmediateOp::Jalr, ZERO_REGISTER, register(text, *s), ZERO))
        }
        _ => None,
    }
}

// rd, constant
fn load_constant_form(text: &[u8], pieces: &[Piece]) -> Option<Statement<'static>>
    ensures { result ≡ forms.load_constant_form text.now pieces.now }
{
    match pieces {
        [
            Piece::Is(Operand::Named(d)),
            Piece::Comma,
            Piece::Is(constant),
        ] => { Some(Statement::LoadConstant(register(text, *d), *constant)) }
        _ => None,
    }
}

// rd, value
fn load_value_form(text: &[u8], pieces: &[Piece]) -> Option<Statement<'static>>
    ensures { result ≡ forms.load_value_form text.now pieces.now }
{
    match pieces {
        [Piece::Is(Operand::Named(d)), Piece::Comma, Piece::Is(value)] => {
            Some(Statement::LoadValue(register(text, *d), *value))
        }
        _ => None,
    }
}

// the name of a service
fn service_form(text: &[u8], pieces: &[Piece]) -> Option<Statement<'static>>
    ensures { result ≡ forms.service_form text.now pieces.now }
{
    match pieces {
        [Piece::Is(Operand::Named(service))] => {
            let number = service_number(spelling(text, *service))?;
            Some(Statement::CallService(number))
        }
        _ => None,
    }
}

fn pseudo_form(text: &[u8], pseudo: Pseudo, pieces: &[Piece]) -> Option<Statement<'static>>
    ensures { result ≡ forms.pseudo_form text.now pseudo pieces.now }
{
    match pseudo {
        Pseudo::Nop => alone_form(
            Statement::Immediate(ImmediateOp::Addi, ZERO_REGISTER, ZERO_REGISTER, ZERO),
            pieces,
        ),
        Pseudo::Mv | Pseudo::Not | Pseudo::Neg | Pseudo::Seqz | Pseudo::Snez => {
            two_form(text, pseudo, pieces)
        }
        Pseudo::Beqz | Pseudo::Bnez => target_form(text, pseudo, pieces),
        Pseudo::J => go_form(ZERO_REGISTER, pieces),
        Pseudo::Call => go_form(LINK_REGISTER, pieces),
        Pseudo::Jr => return_form(text, pieces),
        Pseudo::Ret => alone_form(
            Statement::Immediate(ImmediateOp::Jalr, ZERO_REGISTER, LINK_REGISTER, ZERO),
            pieces,
        ),
        Pseudo::Li => load_constant_form(text, pieces),
        Pseudo::La => load_value_form(text, pieces),
        Pseudo::Os => service_form(text, pieces),
    }
}

/// The statement that begins with this head and goes on with these pieces, or None where they are not
/// its form. The pieces are those of the tokens.
pub fn form<'a>(
    alloc: Global,
    text: &[u8],
    tokens: &'a [Token],
    head: Head,
    pieces: &[Piece],
) -> Result<Option<Statement<'a>>, AllocError>
    requires { length tokens.now < 2 ^ 32 }
    ensures { IfOk result (λ made. made ≡ forms.form text.now tokens.now head pieces.now) }
{
    match head {
        Head::Registers(op) => Ok(register_form(text, op, pieces)),
        Head::Immediate(op) => Ok(immediate_form(text, op, pieces)),
        Head::Load(op) => Ok(load_form(text, op, pieces)),
        Head::Shift(op) => Ok(shift_form(text, op, pieces)),
        Head::Store(op) => Ok(store_form(text, op, pieces)),
        Head::Branch(op) => Ok(branch_form(text, op, pieces)),
        Head::Upper(op) => Ok(upper_form(text, op, pieces)),
        Head::Jump => Ok(jump_form(text, pieces)),
        Head::Alone(op) => Ok(alone_form(Statement::Alone(op), pieces)),
        Head::Pseudo(pseudo) => Ok(pseudo_form(text, pseudo, pieces)),
        Head::Section(section) => Ok(alone_form(Statement::Section(section), pieces)),
        Head::Word => Ok(word_form(tokens, pieces)),
        Head::Space => Ok(space_form(pieces)),
        Head::Equ => Ok(equ_form(pieces)),
        Head::Task => task_form(alloc, pieces),
        Head::Object(kind) => object_form(alloc, kind, pieces),
        Head::Mutex => mutex_form(alloc, pieces),
        Head::Timer => timer_form(alloc, text, pieces),
        Head::Vector => vector_form(alloc, pieces),
        Head::Config => Ok(config_form(text, pieces)),
        Head::Inject => Ok(alone_form(Statement::Inject, pieces)),
    }
}

// One or more values with commas between them.
fn are_values(pieces: &[Piece]) -> bool
    ensures { result ≡ forms.are_values pieces.now }
{
    let mut rest = pieces;
    while let [Piece::Is(_), Piece::Comma, behind @ ..] = rest {
        rest = behind;
    }
    matches!(rest, [Piece::Is(_)])
}

// values
fn word_form<'a>(tokens: &'a [Token], pieces: &[Piece]) -> Option<Statement<'a>>
    requires { length tokens.now < 2 ^ 32 }
    ensures { result ≡ forms.word_form tokens.now pieces.now }
{
    if are_values(pieces) {
        Some(Statement::Words(Listed::new(tokens)))
    } else {
        None
    }
}

// constant
fn space_form(pieces: &[Piece]) -> Option<Statement<'static>>
    ensures { result ≡ forms.space_form pieces.now }
{
    match pieces {
        [Piece::Is(constant)] => Some(Statement::Space(*constant)),
        _ => None,
    }
}

// name, number
fn equ_form(pieces: &[Piece]) -> Option<Statement<'static>>
    ensures { result ≡ forms.equ_form pieces.now }
{
    match pieces {
        [
            Piece::Is(Operand::Named(name)),
            Piece::Comma,
            Piece::Is(Operand::Number(value)),
        ] => { Some(Statement::Equ(*name, *value)) }
        _ => None,
    }
}

// name, entry, priority, quantum, queue size, stack pointer
fn task_form(alloc: Global, pieces: &[Piece]) -> Result<Option<Statement<'static>>, AllocError>
    ensures { IfOk result (λ made. made ≡ forms.task_form pieces.now) }
{
    match pieces {
        [
            Piece::Is(Operand::Named(name)),
            Piece::Comma,
            Piece::Is(entry),
            Piece::Comma,
            Piece::Is(prio),
            Piece::Comma,
            Piece::Is(quanta),
            Piece::Comma,
            Piece::Is(qsize),
            Piece::Comma,
            Piece::Is(sp),
        ] => {
            let fields = Fields::new(alloc, [*entry, *prio, *quanta, *qsize, *sp])?;
            Ok(Some(Statement::Task(*name, fields)))
        }
        _ => Ok(None),
    }
}

// name, count or size or bits
fn object_form(
    alloc: Global,
    kind: Kind,
    pieces: &[Piece],
) -> Result<Option<Statement<'static>>, AllocError>
    ensures { IfOk result (λ made. made ≡ forms.object_form kind pieces.now) }
{
    match pieces {
        [
            Piece::Is(Operand::Named(name)),
            Piece::Comma,
            Piece::Is(value),
        ] => {
            let fields = Fields::new(alloc, [*value, ZERO, ZERO, ZERO])?;
            Ok(Some(Statement::Object(*name, kind, fields)))
        }
        _ => Ok(None),
    }
}

// name
fn mutex_form(alloc: Global, pieces: &[Piece]) -> Result<Option<Statement<'static>>, AllocError>
    ensures { IfOk result (λ made. made ≡ forms.mutex_form pieces.now) }
{
    match pieces {
        [Piece::Is(Operand::Named(name))] => {
            let fields = Fields::new(alloc, [ZERO, ZERO, ZERO, ZERO])?;
            Ok(Some(Statement::Object(*name, Kind::Mutex, fields)))
        }
        _ => Ok(None),
    }
}

static TIMER_KINDS: [(&[u8], Kind); 2] = [
    (b"oneshot", Kind::OneShot),
    (b"periodic", Kind::Periodic),
];

fn timer_kind(word: &[u8]) -> Option<Kind>
    ensures { result ≡ forms.timer_kind word.now }
{
    entry(word, &TIMER_KINDS)
}

// A callback: the word `none` is there never a name, and stands for the greatest word.
fn callback(text: &[u8], operand: Operand) -> Operand
    ensures { result ≡ forms.callback text.now operand }
{
    match operand {
        Operand::Named(name) if spelling(text, name) == b"none".as_slice() => {
            Operand::Number(4_294_967_295)
        }
        _ => operand,
    }
}

// A timer of a kind that stands in a word.
fn timer_of(
    alloc: Global,
    text: &[u8],
    name: Span,
    kind: Operand,
    fields: [Operand; 4],
) -> Result<Option<Statement<'static>>, AllocError>
    ensures { IfOk result (λ made. made ≡ forms.timer_of text.now name kind (slice_index_or fields 0 kind) (slice_index_or fields 1 kind) (slice_index_or fields 2 kind) (slice_index_or fields 3 kind)) }
{
    let Operand::Named(word) = kind else {
        return Ok(None);
    };
    let Some(kind) = timer_kind(spelling(text, word)) else {
        return Ok(None);
    };
    let [delay, period, call, argument] = fields;
    let fields = Fields::new(alloc, [delay, period, callback(text, call), argument])?;
    Ok(Some(Statement::Object(name, kind, fields)))
}

// name, kind, delay, period, callback, argument
fn timer_form(
    alloc: Global,
    text: &[u8],
    pieces: &[Piece],
) -> Result<Option<Statement<'static>>, AllocError>
    ensures { IfOk result (λ made. made ≡ forms.timer_form text.now pieces.now) }
{
    match pieces {
        [
            Piece::Is(Operand::Named(name)),
            Piece::Comma,
            Piece::Is(kind),
            Piece::Comma,
            Piece::Is(delay),
            Piece::Comma,
            Piece::Is(period),
            Piece::Comma,
            Piece::Is(call),
            Piece::Comma,
            Piece::Is(argument),
        ] => timer_of(
            alloc,
            text,
            *name,
            *kind,
            [*delay, *period, *call, *argument],
        ),
        _ => Ok(None),
    }
}

// number, level, entry, stack pointer
fn vector_form(alloc: Global, pieces: &[Piece]) -> Result<Option<Statement<'static>>, AllocError>
    ensures { IfOk result (λ made. made ≡ forms.vector_form pieces.now) }
{
    match pieces {
        [
            Piece::Is(number),
            Piece::Comma,
            Piece::Is(level),
            Piece::Comma,
            Piece::Is(entry),
            Piece::Comma,
            Piece::Is(sp),
        ] => {
            let fields = Fields::new(alloc, [*number, *level, *entry, *sp])?;
            Ok(Some(Statement::Vector(fields)))
        }
        _ => Ok(None),
    }
}

// key, value
fn config_form(text: &[u8], pieces: &[Piece]) -> Option<Statement<'static>>
    ensures { result ≡ forms.config_form text.now pieces.now }
{
    match pieces {
        [
            Piece::Is(Operand::Named(key)),
            Piece::Comma,
            Piece::Is(value),
        ] => { Some(Statement::Setting(key_of(spelling(text, *key)), *value)) }
        _ => None,
    }
}
