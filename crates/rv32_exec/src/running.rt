// One instruction.

ghost use Rattle.std.specs.Prelude.{◌≡◌, ◌<◌, ◌≤◌, ◌+◌, ◌-◌, ◌*◌, ◌/◌, ◌%◌, ◌^◌, ℕ, List, IfSome, slice_get, bit_and, bit_or, bit_xor};
ghost use Rattle.rv32_isa.specs.Listing.{IsInRange};
ghost use Rattle.rv32_isa.specs.Decoded.{decoded};
ghost use Rattle.rv32_isa.specs.Formats.{unsigned};
ghost use Rattle.rv32_exec.specs.Registers.{IsRegisters, read, written};
ghost use Rattle.rv32_exec.specs.Memory.{IsMemory, IsWidth, IsPartWidth};
ghost use Rattle.rv32_exec.specs.Words.{sum};
ghost use Rattle.rv32_exec.specs.Exec.{IsExecution, IsOutcome, traps, goes_on, computes, links, branches, loads, loads_signed, stores, acts, fetched, exec};

use crate::memory::allows;
use crate::words::{
    extended, high_product, less_signed, long, low_bytes, quotient, quotient_signed, remainder,
    remainder_signed, shifted_left, shifted_right_signed,
};
use crate::{Ram, Regs, Stepped, TrapKind};
use rv32_isa::{Instr, decode};

// Nothing changed.
pub(crate) fn trap(kind: TrapKind, regs: &Regs) -> Stepped
    ensures { IsOutcome regs.now result (traps kind regs.now) }
{
    Stepped::Trap(kind, regs.pc())
}

// On to the next word.
#[inline(always)]
fn go_on(regs: &mut Regs)
    ensures { regs.new ≡ record regs.old { pc = sum regs.old.pc 4 } }
{
    regs.set_pc(regs.pc().wrapping_add(4));
}

// A value into a register, and on.
#[inline(always)]
fn compute(rd: u8, value: u32, regs: &mut Regs) -> Stepped
    requires { rd < 32 }
    ensures { IsOutcome regs.new result (computes rd value regs.old) }
{
    regs.set(rd, value);
    go_on(regs);
    Stepped::Next
}

// A jump that writes the address of the next word into a register.
#[inline(always)]
fn link(rd: u8, target: u32, regs: &mut Regs) -> Stepped
    requires { rd < 32 }
    ensures { IsOutcome regs.new result (links rd target regs.old) }
{
    if !target.is_multiple_of(4) {
        return trap(TrapKind::Jump, regs);
    }
    regs.set(rd, regs.pc().wrapping_add(4));
    regs.set_pc(target);
    Stepped::Next
}

// A jump where the test holds.
#[inline(always)]
fn branch(taken: bool, imm: i32, regs: &mut Regs) -> Stepped
    ensures { IsOutcome regs.new result (branches taken imm regs.old) }
{
    if !taken {
        go_on(regs);
        return Stepped::Next;
    }
    let target = regs.pc().wrapping_add(imm.cast_unsigned());
    if !target.is_multiple_of(4) {
        return trap(TrapKind::Jump, regs);
    }
    regs.set_pc(target);
    Stepped::Next
}

// So many bytes from the RAM into a register, with zeros above them.
#[inline(always)]
fn load(width: u32, rd: u8, addr: u32, regs: &mut Regs, ram: &Ram) -> Stepped
    requires register { rd < 32 }
    requires width { IsWidth width }
    ensures { IsOutcome regs.new result (loads width rd addr regs.old ram.now) }
{
    if !allows(addr, width) {
        return trap(TrapKind::Load, regs);
    }
    compute(rd, ram.load(addr, width), regs)
}

// So many bytes from the RAM into a register, with their sign copied.
#[inline(always)]
fn load_signed(width: u32, rd: u8, addr: u32, regs: &mut Regs, ram: &Ram) -> Stepped
    requires register { rd < 32 }
    requires part { IsPartWidth width }
    ensures { IsOutcome regs.new result (loads_signed width rd addr regs.old ram.now) }
{
    if !allows(addr, width) {
        return trap(TrapKind::Load, regs);
    }
    compute(rd, extended(8 * width, ram.load(addr, width)), regs)
}

// The low bytes of a word into the RAM.
#[inline(always)]
fn store(width: u8, addr: u32, word: u32, regs: &mut Regs, ram: &mut Ram) -> Stepped
    requires { IsWidth width }
    ensures { IsExecution regs.new ram.new result (stores width addr word regs.old ram.old) }
{
    if !allows(addr, u32::from(width)) {
        return trap(TrapKind::Store, regs);
    }
    let value = low_bytes(word, width);
    ram.store(addr, width, value);
    go_on(regs);
    Stepped::Stored { addr, width, value }
}

// The sum of a register and an immediate.
#[inline(always)]
fn address(rs1: u8, imm: i32, regs: &Regs) -> u32
    requires { rs1 < 32 }
    ensures { result ≡ sum (read regs.now rs1) (unsigned imm) }
{
    regs.get(rs1).wrapping_add(imm.cast_unsigned())
}

// An instruction: one table of all of them, so that a step is one jump.
#[inline(always)]
pub(crate) fn act(instr: Instr, regs: &mut Regs, ram: &mut Ram) -> Stepped
    requires { IsInRange instr }
    ensures { IsExecution regs.new ram.new result (acts instr regs.old ram.old) }
{
    match instr {
        Instr::Lui { rd, imm } => compute(rd, imm.cast_unsigned() << 12, regs),
        Instr::Auipc { rd, imm } => compute(
            rd,
            regs.pc().wrapping_add(imm.cast_unsigned() << 12),
            regs,
        ),
        Instr::Jal { rd, imm } => link(rd, regs.pc().wrapping_add(imm.cast_unsigned()), regs),
        Instr::Jalr { rd, rs1, imm } => {
            let target = address(rs1, imm, regs);
            link(rd, target - target % 2, regs)
        }
        Instr::Beq { rs1, rs2, imm } => branch(regs.get(rs1) == regs.get(rs2), imm, regs),
        Instr::Bne { rs1, rs2, imm } => branch(regs.get(rs1) != regs.get(rs2), imm, regs),
        Instr::Blt { rs1, rs2, imm } => branch(
            less_signed(regs.get(rs1), regs.get(rs2)),
            imm,
            regs,
        ),
        Instr::Bge { rs1, rs2, imm } => branch(
            !less_signed(regs.get(rs1), regs.get(rs2)),
            imm,
            regs,
        ),
        Instr::Bltu { rs1, rs2, imm } => branch(regs.get(rs1) < regs.get(rs2), imm, regs),
        Instr::Bgeu { rs1, rs2, imm } => branch(regs.get(rs1) >= regs.get(rs2), imm, regs),
        Instr::Fence { .. } => {
            go_on(regs);
            Stepped::Next
        }
        Instr::Ecall => {
            go_on(regs);
            Stepped::Call
        }
        Instr::Ebreak => trap(TrapKind::Break, regs),
        Instr::Lb { rd, rs1, imm } => load_signed(1, rd, address(rs1, imm, regs), regs, ram),
        Instr::Lh { rd, rs1, imm } => load_signed(2, rd, address(rs1, imm, regs), regs, ram),
        Instr::Lw { rd, rs1, imm } => load(4, rd, address(rs1, imm, regs), regs, ram),
        Instr::Lbu { rd, rs1, imm } => load(1, rd, address(rs1, imm, regs), regs, ram),
        Instr::Lhu { rd, rs1, imm } => load(2, rd, address(rs1, imm, regs), regs, ram),
        Instr::Sb { rs1, rs2, imm } => store(1, address(rs1, imm, regs), regs.get(rs2), regs, ram),
        Instr::Sh { rs1, rs2, imm } => store(2, address(rs1, imm, regs), regs.get(rs2), regs, ram),
        Instr::Sw { rs1, rs2, imm } => store(4, address(rs1, imm, regs), regs.get(rs2), regs, ram),
        Instr::Addi { rd, rs1, imm } => compute(
            rd,
            regs.get(rs1).wrapping_add(imm.cast_unsigned()),
            regs,
        ),
        Instr::Slti { rd, rs1, imm } => compute(
            rd,
            u32::from(less_signed(regs.get(rs1), imm.cast_unsigned())),
            regs,
        ),
        Instr::Sltiu { rd, rs1, imm } => compute(
            rd,
            u32::from(regs.get(rs1) < imm.cast_unsigned()),
            regs,
        ),
        Instr::Xori { rd, rs1, imm } => compute(rd, regs.get(rs1) ^ imm.cast_unsigned(), regs),
        Instr::Ori { rd, rs1, imm } => compute(rd, regs.get(rs1) | imm.cast_unsigned(), regs),
        Instr::Andi { rd, rs1, imm } => compute(rd, regs.get(rs1) & imm.cast_unsigned(), regs),
        Instr::Slli { rd, rs1, imm } => compute(
            rd,
            shifted_left(regs.get(rs1), imm.cast_unsigned()),
            regs,
        ),
        Instr::Srli { rd, rs1, imm } => compute(
            rd,
            regs.get(rs1) >> (imm.cast_unsigned() % 32),
            regs,
        ),
        Instr::Srai { rd, rs1, imm } => compute(
            rd,
            shifted_right_signed(regs.get(rs1), imm.cast_unsigned()),
            regs,
        ),
        Instr::Add { rd, rs1, rs2 } => compute(rd, regs.get(rs1).wrapping_add(regs.get(rs2)), regs),
        Instr::Sub { rd, rs1, rs2 } => compute(rd, regs.get(rs1).wrapping_sub(regs.get(rs2)), regs),
        Instr::Sll { rd, rs1, rs2 } => compute(
            rd,
            shifted_left(regs.get(rs1), regs.get(rs2)),
            regs,
        ),
        Instr::Slt { rd, rs1, rs2 } => compute(
            rd,
            u32::from(less_signed(regs.get(rs1), regs.get(rs2))),
            regs,
        ),
        Instr::Sltu { rd, rs1, rs2 } => compute(rd, u32::from(regs.get(rs1) < regs.get(rs2)), regs),
        Instr::Xor { rd, rs1, rs2 } => compute(rd, regs.get(rs1) ^ regs.get(rs2), regs),
        Instr::Srl { rd, rs1, rs2 } => compute(rd, regs.get(rs1) >> (regs.get(rs2) % 32), regs),
        Instr::Sra { rd, rs1, rs2 } => compute(
            rd,
            shifted_right_signed(regs.get(rs1), regs.get(rs2)),
            regs,
        ),
        Instr::Or { rd, rs1, rs2 } => compute(rd, regs.get(rs1) | regs.get(rs2), regs),
        Instr::And { rd, rs1, rs2 } => compute(rd, regs.get(rs1) & regs.get(rs2), regs),
        Instr::Mul { rd, rs1, rs2 } => compute(rd, regs.get(rs1).wrapping_mul(regs.get(rs2)), regs),
        Instr::Mulh { rd, rs1, rs2 } => compute(
            rd,
            high_product(long(regs.get(rs1)), long(regs.get(rs2))),
            regs,
        ),
        Instr::Mulhsu { rd, rs1, rs2 } => compute(
            rd,
            high_product(long(regs.get(rs1)), u64::from(regs.get(rs2))),
            regs,
        ),
        Instr::Mulhu { rd, rs1, rs2 } => compute(
            rd,
            high_product(u64::from(regs.get(rs1)), u64::from(regs.get(rs2))),
            regs,
        ),
        Instr::Div { rd, rs1, rs2 } => compute(
            rd,
            quotient_signed(regs.get(rs1), regs.get(rs2)),
            regs,
        ),
        Instr::Divu { rd, rs1, rs2 } => compute(rd, quotient(regs.get(rs1), regs.get(rs2)), regs),
        Instr::Rem { rd, rs1, rs2 } => compute(
            rd,
            remainder_signed(regs.get(rs1), regs.get(rs2)),
            regs,
        ),
        Instr::Remu { rd, rs1, rs2 } => compute(rd, remainder(regs.get(rs1), regs.get(rs2)), regs),
    }
}

// The word that pc is the address of.
fn fetch(code: &[u32], pc: u32) -> Option<u32>
    ensures { result ≡ fetched code.now pc }
{
    if !pc.is_multiple_of(4) {
        return None;
    }
    code.get((pc / 4) as usize).copied()
}

// One instruction of the code.
fn run(code: &[u32], regs: &mut Regs, ram: &mut Ram) -> Stepped
    ensures { IsExecution regs.new ram.new result (exec code.now regs.old ram.old) }
{
    let Some(word) = fetch(code, regs.pc()) else {
        return trap(TrapKind::Fetch, regs);
    };
    match decode(word) {
        Some(instr) => act(instr, regs, ram),
        None => trap(TrapKind::Illegal, regs),
    }
}

/// Runs the instruction at pc. The code's words lie at the addresses 0, 4, 8 and so on, where no load or
/// store reaches them. A trap changes nothing; after `Call` pc stands behind the ECALL.
pub fn step(code: &[u32], regs: &mut Regs, ram: &mut Ram) -> Stepped
    ensures execution { IsExecution regs.new ram.new result (exec code.now regs.old ram.old) }
    ensures registers { IsRegisters regs.new }
    ensures memory { IsMemory ram.new }
{
    let stepped = run(code, regs, ram);
    regs.words();
    ram.words();
    stepped
}
