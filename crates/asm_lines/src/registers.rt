// The names of the registers (RISC-V ABI, "Register Convention").

ghost use Rattle.std.specs.Prelude.{◌≡◌};
ghost use Rattle.asm_lines.specs.Tables.{entry};
ghost use Rattle.asm_lines.specs.Initials.{rows_by};
ghost use Rattle.asm_lines.specs.Registers.{register_number, registers};

use crate::tables::entry;

// The table of the registers, in parts by the first byte.

static A_REGISTERS: [(&[u8], u8); 8] = [
    (b"a0", 10),
    (b"a1", 11),
    (b"a2", 12),
    (b"a3", 13),
    (b"a4", 14),
    (b"a5", 15),
    (b"a6", 16),
    (b"a7", 17),
];

static F_REGISTERS: [(&[u8], u8); 1] = [(b"fp", 8)];

static G_REGISTERS: [(&[u8], u8); 1] = [(b"gp", 3)];

static R_REGISTERS: [(&[u8], u8); 1] = [(b"ra", 1)];

static S_REGISTERS: [(&[u8], u8); 13] = [
    (b"sp", 2),
    (b"s0", 8),
    (b"s1", 9),
    (b"s2", 18),
    (b"s3", 19),
    (b"s4", 20),
    (b"s5", 21),
    (b"s6", 22),
    (b"s7", 23),
    (b"s8", 24),
    (b"s9", 25),
    (b"s10", 26),
    (b"s11", 27),
];

static T_REGISTERS: [(&[u8], u8); 8] = [
    (b"tp", 4),
    (b"t0", 5),
    (b"t1", 6),
    (b"t2", 7),
    (b"t3", 28),
    (b"t4", 29),
    (b"t5", 30),
    (b"t6", 31),
];

static X_REGISTERS: [(&[u8], u8); 32] = [
    (b"x0", 0),
    (b"x1", 1),
    (b"x2", 2),
    (b"x3", 3),
    (b"x4", 4),
    (b"x5", 5),
    (b"x6", 6),
    (b"x7", 7),
    (b"x8", 8),
    (b"x9", 9),
    (b"x10", 10),
    (b"x11", 11),
    (b"x12", 12),
    (b"x13", 13),
    (b"x14", 14),
    (b"x15", 15),
    (b"x16", 16),
    (b"x17", 17),
    (b"x18", 18),
    (b"x19", 19),
    (b"x20", 20),
    (b"x21", 21),
    (b"x22", 22),
    (b"x23", 23),
    (b"x24", 24),
    (b"x25", 25),
    (b"x26", 26),
    (b"x27", 27),
    (b"x28", 28),
    (b"x29", 29),
    (b"x30", 30),
    (b"x31", 31),
];

static Z_REGISTERS: [(&[u8], u8); 1] = [(b"zero", 0)];

// The entry of a name that begins with a byte.
fn register_from(first: u8, name: &[u8]) -> Option<u8>
    ensures { result ≡ entry name.now (rows_by first registers) }
{
    match first {
        b'a' => entry(name, &A_REGISTERS),
        b'f' => entry(name, &F_REGISTERS),
        b'g' => entry(name, &G_REGISTERS),
        b'r' => entry(name, &R_REGISTERS),
        b's' => entry(name, &S_REGISTERS),
        b't' => entry(name, &T_REGISTERS),
        b'x' => entry(name, &X_REGISTERS),
        b'z' => entry(name, &Z_REGISTERS),
        _ => None,
    }
}

/// The number of a register, 0 to 31, or None where a name is none.
pub fn register_number(name: &[u8]) -> Option<u8>
    ensures { result ≡ register_number name.now }
{
    match name {
        [] => None,
        [first, ..] => register_from(*first, name),
    }
}
