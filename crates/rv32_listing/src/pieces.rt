// A line while it is made: a statement and its operands.

ghost use Rattle.std.specs.Prelude.{◌≡◌, ◌++◌, ◌+◌, ◌%◌, ◌≤◌, ◌∷◌, length, map, decimal};
ghost use Rattle.std.specs.Fmt.{signed_decimal};
ghost use Rattle.arrayvec.specs.ArrayVec.{array_vec_len};
ghost use Rattle.rv32_listing.specs.Texts.{based, further, hex_digit, hex_word, hexadecimal, label, register, statement};
ghost use Rattle.rv32_listing.specs.Operands.{operand_room, operand_text, room_for};

use arrayvec::ArrayVec;
use itoa::Buffer;

/// A line while it is made.
pub type Line = ArrayVec<u8, 128>;

/// An operand of a statement.
#[derive(Clone, Copy)]
pub enum Operand {
    /// A register, 0 to 31.
    Register(u8),
    /// A constant.
    Constant(i32),
    /// A constant before a register, as `4(x2)`.
    Based(i32, u8),
    /// The label of the code word at an address.
    Label(u64),
    /// A number without a sign.
    Number(u32),
}

/// Appends these bytes.
pub fn push_bytes(line: &mut Line, bytes: &[u8])
    requires room { array_vec_len line.old + length bytes.now ≤ 128 }
    ensures items { line.new.items ≡ line.old.items ++ bytes.now }
    ensures len { array_vec_len line.new ≡ array_vec_len line.old + length bytes.now }
{
    line.try_extend_from_slice(bytes).unwrap();
}

/// Appends a number.
pub fn push_number(line: &mut Line, number: u64)
    requires room { array_vec_len line.old + 20 ≤ 128 }
    ensures items { line.new.items ≡ line.old.items ++ decimal number }
    ensures len { array_vec_len line.new ≤ array_vec_len line.old + 20 }
{
    let mut buffer = Buffer::new();
    push_bytes(line, buffer.format(number).as_bytes());
}

// Appends a number with its sign, if it has one.
fn push_signed(line: &mut Line, number: i32)
    requires room { array_vec_len line.old + 11 ≤ 128 }
    ensures items { line.new.items ≡ line.old.items ++ signed_decimal number }
    ensures len { array_vec_len line.new ≤ array_vec_len line.old + 11 }
{
    let mut buffer = Buffer::new();
    push_bytes(line, buffer.format(number).as_bytes());
}

// Appends a register.
fn push_register(line: &mut Line, number: u8)
    requires room { array_vec_len line.old + 4 ≤ 128 }
    ensures items { line.new.items ≡ line.old.items ++ register number }
    ensures len { array_vec_len line.new ≤ array_vec_len line.old + 4 }
{
    line.push(b'x');
    let mut buffer = Buffer::new();
    push_bytes(line, buffer.format(number).as_bytes());
}

// Appends a constant before a register.
fn push_based(line: &mut Line, imm: i32, rs1: u8)
    requires room { array_vec_len line.old + 17 ≤ 128 }
    ensures items { line.new.items ≡ line.old.items ++ based imm rs1 }
    ensures len { array_vec_len line.new ≤ array_vec_len line.old + 17 }
{
    push_signed(line, imm);
    line.push(b'(');
    push_register(line, rs1);
    line.push(b')');
}

/// Appends the label of the code word at an address.
pub fn push_label(line: &mut Line, address: u64)
    requires room { array_vec_len line.old + 41 ≤ 128 }
    ensures items { line.new.items ≡ line.old.items ++ label address }
    ensures len { array_vec_len line.new ≤ array_vec_len line.old + 41 }
{
    push_bytes(line, b"code_word_at_address_");
    push_number(line, address);
}

// Appends an operand.
fn push_operand(line: &mut Line, operand: Operand)
    requires room { array_vec_len line.old + operand_room operand ≤ 128 + 2 }
    ensures items { line.new.items ≡ line.old.items ++ operand_text operand }
    ensures len { array_vec_len line.new + 2 ≤ array_vec_len line.old + operand_room operand }
{
    match operand {
        Operand::Register(number) => push_register(line, number),
        Operand::Constant(imm) => push_signed(line, imm),
        Operand::Based(imm, rs1) => push_based(line, imm, rs1),
        Operand::Label(address) => push_label(line, address),
        Operand::Number(number) => push_unsigned(line, number),
    }
}

// Appends a number without a sign.
fn push_unsigned(line: &mut Line, number: u32)
    requires room { array_vec_len line.old + 10 ≤ 128 }
    ensures items { line.new.items ≡ line.old.items ++ decimal number }
    ensures len { array_vec_len line.new ≤ array_vec_len line.old + 10 }
{
    let mut buffer = Buffer::new();
    push_bytes(line, buffer.format(number).as_bytes());
}

/// Appends further operands, each behind a comma.
pub fn push_further(line: &mut Line, operands: &[Operand])
    requires room { array_vec_len line.old + room_for operands.now ≤ 128 }
    ensures items { line.new.items ≡ line.old.items ++ further (map operand_text operands.now) }
    ensures len { array_vec_len line.new ≤ array_vec_len line.old + room_for operands.now }
{
    for operand in operands {
        push_bytes(line, b", ");
        push_operand(line, *operand);
    }
}

/// Appends a statement by what it begins with.
pub fn push_statement(line: &mut Line, first: &[u8], operands: &[Operand])
    requires room { array_vec_len line.old + length first.now + room_for operands.now ≤ 128 }
    ensures items { line.new.items ≡ line.old.items ++ statement first.now (map operand_text operands.now) }
    ensures len { array_vec_len line.new ≤ array_vec_len line.old + length first.now + room_for operands.now }
{
    push_bytes(line, first);
    if let [operand, rest @ ..] = operands {
        line.push(b' ');
        push_operand(line, *operand);
        push_further(line, rest);
    }
}

/// Appends a statement whose first operand is a name.
pub fn push_named(line: &mut Line, first: &[u8], name: &[u8], operands: &[Operand])
    requires room { array_vec_len line.old + length first.now + length name.now + 1 + room_for operands.now ≤ 128 }
    ensures items { line.new.items ≡ line.old.items ++ statement first.now (name.now ∷ map operand_text operands.now) }
    ensures len { array_vec_len line.new ≤ array_vec_len line.old + length first.now + length name.now + 1 + room_for operands.now }
{
    push_bytes(line, first);
    line.push(b' ');
    push_bytes(line, name);
    push_further(line, operands);
}

/// Appends a word as a hexadecimal number.
pub fn push_hexadecimal(line: &mut Line, word: u32)
    requires room { array_vec_len line.old + 10 ≤ 128 }
    ensures items { line.new.items ≡ line.old.items ++ hexadecimal word }
    ensures len { array_vec_len line.new ≡ array_vec_len line.old + 10 }
{
    push_bytes(line, b"0x");
    push_bytes(line, &hex_digits(word));
}

/// The eight hexadecimal digits of a word, the highest first.
pub fn hex_digits(word: u32) -> [u8; 8]
    ensures { result ≡ hex_word word }
{
    [
        hex_digit(word / 0x1000_0000),
        hex_digit(word / 0x100_0000),
        hex_digit(word / 0x10_0000),
        hex_digit(word / 0x1_0000),
        hex_digit(word / 0x1000),
        hex_digit(word / 0x100),
        hex_digit(word / 0x10),
        hex_digit(word),
    ]
}

// The last hexadecimal digit of a number.
fn hex_digit(number: u32) -> u8
    ensures { result ≡ hex_digit (number % 16) }
{
    let digit = (number % 16) as u8;
    if digit < 10 {
        b'0' + digit
    } else {
        b'a' - 10 + digit
    }
}
