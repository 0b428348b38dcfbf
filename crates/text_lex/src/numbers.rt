// The numbers of a text.

ghost use Rattle.std.specs.Prelude.{◌≡◌, ◌≤◌, length};
ghost use Rattle.text_lex.specs.Numbers.{begins_hex, digit_value, numeral, value_of, word_of};

use crate::bytes::{decimal_len, hex_len, is_hex_digit};

/// A number without a sign: its value, unless it is above 2^32 - 1, and how many bytes follow its
/// first.
#[derive(Clone, Copy, Debug)]
pub struct Digits {
    pub value: Option<u32>,
    pub further: usize,
}

fn digit_value(byte: u8) -> u8
    ensures value { result ≡ digit_value byte }
    ensures small { result ≤ 15 }
{
    match byte {
        b'0'..=b'9' => byte - b'0',
        b'a'..=b'f' => byte - b'a' + 10,
        b'A'..=b'F' => byte - b'A' + 10,
        _ => 0,
    }
}

// The value of digits of any number, behind a front of this value.
fn value_of(base: u64, front: u32, digits: &[u8]) -> Option<u32>
    requires least { 1 ≤ base }
    requires most { base ≤ 16 }
    ensures { result ≡ word_of (value_of base front digits.now) }
{
    let mut value = u64::from(front);
    for digit in digits {
        value = value * base + u64::from(digit_value(*digit));
        if value > u64::from(u32::MAX) {
            return None;
        }
    }
    Some(value as u32)
}

// Whether a byte and what follows it are `0x` and a hexadecimal digit.
fn begins_hex(byte: u8, rest: &[u8]) -> bool
    ensures { result ≡ begins_hex byte rest.now }
{
    match rest {
        [next, digit, ..] => byte == b'0' && *next == b'x' && is_hex_digit(*digit),
        _ => false,
    }
}

/// The longest number without a sign that begins with this digit.
pub fn numeral(byte: u8, rest: &[u8]) -> Digits
    ensures value { result.value ≡ word_of (numeral byte rest.now).value }
    ensures further { result.further ≡ (numeral byte rest.now).further }
    ensures within { result.further ≤ length rest.now }
{
    if begins_hex(byte, rest) {
        let digits = &rest[1..];
        let len = hex_len(digits);
        return Digits {
            value: value_of(16, 0, &digits[..len]),
            further: 1 + len,
        };
    }
    let len = decimal_len(rest);
    Digits {
        value: value_of(10, u32::from(digit_value(byte)), &rest[..len]),
        further: len,
    }
}
