// What a byte of a text begins.

ghost use Rattle.std.specs.Prelude.{◌≡◌, ◌≤◌, length};
ghost use Rattle.std.specs.List.{list_all, prefix_len};
ghost use Rattle.text_lex.specs.Bytes.{class_of, is_letter, is_digit, is_hex_digit, is_name, is_name_byte, is_not_line_feed};

use crate::TokenKind;
use memchr::memchr;

/// What a byte begins where a piece of the text begins.
#[derive(Clone, Copy, Debug, PartialEq, Eq)]
pub enum ByteClass {
    Blank,
    Hash,
    LineFeed,
    Letter,
    Dot,
    Minus,
    Digit,
    Sign(TokenKind),
    Other,
}

pub fn class_of(byte: u8) -> ByteClass
    ensures { result ≡ class_of byte }
{
    match byte {
        b' ' | b'\t' | b'\r' => ByteClass::Blank,
        b'#' => ByteClass::Hash,
        b'\n' => ByteClass::LineFeed,
        b'A'..=b'Z' | b'a'..=b'z' | b'_' => ByteClass::Letter,
        b'.' => ByteClass::Dot,
        b'-' => ByteClass::Minus,
        b'0'..=b'9' => ByteClass::Digit,
        b',' => ByteClass::Sign(TokenKind::Comma),
        b'(' => ByteClass::Sign(TokenKind::Open),
        b')' => ByteClass::Sign(TokenKind::Close),
        b':' => ByteClass::Sign(TokenKind::Colon),
        _ => ByteClass::Other,
    }
}

pub fn is_letter(byte: u8) -> bool
    ensures { result ≡ is_letter byte }
{
    matches!(byte, b'A'..=b'Z' | b'a'..=b'z' | b'_')
}

pub fn is_digit(byte: u8) -> bool
    ensures { result ≡ is_digit byte }
{
    byte.is_ascii_digit()
}

pub fn is_name_byte(byte: u8) -> bool
    ensures { result ≡ is_name_byte byte }
{
    is_letter(byte) || is_digit(byte)
}

pub fn is_hex_digit(byte: u8) -> bool
    ensures { result ≡ is_hex_digit byte }
{
    matches!(byte, b'0'..=b'9' | b'A'..=b'F' | b'a'..=b'f')
}

/// How many bytes at the front are bytes of a name.
pub fn name_len(bytes: &[u8]) -> usize
    ensures value { result ≡ prefix_len is_name_byte bytes.now }
    ensures within { result ≤ length bytes.now }
{
    for (i, byte) in bytes.iter().enumerate() {
        if !is_name_byte(*byte) {
            return i;
        }
    }
    bytes.len()
}

/// How many bytes stand before the first line feed.
#[tactic(auto, using(crate::proofs::LineLaws::no_line_feed, crate::proofs::LineLaws::first_line_feed))]
pub fn line_len(bytes: &[u8]) -> usize
    ensures value { result ≡ prefix_len is_not_line_feed bytes.now }
    ensures within { result ≤ length bytes.now }
{
    match memchr(b'\n', bytes) {
        Some(at) => at,
        None => bytes.len(),
    }
}

/// How many bytes at the front are decimal digits.
pub fn decimal_len(bytes: &[u8]) -> usize
    ensures value { result ≡ prefix_len is_digit bytes.now }
    ensures within { result ≤ length bytes.now }
{
    for (i, byte) in bytes.iter().enumerate() {
        if !is_digit(*byte) {
            return i;
        }
    }
    bytes.len()
}

/// How many bytes at the front are hexadecimal digits.
pub fn hex_len(bytes: &[u8]) -> usize
    ensures value { result ≡ prefix_len is_hex_digit bytes.now }
    ensures within { result ≤ length bytes.now }
{
    for (i, byte) in bytes.iter().enumerate() {
        if !is_hex_digit(*byte) {
            return i;
        }
    }
    bytes.len()
}

fn are_name_bytes(bytes: &[u8]) -> bool
    ensures { result ≡ list_all is_name_byte bytes.now }
{
    for byte in bytes {
        if !is_name_byte(*byte) {
            return false;
        }
    }
    true
}

/// Whether bytes are a name: a letter or `_`, then letters, digits and `_`.
pub fn is_name(bytes: &[u8]) -> bool
    ensures { result ≡ is_name bytes.now }
{
    match bytes {
        [] => false,
        [first, rest @ ..] => is_letter(*first) && are_name_bytes(rest),
    }
}
