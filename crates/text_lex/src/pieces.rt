// The piece at the front of a text.

ghost use Rattle.std.specs.Prelude.{◌≡◌, ◌+◌, ◌^◌, ◌<◌, ◌≤◌, drop, length, slice_index, pos, neg_ℤ};
ghost use Rattle.text_lex.specs.Numbers.{numeral};
ghost use Rattle.text_lex.specs.Pieces.{after_dot, after_minus, closed, negative, piece_at, positive, PieceFits};

use crate::TokenKind;
use crate::bytes::{ByteClass, class_of, is_digit, is_letter, is_name_byte, line_len, name_len};
use crate::numbers::numeral;

/// What stands at the front of a text. A piece of `Skips(n)` or `Gives(kind, n)` has n bytes behind
/// its first.
#[derive(Clone, Copy, Debug)]
pub enum Piece {
    /// A blank or a comment.
    Skips(usize),
    /// A line feed.
    Ends,
    /// A token.
    Gives(TokenKind, usize),
    /// A bad byte, so many bytes behind the front.
    Bad(usize),
    /// A number out of range.
    TooLarge,
}

// A number, unless a byte of a name stands directly behind it.
fn closed(value: i64, further: usize, behind: &[u8]) -> Piece
    requires { further ≤ 2 ^ 32 }
    ensures { result ≡ closed value further behind.now }
{
    match behind {
        [byte, ..] if is_name_byte(*byte) => Piece::Bad(further + 1),
        _ => Piece::Gives(TokenKind::Number(value), further),
    }
}

// A number without a sign, from its first digit on.
fn positive(byte: u8, rest: &[u8]) -> Piece
    requires { length rest.now ≤ 2 ^ 31 }
    ensures { result ≡ positive (numeral byte rest.now) rest.now }
{
    let digits = numeral(byte, rest);
    match digits.value {
        Some(value) => closed(i64::from(value), digits.further, &rest[digits.further..]),
        None => Piece::TooLarge,
    }
}

fn negated(value: u32) -> i64
    ensures { result ≡ neg_ℤ (pos value) }
{
    -i64::from(value)
}

// A number behind its minus sign, from its first digit on.
fn negative(byte: u8, rest: &[u8]) -> Piece
    requires { length rest.now ≤ 2 ^ 31 }
    ensures { result ≡ negative (numeral byte rest.now) rest.now }
{
    let digits = numeral(byte, rest);
    match digits.value {
        Some(value) if value <= 2_147_483_648 => closed(
            negated(value),
            digits.further + 1,
            &rest[digits.further..],
        ),
        _ => Piece::TooLarge,
    }
}

fn after_minus(rest: &[u8]) -> Piece
    requires { length rest.now ≤ 2 ^ 31 }
    ensures { result ≡ after_minus rest.now }
{
    match rest {
        [byte, behind @ ..] if is_digit(*byte) => negative(*byte, behind),
        _ => Piece::Bad(0),
    }
}

fn after_dot(rest: &[u8]) -> Piece
    requires { length rest.now ≤ 2 ^ 31 }
    ensures { result ≡ after_dot rest.now }
{
    match rest {
        [byte, behind @ ..] if is_letter(*byte) => {
            Piece::Gives(TokenKind::Directive, 1 + name_len(behind))
        }
        _ => Piece::Bad(0),
    }
}

// The longest piece that begins with this byte.
fn piece_at(byte: u8, rest: &[u8]) -> Piece
    requires { length rest.now ≤ 2 ^ 31 }
    ensures value { result ≡ piece_at byte rest.now }
    ensures within { PieceFits result (length rest.now) }
{
    match class_of(byte) {
        ByteClass::Blank => Piece::Skips(0),
        ByteClass::Hash => Piece::Skips(line_len(rest)),
        ByteClass::LineFeed => Piece::Ends,
        ByteClass::Letter => Piece::Gives(TokenKind::Name, name_len(rest)),
        ByteClass::Dot => after_dot(rest),
        ByteClass::Minus => after_minus(rest),
        ByteClass::Digit => positive(byte, rest),
        ByteClass::Sign(kind) => Piece::Gives(kind, 0),
        ByteClass::Other => Piece::Bad(0),
    }
}

/// The longest piece that begins at a place of a text.
pub fn piece_from(text: &[u8], at: usize) -> Piece
    requires inside { at < length text.now }
    requires short { length text.now ≤ 2 ^ 31 }
    ensures value { result ≡ piece_at (slice_index text.now at) (drop (at + 1) text.now) }
    ensures within { PieceFits result (length (drop (at + 1) text.now)) }
{
    piece_at(text[at], &text[at + 1..])
}
