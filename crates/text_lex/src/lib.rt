// The tokens of a case text: names, directives, numbers, signs and the ends of lines.
#![tactic(auto)]

mod bytes;
mod numbers;
mod pieces;
mod scan;
#[cfg(test)]
mod tests;

pub use bytes::is_name;
pub use scan::{slice, tokens};
use thiserror::Error;

/// The longest text that is read, in bytes.
pub const TEXT_LIMIT: usize = 4_194_304;

/// What a token is.
#[derive(Clone, Copy, Debug, PartialEq, Eq)]
pub enum TokenKind {
    /// A letter or `_`, then letters, digits and `_`.
    Name,
    /// A dot and a name.
    Directive,
    /// A number from -2,147,483,648 to 4,294,967,295, decimal or hexadecimal.
    Number(i64),
    Comma,
    /// An opening parenthesis.
    Open,
    /// A closing parenthesis.
    Close,
    Colon,
    /// The end of a line: its line feed, or nothing at the end of a text whose last line has a byte.
    End,
}

/// A token: `len` bytes of the text from the place `start` on, on a line that is counted from 1.
#[derive(Clone, Copy, Debug, PartialEq, Eq)]
pub struct Token {
    pub kind: TokenKind,
    pub line: u32,
    pub start: u32,
    pub len: u32,
}

/// Why a text has no tokens. Each fault has its place in the text, from 0, and its line, from 1.
#[derive(Clone, Copy, Debug, PartialEq, Eq, Error)]
pub enum LexError {
    /// There was no memory for the tokens.
    #[error("out of memory")]
    NoMemory,
    /// A byte that begins no token, or a letter, digit or `_` directly behind a number.
    #[error("line {1}: bad byte at place {0}")]
    BadByte(u32, u32),
    /// A number below -2,147,483,648 or above 4,294,967,295, by the place of its first byte.
    #[error("line {1}: number out of range at place {0}")]
    NumberTooLarge(u32, u32),
}
