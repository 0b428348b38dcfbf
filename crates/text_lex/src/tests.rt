// Texts and their tokens or their first fault.

ghost use Rattle.std.specs.Prelude.{◌≤◌, length};

use crate::TokenKind::*;
use crate::{LexError, Token, TokenKind, slice, tokens};
use std::alloc::Global;
use std::process::Abort;
use std::test::Fail;

fn token(kind: TokenKind, line: u32, start: u32, len: u32) -> Token {
    Token {
        kind,
        line,
        start,
        len,
    }
}

fn has_tokens(rt: &impl Abort, alloc: Global, text: &[u8], expected: &[Token]) -> Result<(), Fail>
    requires { length text.now ≤ 100 }
{
    let found = tokens(alloc, text)?;
    assert_eq!(rt; found.as_slice(), expected);
    Ok(())
}

fn has_fault(rt: &impl Abort, alloc: Global, text: &[u8], expected: LexError)
    requires { length text.now ≤ 100 }
{
    match tokens(alloc, text) {
        Ok(found) => assert_eq!(rt; found.len(), 1000, "{expected:?} was expected"),
        Err(error) => assert_eq!(rt; error, expected),
    }
}

#[test]
fn texts_with_tokens(rt: HostRuntime) -> Result<(), Fail> {
    has_tokens(&rt, rt.alloc(), b"", &[])?;
    has_tokens(&rt, rt.alloc(), b" \t\r", &[token(End, 1, 3, 0)])?;
    has_tokens(
        &rt,
        rt.alloc(),
        b"#\n\r\n",
        &[token(End, 1, 1, 1), token(End, 2, 3, 1)],
    )?;
    has_tokens(
        &rt,
        rt.alloc(),
        b"_a9:.code(x),",
        &[
            token(Name, 1, 0, 3),
            token(Colon, 1, 3, 1),
            token(Directive, 1, 4, 5),
            token(Open, 1, 9, 1),
            token(Name, 1, 10, 1),
            token(Close, 1, 11, 1),
            token(Comma, 1, 12, 1),
            token(End, 1, 13, 0),
        ],
    )?;
    has_tokens(
        &rt,
        rt.alloc(),
        b"007-0x80000000\n-0 0xffffFFFF\n4294967295",
        &[
            token(Number(7), 1, 0, 3),
            token(Number(-2_147_483_648), 1, 3, 11),
            token(End, 1, 14, 1),
            token(Number(0), 2, 15, 2),
            token(Number(4_294_967_295), 2, 18, 10),
            token(End, 2, 28, 1),
            token(Number(4_294_967_295), 3, 29, 10),
            token(End, 3, 39, 0),
        ],
    )
}

#[test]
fn texts_with_a_fault(rt: HostRuntime) {
    has_fault(
        &rt,
        rt.alloc(),
        b".code\ngo: nop @",
        LexError::BadByte(14, 2),
    );
    has_fault(&rt, rt.alloc(), b"\xff", LexError::BadByte(0, 1));
    has_fault(&rt, rt.alloc(), b"0x,", LexError::BadByte(1, 1));
    has_fault(&rt, rt.alloc(), b"12_", LexError::BadByte(2, 1));
    has_fault(&rt, rt.alloc(), b"- 1", LexError::BadByte(0, 1));
    has_fault(&rt, rt.alloc(), b"\n..a", LexError::BadByte(1, 2));
    has_fault(
        &rt,
        rt.alloc(),
        b".code\ngo: li a0, 4294967296",
        LexError::NumberTooLarge(17, 2),
    );
    has_fault(
        &rt,
        rt.alloc(),
        b"4294967296x",
        LexError::NumberTooLarge(0, 1),
    );
    has_fault(
        &rt,
        rt.alloc(),
        b"-2147483649",
        LexError::NumberTooLarge(0, 1),
    );
}

#[test]
fn bytes_of_a_token(rt: HostRuntime) {
    let token = Token {
        kind: Name,
        line: 1,
        start: 3,
        len: 2,
    };
    assert_eq!(rt; slice(b"lw t1", &token), b"t1".as_slice());
}
