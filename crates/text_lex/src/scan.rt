// The tokens of a text.

ghost use Rattle.std.specs.Prelude.{◌≡◌, ◌≤◌, ◌<◌, ◌+◌, ◌^◌, ◌++◌, [], ◌∷◌, length, IfOk, IfErr, OnOk, OnErr};
ghost use Rattle.text_lex.specs.Division.{IsDivided};
ghost use Rattle.text_lex.specs.Tokens.{bytes_of, lexed, token, IsFault, Tokens};

use crate::pieces::{Piece, piece_from};
use crate::{LexError, TEXT_LIMIT, Token, TokenKind};
use std::alloc::Global;

/// The tokens of a text of at most `TEXT_LIMIT` bytes, in order. Tokens, blanks and comments are the
/// whole text, without a gap, and each token is the longest that begins at its place. Blanks are space,
/// tab and carriage return; a comment goes from `#` to the line feed.
pub fn tokens(alloc: Global, text: &[u8]) -> Result<Vec<Token>, LexError>
    requires { length text.now ≤ TEXT_LIMIT }
    ensures tokens { IfOk result (λ found. lexed text.now ≡ Tokens found.items) }
    ensures divided { IfOk result (λ found. IsDivided text.now found.items) }
    ensures fault { IfErr result (λ error. IsFault error (lexed text.now)) }
{
    let mut found = Vec::new(alloc);
    let mut at: usize = 0;
    let mut line: u32 = 1;
    let mut begun = false;
    'reading: while at < text.len() {
        match piece_from(text, at) {
            Piece::Skips(further) => {
                at += further + 1;
                begun = true;
            }
            Piece::Ends => {
                add(&mut found, TokenKind::End, line, at, 1)?;
                at += 1;
                line += 1;
                begun = false;
            }
            Piece::Gives(kind, further) => {
                add(&mut found, kind, line, at, further + 1)?;
                at += further + 1;
                begun = true;
            }
            Piece::Bad(further) => return Err(LexError::BadByte((at + further) as u32, line)),
            Piece::TooLarge => return Err(LexError::NumberTooLarge(at as u32, line)),
        }
    }
    if begun {
        add(&mut found, TokenKind::End, line, at, 0)?;
    }
    Ok(found)
}

// Adds a token of this length from a place on.
fn add(
    found: &mut Vec<Token>,
    kind: TokenKind,
    line: u32,
    start: usize,
    len: usize,
) -> Result<(), LexError>
    requires place { start < 2 ^ 32 }
    requires short { len < 2 ^ 32 }
    ensures ok { OnOk result (found.new.items ≡ found.old.items ++ token kind line start len ∷ []) }
    ensures err { IfErr result (λ error. error ≡ LexError.NoMemory) }
{
    let token = Token {
        kind,
        line,
        start: start as u32,
        len: len as u32,
    };
    found.push(token).map_err(|_| LexError::NoMemory)
}

/// The bytes of a token of the text.
pub fn slice<'a>(text: &'a [u8], token: &Token) -> &'a [u8]
    requires { token.now.start + token.now.len ≤ length text.now }
    ensures { result.now ≡ bytes_of text.now token.now }
{
    let start = token.start as usize;
    &text[start..start + token.len as usize]
}
