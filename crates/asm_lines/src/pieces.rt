// The pieces of a line: what its tokens are to the assembler.

ghost use Rattle.std.specs.Prelude.{◌≡◌, ◌≤◌, ℕ, List, length};
ghost use Rattle.asm_lines.specs.Pieces.{piece_of};
ghost use Rattle.asm_lines.specs.Kept.{kept_of, piece_said, spelling};

use text_lex::{Token, TokenKind};

/// A name, by its place in the text.
#[derive(Clone, Copy)]
pub struct Span {
    pub start: u32,
    pub len: u32,
}

/// A number, or a name that stands for one.
#[derive(Clone, Copy)]
pub enum Operand {
    /// A number from -2,147,483,648 to 4,294,967,295.
    Number(i64),
    Named(Span),
}

/// What a token is to the assembler.
#[derive(Clone, Copy)]
pub enum Piece {
    Is(Operand),
    /// A dot and a name.
    Dotted(Span),
    Comma,
    Open,
    Close,
    Colon,
    /// The end of a line.
    Ends,
}

/// What a token is to the assembler.
pub fn make_piece(token: &Token) -> Piece
    ensures kept { result ≡ kept_of token.now }
    ensures said { (text : List ℕ) → piece_said text result ≡ piece_of text token.now }
{
    let span = Span {
        start: token.start,
        len: token.len,
    };
    match token.kind {
        TokenKind::Name => Piece::Is(Operand::Named(span)),
        TokenKind::Number(value) => Piece::Is(Operand::Number(value)),
        TokenKind::Directive => Piece::Dotted(span),
        TokenKind::Comma => Piece::Comma,
        TokenKind::Open => Piece::Open,
        TokenKind::Close => Piece::Close,
        TokenKind::Colon => Piece::Colon,
        TokenKind::End => Piece::Ends,
    }
}

/// The bytes of a name, as far as they are in the text.
pub fn spelling(text: &[u8], span: Span) -> &[u8]
    ensures { result.now ≡ spelling text.now span }
{
    let start = text.len().min(span.start as usize);
    let behind = &text[start..];
    let len = behind.len().min(span.len as usize);
    &behind[..len]
}
