// The lines of a text, up to the line `.inject`.

ghost use Rattle.std.specs.Prelude.{◌≡◌, ◌<◌, ◌≤◌, ◌+◌, ◌^◌, drop, length, map, OnOk, IfOk};
ghost use Rattle.std.specs.List.{prefix_len};
ghost use Rattle.asm_lines.specs.Mnemonics.{head_of};
ghost use Rattle.asm_lines.specs.Lines.{is_before_end, read};
ghost use Rattle.asm_lines.specs.Kept.{kept_of, lines_said, spelling};
ghost use Rattle.asm_lines.specs.KeptLines.{behind_label, headed, is_inject, line_of, read as kept_read, statement_of};

use crate::forms::form;
use crate::mnemonics::head_of;
use crate::pieces::{Operand, Piece, Span, make_piece, spelling};
use crate::statements::{Line, Statement};
use std::alloc::{AllocError, Global};
use std::marker::Model;
use text_lex::{Token, TokenKind};

/// The lines of a text, and where the tokens behind them begin.
#[derive(Drop)]
pub struct Reading<'a> {
    pub lines: Vec<Line<'a>>,
    pub used: usize,
}

impl<'a> Model for Reading<'a> {
    ghost use Rattle.asm_lines.specs.KeptLines.{Reading as Read};

    ghost Value = { Read };

    ghost view = { λ r. record { lines = r.lines.items; used = r.used } };
}

// The statement that begins with this head.
fn headed<'a>(
    alloc: Global,
    text: &[u8],
    tokens: &'a [Token],
    head: Span,
    pieces: &[Piece],
) -> Result<Statement<'a>, AllocError>
    requires { length tokens.now < 2 ^ 32 }
    ensures { IfOk result (λ made. made ≡ headed text.now tokens.now (head_of (spelling text.now head)) pieces.now) }
{
    match head_of(spelling(text, head)) {
        None => Ok(Statement::Unknown),
        Some(head) => {
            let made = form(alloc, text, tokens, head, pieces)?;
            Ok(made.unwrap_or(Statement::Malformed))
        }
    }
}

// The statement that these pieces of these tokens are.
fn statement_of<'a>(
    alloc: Global,
    text: &[u8],
    tokens: &'a [Token],
    pieces: &[Piece],
) -> Result<Statement<'a>, AllocError>
    requires few { length tokens.now < 2 ^ 32 }
    requires same { length tokens.now ≡ length pieces.now }
    ensures { IfOk result (λ made. made ≡ statement_of text.now tokens.now pieces.now) }
{
    match pieces {
        [] => Ok(Statement::Nothing),
        [
            Piece::Is(Operand::Named(head)) | Piece::Dotted(head),
            behind @ ..,
        ] => { headed(alloc, text, &tokens[1..], *head, behind) }
        _ => Ok(Statement::Unknown),
    }
}

// Behind a label `.inject` does not stand alone on its line.
fn behind_label(statement: Statement) -> Statement
    ensures { result ≡ behind_label statement.entry }
{
    match statement {
        Statement::Inject => Statement::Malformed,
        _ => statement,
    }
}

// The line with a number that these pieces of these tokens are.
fn line_of<'a>(
    alloc: Global,
    text: &[u8],
    number: u32,
    tokens: &'a [Token],
    pieces: &[Piece],
) -> Result<Line<'a>, AllocError>
    requires few { length tokens.now < 2 ^ 32 }
    requires same { length tokens.now ≡ length pieces.now }
    ensures { IfOk result (λ line. line ≡ line_of text.now number tokens.now pieces.now) }
{
    match pieces {
        [Piece::Is(Operand::Named(label)), Piece::Colon, behind @ ..] => Ok(Line {
            number,
            label: Some(*label),
            statement: behind_label(statement_of(alloc, text, &tokens[2..], behind)?),
        }),
        _ => Ok(Line {
            number,
            label: None,
            statement: statement_of(alloc, text, tokens, pieces)?,
        }),
    }
}

fn is_inject(statement: &Statement) -> bool
    ensures { result ≡ is_inject statement.now }
{
    matches!(statement, Statement::Inject)
}

/// Makes the pieces of some tokens in place of the ones that were there.
pub fn refill(pieces: &mut Vec<Piece>, tokens: &[Token]) -> Result<(), AllocError>
    ensures { OnOk result (pieces.new.items ≡ map kept_of tokens.now) }
{
    pieces.clear();
    for token in tokens {
        pieces.push(make_piece(token))?;
    }
    Ok(())
}

/// Where the line ends that has a token at a place: at its end token, or at the end of the tokens.
pub fn row_end(tokens: &[Token], at: usize) -> usize
    requires { at ≤ length tokens.now }
    ensures value { result ≡ at + prefix_len is_before_end (drop at tokens.now) }
    ensures within { result ≤ length tokens.now }
{
    let mut end = at;
    while end < tokens.len() {
        if let TokenKind::End = tokens[end].kind {
            return end;
        }
        end += 1;
    }
    end
}

// What is read of the tokens of a text.
fn read_rows<'a>(alloc: Global, text: &[u8], tokens: &'a [Token]) -> Result<Reading<'a>, AllocError>
    requires { length tokens.now < 2 ^ 32 }
    ensures kept { IfOk result (λ found. found ≡ kept_read text.now tokens.now) }
    ensures few { IfOk result (λ found. length found.lines ≤ length tokens.now + 1) }
{
    let mut lines = Vec::new(alloc);
    let mut pieces = Vec::new(alloc);
    let mut at: usize = 0;
    while at < tokens.len() {
        let end = row_end(tokens, at);
        if at < end {
            let row = &tokens[at..end];
            refill(&mut pieces, row)?;
            let line = line_of(alloc, text, tokens[at].line, row, &pieces)?;
            if is_inject(&line.statement) {
                return Ok(Reading {
                    lines,
                    used: tokens.len().min(end + 1),
                });
            }
            lines.push(line)?;
        }
        at = end + 1;
    }
    Ok(Reading {
        lines,
        used: tokens.len(),
    })
}

/// The lines of a text before its line `.inject`, and the index of the first token behind that line, or
/// the number of tokens where there is none.
pub fn read<'a>(alloc: Global, text: &[u8], tokens: &'a [Token]) -> Result<Reading<'a>, AllocError>
    requires { length tokens.now < 2 ^ 32 }
    ensures lines { IfOk result (λ found. lines_said text.now found.lines ≡ (read text.now tokens.now).lines) }
    ensures used { IfOk result (λ found. found.used ≡ (read text.now tokens.now).used) }
    ensures few { IfOk result (λ found. length found.lines ≤ length tokens.now + 1) }
{
    read_rows(alloc, text, tokens)
}
