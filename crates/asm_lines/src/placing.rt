// Lines that begin with a word that places something.

ghost use Rattle.std.specs.Prelude.{◌≡◌, ◌≤◌, ℕ, List, true, length, IfOk};
ghost use Rattle.asm_lines.specs.Kept.{pieces_said};
ghost use Rattle.asm_lines.specs.Placing.{begins_placing, has_label, is_placing, is_placing_word, placing_lines, places_something};

use crate::lines::{refill, row_end};
use crate::mnemonics::{Head, head_of};
use crate::pieces::{Operand, Piece, spelling};
use std::alloc::{AllocError, Global};
use text_lex::Token;

fn is_placing(head: Head) -> bool
    ensures { result ≡ is_placing head }
{
    match head {
        Head::Equ
        | Head::Task
        | Head::Object(_)
        | Head::Mutex
        | Head::Timer
        | Head::Vector
        | Head::Config
        | Head::Inject => false,
        _ => true,
    }
}

fn is_placing_word(head: Option<Head>) -> bool
    ensures { result ≡ is_placing_word head }
{
    match head {
        None => false,
        Some(head) => is_placing(head),
    }
}

// Whether a statement of these pieces begins with a word that places something.
fn begins_placing(text: &[u8], pieces: &[Piece]) -> bool
    ensures { result ≡ begins_placing (pieces_said text.now pieces.now) }
{
    match pieces {
        [Piece::Is(Operand::Named(word)) | Piece::Dotted(word), ..] => {
            is_placing_word(head_of(spelling(text, *word)))
        }
        _ => false,
    }
}

// Whether a label begins a line of these pieces.
fn has_label(pieces: &[Piece]) -> bool
    ensures label { (text : List ℕ) → result ≡ has_label (pieces_said text pieces.now) }
    ensures long { result ≡ true → 2 ≤ length pieces.now }
{
    matches!(pieces, [Piece::Is(Operand::Named(_)), Piece::Colon, ..])
}

// Whether a line of these pieces places something.
fn places_something(text: &[u8], pieces: &[Piece]) -> bool
    ensures { result ≡ places_something (pieces_said text.now pieces.now) }
{
    if has_label(pieces) {
        begins_placing(text, &pieces[2..])
    } else {
        begins_placing(text, pieces)
    }
}

/// For each line that is not empty, whether it begins with a word that places something: an instruction,
/// a pseudo-instruction, `.word`, `.space`, `.code` or `.ram`.
pub fn placing_lines(alloc: Global, text: &[u8], tokens: &[Token]) -> Result<Vec<bool>, AllocError>
    ensures { IfOk result (λ found. found.items ≡ placing_lines text.now tokens.now) }
{
    let mut placing = Vec::new(alloc);
    let mut pieces = Vec::new(alloc);
    let mut at: usize = 0;
    while at < tokens.len() {
        let end = row_end(tokens, at);
        if at < end {
            refill(&mut pieces, &tokens[at..end])?;
            placing.push(places_something(text, &pieces))?;
        }
        at = end + 1;
    }
    Ok(placing)
}
