// A text of declarations behind an executable.

ghost use Rattle.std.specs.Prelude.{◌≡◌, ◌<◌, ◌≤◌, ◌^◌, ℕ, List, Bool, [], false, length, slice_index_or, IfOk, IfErr};
ghost use Rattle.text_lex.specs.Tokens.{lexed, Tokens};
ghost use Rattle.app_image.specs.Raw.{IsMade};
ghost use Rattle.asm_lines.specs.Kept.{line_said, lines_said};
ghost use Rattle.asm_lines.specs.Lines.{read as read_lines};
ghost use Rattle.asm_lines.specs.Placing.{placing_lines as lines_that_place};
ghost use Rattle.asm_places.specs.NamesView.{known_in};
ghost use Rattle.rv32_asm.specs.Assembly.{Gives, IsFault};
ghost use Rattle.rv32_asm.specs.DraftView.{image_of_words, raw_of};
ghost use Rattle.rv32_asm.specs.Declarations.{declaration_cause, declared, declared_by, names_with};

use crate::AsmError;
use crate::assembling::add_line;
use crate::draft::Draft;
use app_image::{RawImage, Symbol};
use asm_causes::{AsmCause, cause_of};
use asm_lines::{Line, placing_lines, read};
use asm_places::{
    Counts, LinePlaces, NO_COUNTS, NO_PLACE, Names, counted, define_symbols, names_of,
};
use std::alloc::Global;
use text_lex::{TEXT_LIMIT, Token};

// Whether the line places something that so many lines stand before.
fn is_placing(placing: &[bool], line: usize) -> bool
    ensures { result ≡ slice_index_or placing.now line false }
{
    match placing.get(line) {
        Some(places) => *places,
        None => false,
    }
}

// The cause of a line that places something or not.
fn declaration_cause(
    text: &[u8],
    names: &Names,
    places: &LinePlaces,
    counts: Counts,
    line: &Line,
    is_placing: bool,
) -> Option<AsmCause>
    requires { places.now ≡ [] }
    ensures { result ≡ declaration_cause is_placing (known_in names.now) counts (line_said text.now line.now) }
{
    if is_placing {
        Some(AsmCause::UnknownStatement)
    } else {
        cause_of(text, names, places, counts, NO_PLACE, line, false)
    }
}

// What lines declare, or the first line with a cause.
fn declare_lines(
    mut draft: Draft,
    text: &[u8],
    names: &Names,
    places: &LinePlaces,
    placing: &[bool],
    lines: &[Line],
) -> Result<RawImage, AsmError>
    requires few_lines { length lines.now ≤ 2 ^ 24 }
    requires places { places.now ≡ [] }
    requires empty { raw_of draft ≡ image_of_words draft.code.items draft.ram.items }
    ensures image { IfOk result (λ raw. (used : ℕ) → declared_by (known_in names.now) (lines_said text.now lines.now) placing.now draft.code.items draft.ram.items used ≡ Gives raw used) }
    ensures fault { IfErr result (λ error. (used : ℕ) → IsFault error (declared_by (known_in names.now) (lines_said text.now lines.now) placing.now draft.code.items draft.ram.items used)) }
{
    let mut counts = NO_COUNTS;
    for line in lines {
        let places_bytes = is_placing(placing, counts.lines);
        if let Some(cause) = declaration_cause(text, names, places, counts, line, places_bytes) {
            return Err(AsmError::At(line.number, cause));
        }
        let Ok(()) = add_line(&mut draft, text, names, places, NO_PLACE, line) else {
            return Err(AsmError::NoMemory);
        };
        counts = counted(&line.statement, counts);
    }
    Ok(draft.into_raw())
}

// What the lines of a text declare, or the first line with a cause.
fn declare_all(
    alloc: Global,
    text: &[u8],
    lines: &[Line],
    placing: &[bool],
    bytes: &[u8],
    symbols: &[Symbol],
    draft: Draft,
) -> Result<RawImage, AsmError>
    requires few_lines { length lines.now ≤ 2 ^ 24 }
    requires empty { raw_of draft ≡ image_of_words draft.code.items draft.ram.items }
    ensures image { IfOk result (λ raw. (used : ℕ) → declared_by (names_with bytes.now symbols.now (lines_said text.now lines.now)) (lines_said text.now lines.now) placing.now draft.code.items draft.ram.items used ≡ Gives raw used) }
    ensures fault { IfErr result (λ error. (used : ℕ) → IsFault error (declared_by (names_with bytes.now symbols.now (lines_said text.now lines.now)) (lines_said text.now lines.now) placing.now draft.code.items draft.ram.items used)) }
{
    let Ok(mut names) = names_of(alloc, text, lines) else {
        return Err(AsmError::NoMemory);
    };
    let Ok(()) = define_symbols(&mut names, bytes, symbols) else {
        return Err(AsmError::NoMemory);
    };
    let places = LinePlaces::new(alloc);
    declare_lines(draft, text, &names, &places, placing, lines)
}

// What a text declares, or the first line with a cause.
fn declare_text(
    alloc: Global,
    text: &[u8],
    tokens: &[Token],
    bytes: &[u8],
    symbols: &[Symbol],
    draft: Draft,
) -> Result<(RawImage, usize), AsmError>
    requires few { length tokens.now < 2 ^ 24 }
    requires empty { raw_of draft ≡ image_of_words draft.code.items draft.ram.items }
    ensures image { IfOk result (λ given. declared text.now tokens.now bytes.now symbols.now draft.code.items draft.ram.items ≡ Gives given.0 given.1) }
    ensures fault { IfErr result (λ error. IsFault error (declared text.now tokens.now bytes.now symbols.now draft.code.items draft.ram.items)) }
{
    let Ok(reading) = read(alloc, text, tokens) else {
        return Err(AsmError::NoMemory);
    };
    let Ok(placing) = placing_lines(alloc, text, tokens) else {
        return Err(AsmError::NoMemory);
    };
    match declare_all(alloc, text, &reading.lines, &placing, bytes, symbols, draft) {
        Ok(raw) => Ok((raw, reading.used)),
        Err(error) => Err(error),
    }
}

/// The raw image that an executable and the text of declarations behind it give, up to the text's line
/// `.inject`, and the index of the first token behind that line, or the number of tokens where there is
/// none. The tokens are those of the text; the names of the symbols stand in `bytes`.
pub fn declare(
    alloc: Global,
    text: &[u8],
    tokens: &[Token],
    bytes: &[u8],
    symbols: &[Symbol],
    code: Vec<u32>,
    ram: Vec<u32>,
) -> Result<(RawImage, usize), AsmError>
    requires short { length text.now ≤ TEXT_LIMIT }
    requires tokens { lexed text.now ≡ Tokens tokens.now }
    requires code { length code.items ≤ 16384 }
    requires ram { length ram.items ≤ 65536 }
    ensures image { IfOk result (λ given. declared text.now tokens.now bytes.now symbols.now code.items ram.items ≡ Gives given.0 given.1) }
    ensures made { IfOk result (λ given. IsMade given.0) }
    ensures fault { IfErr result (λ error. IsFault error (declared text.now tokens.now bytes.now symbols.now code.items ram.items)) }
{
    let draft = Draft::with_words(alloc, code, ram);
    declare_text(alloc, text, tokens, bytes, symbols, draft)
}
