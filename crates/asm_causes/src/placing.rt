// Where lines begin.

ghost use Rattle.std.specs.Prelude.{◌≡◌, ◌+◌, ◌<◌, ◌≤◌, ◌^◌, ℕ, List, map, length, IfOk, if◌then◌else◌};
ghost use Rattle.asm_places.specs.NamesView.{known_in};
ghost use Rattle.asm_lines.specs.Pieces.{piece_of, operands_among};
ghost use Rattle.asm_lines.specs.Kept.{statement_said, line_said, lines_said};
ghost use Rattle.asm_causes.specs.Places as places;
ghost use Rattle.asm_causes.specs.PlaceSteps as steps;
ghost use Rattle.asm_causes.specs.Calm as spec;
ghost use Rattle.asm_causes.specs.Sizes.{AreSmall, HasSmallNumbers, HaveSmallNumbers, most_bytes};

use crate::checks::{is_early, is_instruction};
use asm_lines::{Line, Piece, Section, Statement, make_piece};
use asm_places::{
    Counts, LinePlaces, NO_COUNTS, NO_PLACE, Names, Place, constant_of, counted, fits_low,
};
use std::alloc::{AllocError, Global};
use text_lex::Token;

fn operand_count(tokens: &[Token]) -> usize
    ensures value { (text : List ℕ) → result ≡ length (operands_among (map (piece_of text) tokens.now)) }
    ensures within { result ≤ length tokens.now }
{
    let mut count = 0;
    for token in tokens {
        if let Piece::Is(_) = make_piece(token) {
            count += 1;
        }
    }
    count
}

/// The bytes of `.space`.
pub fn space_size(constant: Option<i64>) -> u64
    ensures { result ≡ places.space_size constant }
{
    match constant {
        Some(value) if value >= 0 => value.cast_unsigned(),
        _ => 0,
    }
}

fn load_size(constant: Option<i64>) -> u64
    ensures { result ≡ places.load_size constant }
{
    match constant {
        None => 0,
        Some(value) => { if fits_low(value) { 4 } else { 8 } }
    }
}

/// The bytes that a statement gives on a line that has no early cause.
pub fn size_of(text: &[u8], names: &Names, statement: &Statement) -> u64
    ensures value { result ≡ places.size_of (known_in names.now) (statement_said text.now statement.now) }
    ensures few { AreSmall (known_in names.now) → HasSmallNumbers (statement_said text.now statement.now) → result ≤ most_bytes }
{
    match statement {
        Statement::Words(listed) => 4 * operand_count(listed.tokens()) as u64,
        Statement::Space(constant) => space_size(constant_of(text, names, *constant)),
        Statement::LoadConstant(_, constant) => load_size(constant_of(text, names, *constant)),
        Statement::LoadValue(_, _) | Statement::CallService(_) => 8,
        _ => { if is_instruction(statement) { 4 } else { 0 } }
    }
}

// The bytes that a line gives of which it is known whether it has an early cause.
fn bytes_unless(early: bool, text: &[u8], names: &Names, statement: &Statement) -> u64
    ensures few { AreSmall (known_in names.now) → HasSmallNumbers (statement_said text.now statement.now) → result ≤ most_bytes }
    ensures value { result ≡ (if early then 0 else places.size_of (known_in names.now) (statement_said text.now statement.now)) }
{
    if early {
        0
    } else {
        size_of(text, names, statement)
    }
}

/// The bytes that a line gives: none with a cause that does not hang on places.
pub fn bytes_of(text: &[u8], names: &Names, counts: Counts, section: Section, line: &Line) -> u64
    ensures { result ≡ places.bytes_of (known_in names.now) counts section (line_said text.now line.now) }
{
    let early = is_early(text, names, counts, section, line);
    bytes_unless(early, text, names, &line.statement)
}

// So many bytes more in a section.
fn filled(section: Section, size: u64, place: Place) -> Place
    requires code { place.code + size < 2 ^ 64 }
    requires ram { place.ram + size < 2 ^ 64 }
    ensures { result ≡ steps.filled section size place }
{
    let mut after = place;
    match section {
        Section::Nowhere => {}
        Section::Code => after.code += size,
        Section::Ram => after.ram += size,
    }
    after
}

fn turned(statement: &Statement, place: Place) -> Place
    ensures { (text : List ℕ) → result ≡ steps.turned (statement_said text statement.now) place }
{
    match statement {
        Statement::Section(section) => Place {
            section: *section,
            code: place.code,
            ram: place.ram,
        },
        _ => place,
    }
}

/// Where the line behind one of so many bytes begins.
pub fn place_behind(place: Place, size: u64, statement: &Statement) -> Place
    requires code { place.code + size < 2 ^ 64 }
    requires ram { place.ram + size < 2 ^ 64 }
    ensures { (text : List ℕ) → result ≡ steps.turned (statement_said text statement.now) (steps.filled place.section size place) }
{
    turned(statement, filled(place.section, size, place))
}

// How many lines stand before the first with an early cause, with one line more.
fn calm_after(calm: usize, is_calm: bool) -> usize
    requires { calm < 2 ^ 62 }
    ensures { result ≡ calm + (if is_calm then 1 else 0) }
{
    if is_calm { calm + 1 } else { calm }
}

/// Where the lines of a text begin.
#[derive(Drop)]
pub struct Placed {
    pub places: LinePlaces,
    /// How many lines stand before the first that has an early cause.
    pub calm: usize,
}

/// Where the lines of a text begin.
pub fn places_of(
    alloc: Global,
    text: &[u8],
    names: &Names,
    lines: &[Line],
) -> Result<Placed, AllocError>
    requires few_lines { length lines.now ≤ 2 ^ 24 }
    requires lines { HaveSmallNumbers (lines_said text.now lines.now) }
    requires names { AreSmall (known_in names.now) }
    ensures places { IfOk result (λ found. found.places ≡ steps.places_of (known_in names.now) (lines_said text.now lines.now)) }
    ensures calm { IfOk result (λ found. found.calm ≡ spec.calm_lines (known_in names.now) (lines_said text.now lines.now)) }
{
    let mut places = LinePlaces::new(alloc);
    let mut counts = NO_COUNTS;
    let mut place = NO_PLACE;
    let mut calm: usize = 0;
    let mut is_calm = true;
    for line in lines {
        places.push(place)?;
        let early = is_early(text, names, counts, place.section, line);
        is_calm &= !early;
        calm = calm_after(calm, is_calm);
        let size = bytes_unless(early, text, names, &line.statement);
        place = place_behind(place, size, &line.statement);
        counts = counted(&line.statement, counts);
    }
    Ok(Placed { places, calm })
}
