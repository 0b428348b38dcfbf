// The operands of statements by what may stand there, and their values.

ghost use Rattle.std.specs.Prelude.{◌≡◌, ℕ, List, pos};
ghost use Rattle.std.specs.Option.{option_map};
ghost use Rattle.asm_lines.specs.Kept.{operand_said, statement_said, spelling};
ghost use Rattle.asm_places.specs.NamesView.{known_in};
ghost use Rattle.asm_places.specs.Operands as operands;

use crate::line_places::LinePlaces;
use crate::names::{Names, meaning};
use crate::places::{Meaning, Place};
use asm_lines::{Operand, Section, Span, Statement};

/// Where RAM begins.
const RAM_START: u64 = 0x10_0000;

/// The constant of a statement.
pub fn constant_in(statement: &Statement) -> Option<Operand>
    ensures { (text : List ℕ) → option_map (operand_said text) result ≡ operands.constant_in (statement_said text statement.now) }
{
    match statement {
        Statement::Space(constant)
        | Statement::Immediate(_, _, _, constant)
        | Statement::Shift(_, _, _, constant)
        | Statement::Store(_, _, _, constant)
        | Statement::Upper(_, _, constant)
        | Statement::LoadConstant(_, constant) => Some(*constant),
        _ => None,
    }
}

/// The target of a statement.
pub fn target_in(statement: &Statement) -> Option<Span>
    ensures { (text : List ℕ) → option_map (spelling text) result ≡ operands.target_in (statement_said text statement.now) }
{
    match statement {
        Statement::Branch(_, _, _, target) | Statement::Jump(_, target) => Some(*target),
        _ => None,
    }
}

fn number_of(meaning: Option<Meaning>) -> Option<i64>
    ensures { result ≡ operands.number_of meaning }
{
    match meaning {
        Some(Meaning::Constant(value)) => Some(value),
        _ => None,
    }
}

/// The number that an operand is, if it is a constant.
pub fn constant_of(text: &[u8], names: &Names, operand: Operand) -> Option<i64>
    ensures { result ≡ operands.constant_of (known_in names.now) (operand_said text.now operand) }
{
    match operand {
        Operand::Number(value) => Some(value),
        Operand::Named(name) => number_of(meaning(text, names, name)),
    }
}

/// The bytes before a line in a section.
pub fn offset_of(place: Place, section: Section) -> u64
    ensures { result ≡ operands.offset_of place section }
{
    match section {
        Section::Nowhere => 0,
        Section::Code => place.code,
        Section::Ram => place.ram,
    }
}

fn base_of(section: Section) -> u64
    ensures { result ≡ operands.base_of section }
{
    match section {
        Section::Nowhere | Section::Code => 0,
        Section::Ram => RAM_START,
    }
}

// The address where a line begins.
fn address_of(place: Place) -> u128
    ensures { result ≡ operands.address_of place }
{
    u128::from(base_of(place.section)) + u128::from(offset_of(place, place.section))
}

/// A number modulo 2^32.
pub fn word_of(value: i64) -> u32
    ensures { result ≡ operands.word_of value }
{
    (value.cast_unsigned() % 0x1_0000_0000) as u32
}

// The word that a meaning is: a constant, or the address of a label.
fn word_for(places: &LinePlaces, meaning: Option<Meaning>) -> u32
    ensures { result ≡ operands.word_for places.now meaning }
{
    match meaning {
        None => 0,
        Some(Meaning::Constant(value)) => word_of(value),
        Some(Meaning::Label(line)) => (address_of(places.at(line)) % 0x1_0000_0000) as u32,
    }
}

/// The word that an operand is.
pub fn value_of(text: &[u8], names: &Names, places: &LinePlaces, operand: Operand) -> u32
    ensures { result ≡ operands.value_of (known_in names.now) places.now (operand_said text.now operand) }
{
    match operand {
        Operand::Number(value) => word_of(value),
        Operand::Named(name) => word_for(places, meaning(text, names, name)),
    }
}

fn is_within(least: i64, greatest: i64, value: i64) -> bool
    ensures { result ≡ operands.is_within least greatest value }
{
    least <= value && value <= greatest
}

/// Whether 12 bits hold a signed number.
pub fn fits_low(value: i64) -> bool
    ensures { result ≡ operands.fits_low value }
{
    is_within(-2048, 2047, value)
}

/// Whether 20 bits hold a number.
pub fn fits_upper(value: i64) -> bool
    ensures { result ≡ operands.is_within (pos 0) (pos 1048575) value }
{
    is_within(0, 1_048_575, value)
}

/// Whether 5 bits hold a number.
pub fn fits_shift(value: i64) -> bool
    ensures { result ≡ operands.is_within (pos 0) (pos 31) value }
{
    is_within(0, 31, value)
}
