// The whole text.

ghost use Rattle.std.specs.Prelude.{◌≡◌, ◌<◌, ◌≤◌, ◌^◌, ℕ, List, false, not, length, map, OnOk, IfOk, IfErr};
ghost use Rattle.std.specs.List.{list_any};
ghost use Rattle.text_lex.specs.Tokens.{lexed, Tokens};
ghost use Rattle.app_image.specs.Raw.{IsMade};
ghost use Rattle.asm_lines.specs.Kept.{operand_said, statement_said, lines_said};
ghost use Rattle.asm_places.specs.NamesView.{known_in};
ghost use Rattle.asm_places.specs.NameSteps.{no_counts};
ghost use Rattle.asm_places.specs.Operands.{no_place, registers_in, value_of as value_for};
ghost use Rattle.asm_causes.specs.Causes.{is_register, has_constant_out_of_range, has_far_target, has_long_name};
ghost use Rattle.rv32_asm.specs.Assembled as given;
ghost use Rattle.rv32_asm.specs.Assembled.{assembled};
ghost use Rattle.rv32_asm.specs.Steps.{assembled_by_steps, assembled_from, assembled_lines, empty_image, with_statement, with_words};
ghost use Rattle.rv32_asm.specs.Assembly.{Gives, IsFault};
ghost use Rattle.asm_causes.specs.Calm.{calm_lines};
ghost use Rattle.asm_causes.specs.Sizes.{AreSmall, HaveSmallNumbers};
ghost use Rattle.rv32_asm.specs.DraftView.{raw_of};

use crate::AsmError;
use crate::draft::Draft;
use crate::instructions::push_words;
use app_image::{ConfigLine, Name, ObjDef, RawImage, TaskDef, VectorDef};
use asm_causes::{cause_of, place_behind, places_of, size_of};
use asm_lines::{Line, Operand, Section, Statement, read, spelling};
use asm_places::{LinePlaces, NO_COUNTS, NO_PLACE, Names, Place, counted, names_of, value_of};
use std::alloc::{AllocError, Global};
use text_lex::{TEXT_LIMIT, Token};

// The words that four operands are.
fn four_words(text: &[u8], names: &Names, places: &LinePlaces, values: &[Operand; 4]) -> [u32; 4]
    ensures { result ≡ map (value_for (known_in names.now) places.now) (map (operand_said text.now) values.now) }
{
    [
        value_of(text, names, places, values[0]),
        value_of(text, names, places, values[1]),
        value_of(text, names, places, values[2]),
        value_of(text, names, places, values[3]),
    ]
}

// The words that five operands are.
fn five_words(text: &[u8], names: &Names, places: &LinePlaces, values: &[Operand; 5]) -> [u32; 5]
    ensures { result ≡ map (value_for (known_in names.now) places.now) (map (operand_said text.now) values.now) }
{
    [
        value_of(text, names, places, values[0]),
        value_of(text, names, places, values[1]),
        value_of(text, names, places, values[2]),
        value_of(text, names, places, values[3]),
        value_of(text, names, places, values[4]),
    ]
}

// The task with this name on a line.
fn task_of(name: &[u8], values: [u32; 5], line: u32) -> TaskDef
    requires some { 1 ≤ length name.now }
    requires short { length name.now ≤ 16 }
    ensures { result ≡ given.task_of name.now line values }
{
    let [entry, prio, quanta, qsize, sp] = values;
    TaskDef {
        name: Name::of(name),
        entry,
        prio,
        quanta,
        qsize,
        sp,
        line,
    }
}

// The vector on a line.
fn vector_of(values: [u32; 4], line: u32) -> VectorDef
    ensures { result ≡ given.vector_of line values }
{
    let [number, level, entry, sp] = values;
    VectorDef {
        number,
        level,
        entry,
        sp,
        line,
    }
}

/// Adds what a line gives that begins at a place and has no cause.
pub fn add_line(
    draft: &mut Draft,
    text: &[u8],
    names: &Names,
    places: &LinePlaces,
    place: Place,
    line: &Line,
) -> Result<(), AllocError>
    requires registers { list_any (λ r. not (is_register r)) (registers_in (statement_said text.now line.now.statement)) ≡ false }
    requires constant { has_constant_out_of_range (known_in names.now) (statement_said text.now line.now.statement) ≡ false }
    requires target { has_far_target (known_in names.now) places.now place (statement_said text.now line.now.statement) ≡ false }
    requires name { has_long_name (statement_said text.now line.now.statement) ≡ false }
    ensures { OnOk result (raw_of draft.new ≡ with_statement (known_in names.now) places.now line.now.number place (statement_said text.now line.now.statement) (raw_of draft.old)) }
{
    match &line.statement {
        Statement::Task(name, values) => {
            let values = five_words(text, names, places, values.all());
            let task = task_of(spelling(text, *name), values, line.number);
            draft.tasks.push(task)?;
            Ok(())
        }
        Statement::Object(name, kind, values) => {
            draft.objects.push(ObjDef {
                name: Name::of(spelling(text, *name)),
                kind: *kind,
                f: four_words(text, names, places, values.all()),
                line: line.number,
            })?;
            Ok(())
        }
        Statement::Vector(values) => {
            let values = four_words(text, names, places, values.all());
            draft.vectors.push(vector_of(values, line.number))?;
            Ok(())
        }
        Statement::Setting(Some(key), value) => {
            draft.config.push(ConfigLine {
                key: *key,
                value: value_of(text, names, places, *value),
                line: line.number,
            })?;
            Ok(())
        }
        Statement::Setting(None, _) => Ok(()),
        statement => {
            let words = &mut draft.words;
            words.clear();
            push_words(words, text, names, places, place, statement)?;
            add_scratch(draft, place.section)
        }
    }
}

// Adds the words of a line to a section.
fn add_scratch(draft: &mut Draft, section: Section) -> Result<(), AllocError>
    ensures { OnOk result (raw_of draft.new ≡ with_words section draft.old.words.items (raw_of draft.old)) }
{
    match section {
        Section::Nowhere => Ok(()),
        Section::Code => draft.code.extend_from_slice(&draft.words),
        Section::Ram => draft.ram.extend_from_slice(&draft.words),
    }
}

// What lines give, or the first line with a cause. The first `calm` lines have no early cause.
fn assemble_lines(
    alloc: Global,
    text: &[u8],
    names: &Names,
    places: &LinePlaces,
    calm: usize,
    lines: &[Line],
) -> Result<RawImage, AsmError>
    requires few_lines { length lines.now ≤ 2 ^ 24 }
    requires small { HaveSmallNumbers (lines_said text.now lines.now) }
    requires names { AreSmall (known_in names.now) }
    requires calm { calm ≡ calm_lines (known_in names.now) (lines_said text.now lines.now) }
    ensures image { IfOk result (λ raw. (used : ℕ) → assembled_from (known_in names.now) places.now no_counts no_place empty_image used (lines_said text.now lines.now) ≡ Gives raw used) }
    ensures fault { IfErr result (λ error. (used : ℕ) → IsFault error (assembled_from (known_in names.now) places.now no_counts no_place empty_image used (lines_said text.now lines.now))) }
{
    let mut draft = Draft::new(alloc);
    let mut counts = NO_COUNTS;
    let mut place = NO_PLACE;
    for line in lines {
        let is_calm = counts.lines < calm;
        if let Some(cause) = cause_of(text, names, places, counts, place, line, is_calm) {
            return Err(AsmError::At(line.number, cause));
        }
        let Ok(()) = add_line(&mut draft, text, names, places, place, line) else {
            return Err(AsmError::NoMemory);
        };
        let size = size_of(text, names, &line.statement);
        place = place_behind(place, size, &line.statement);
        counts = counted(&line.statement, counts);
    }
    Ok(draft.into_raw())
}

// What the lines of a text give, or the first line with a cause.
fn assemble_all(alloc: Global, text: &[u8], lines: &[Line]) -> Result<RawImage, AsmError>
    requires few_lines { length lines.now ≤ 2 ^ 24 }
    requires small { HaveSmallNumbers (lines_said text.now lines.now) }
    ensures image { IfOk result (λ raw. (used : ℕ) → assembled_lines (record { lines = lines_said text.now lines.now; used = used }) ≡ Gives raw used) }
    ensures fault { IfErr result (λ error. (used : ℕ) → IsFault error (assembled_lines (record { lines = lines_said text.now lines.now; used = used }))) }
{
    let Ok(names) = names_of(alloc, text, lines) else {
        return Err(AsmError::NoMemory);
    };
    let Ok(placed) = places_of(alloc, text, &names, lines) else {
        return Err(AsmError::NoMemory);
    };
    assemble_lines(alloc, text, &names, &placed.places, placed.calm, lines)
}

// What a text gives whose tokens are few.
fn assemble_few(alloc: Global, text: &[u8], tokens: &[Token]) -> Result<(RawImage, usize), AsmError>
    requires few { length tokens.now < 2 ^ 24 }
    requires tokens { lexed text.now ≡ Tokens tokens.now }
    ensures image { IfOk result (λ given. assembled_by_steps text.now tokens.now ≡ Gives given.0 given.1) }
    ensures fault { IfErr result (λ error. IsFault error (assembled_by_steps text.now tokens.now)) }
{
    let Ok(reading) = read(alloc, text, tokens) else {
        return Err(AsmError::NoMemory);
    };
    match assemble_all(alloc, text, &reading.lines) {
        Ok(raw) => Ok((raw, reading.used)),
        Err(error) => Err(error),
    }
}

/// The raw image that a text gives, up to its line `.inject`, and the index of the first token behind
/// that line, or the number of tokens where there is none. The tokens are those of the text.
pub fn assemble(alloc: Global, text: &[u8], tokens: &[Token]) -> Result<(RawImage, usize), AsmError>
    requires short { length text.now ≤ TEXT_LIMIT }
    requires tokens { lexed text.now ≡ Tokens tokens.now }
    ensures image { IfOk result (λ given. assembled text.now tokens.now ≡ Gives given.0 given.1) }
    ensures made { IfOk result (λ given. IsMade given.0) }
    ensures fault { IfErr result (λ error. IsFault error (assembled text.now tokens.now)) }
{
    assemble_few(alloc, text, tokens)
}
