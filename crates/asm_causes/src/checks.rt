// Whether a line has a cause.

ghost use Rattle.std.specs.Prelude.{◌≡◌, ℕ, List, map, not, false};
ghost use Rattle.std.specs.Option.{option_map, option_map_or};
ghost use Rattle.std.specs.List.{list_any};
ghost use Rattle.asm_lines.specs.Pieces.{piece_of, operands_among};
ghost use Rattle.asm_lines.specs.Kept.{operand_said, statement_said, line_said, spelling as spelling_of};
ghost use Rattle.asm_places.specs.NamesView.{known_in};
ghost use Rattle.asm_places.specs.Names.{meaning as meaning_of};
ghost use Rattle.asm_places.specs.Operands.{registers_in, values_in};
ghost use Rattle.asm_causes.specs.Causes as causes;

use crate::causes::AsmCause;
use asm_lines::{Line, Operand, Piece, Section, Span, Statement, make_piece, spelling};
use asm_places::{
    Counts, Definition, LinePlaces, Meaning, Names, Place, constant_in, constant_of, definition_of,
    fits_low, fits_shift, fits_upper, meaning, offset_of, target_in,
};
use text_lex::Token;

fn is_register(register: Option<u8>) -> bool
    ensures { result ≡ causes.is_register register }
{
    match register {
        None => false,
        Some(number) => number < 32,
    }
}

fn has_no_register(statement: &Statement) -> bool
    ensures { (text : List ℕ) → result ≡ list_any (λ r. not (causes.is_register r)) (registers_in (statement_said text statement.now)) }
{
    match statement {
        Statement::Registers(_, d, s, t) => !is_register(*d)
            || !is_register(*s)
            || !is_register(*t),
        Statement::Immediate(_, a, b, _)
        | Statement::Shift(_, a, b, _)
        | Statement::Store(_, a, b, _) => { !is_register(*a) || !is_register(*b) }
        Statement::Branch(_, a, b, _) => !is_register(*a) || !is_register(*b),
        Statement::Upper(_, d, _) | Statement::LoadConstant(d, _) | Statement::LoadValue(d, _) =>
            !is_register(*d),
        Statement::Jump(d, _) => !is_register(*d),
        _ => false,
    }
}

// A length of `.space`.
fn is_length(value: i64) -> bool
    ensures { result ≡ causes.is_length value }
{
    value >= 0 && value.cast_unsigned() % 4 == 0
}

fn constant_fits(statement: &Statement, value: i64) -> bool
    ensures { (text : List ℕ) → result ≡ causes.constant_fits (statement_said text statement.now) value }
{
    match statement {
        Statement::Space(_) => is_length(value),
        Statement::Immediate(_, _, _, _) | Statement::Store(_, _, _, _) => fits_low(value),
        Statement::Shift(_, _, _, _) => fits_shift(value),
        Statement::Upper(_, _, _) => fits_upper(value),
        _ => true,
    }
}

fn is_out_of_range(statement: &Statement, value: Option<i64>) -> bool
    ensures { (text : List ℕ) → result ≡ causes.is_out_of_range (statement_said text statement.now) value }
{
    match value {
        None => false,
        Some(value) => !constant_fits(statement, value),
    }
}

fn has_constant_out_of_range(text: &[u8], names: &Names, statement: &Statement) -> bool
    ensures { result ≡ causes.has_constant_out_of_range (known_in names.now) (statement_said text.now statement.now) }
{
    match constant_in(statement) {
        None => false,
        Some(operand) => is_out_of_range(statement, constant_of(text, names, operand)),
    }
}

fn is_on(lines: usize, line: Option<usize>) -> bool
    ensures { result ≡ causes.is_on lines line }
{
    match line {
        None => false,
        Some(line) => line == lines,
    }
}

fn is_label_of(counts: Counts, definition: Option<Definition>) -> bool
    ensures { result ≡ causes.is_label_of counts definition }
{
    match definition {
        Some(
            Definition {
                line,
                meaning: Meaning::Label(_),
            },
        ) => is_on(counts.lines, line),
        _ => false,
    }
}

fn is_statement_of(counts: Counts, definition: Option<Definition>) -> bool
    ensures { result ≡ causes.is_statement_of counts definition }
{
    match definition {
        Some(
            Definition {
                line,
                meaning: Meaning::Constant(_),
            },
        ) => is_on(counts.lines, line),
        _ => false,
    }
}

fn label_again(text: &[u8], names: &Names, counts: Counts, label: Option<Span>) -> bool
    ensures { result ≡ causes.label_again (known_in names.now) counts (option_map (spelling_of text.now) label) }
{
    match label {
        None => false,
        Some(name) => !is_label_of(counts, definition_of(text, names, name)),
    }
}

fn name_in(statement: &Statement) -> Option<Span>
    ensures { (text : List ℕ) → option_map (spelling_of text) result ≡ causes.name_in (statement_said text statement.now) }
{
    match statement {
        Statement::Equ(name, _) => Some(*name),
        Statement::Task(name, _) => Some(*name),
        Statement::Object(name, _, _) => Some(*name),
        _ => None,
    }
}

fn name_again(text: &[u8], names: &Names, counts: Counts, name: Option<Span>) -> bool
    ensures { result ≡ causes.name_again (known_in names.now) counts (option_map (spelling_of text.now) name) }
{
    match name {
        None => false,
        Some(name) => !is_statement_of(counts, definition_of(text, names, name)),
    }
}

fn is_undefined(text: &[u8], names: &Names, name: Span) -> bool
    ensures { result ≡ causes.is_undefined (known_in names.now) (spelling_of text.now name) }
{
    meaning(text, names, name).is_none()
}

fn stands_for_nothing(text: &[u8], names: &Names, operand: Operand) -> bool
    ensures { result ≡ causes.stands_for_nothing (known_in names.now) (operand_said text.now operand) }
{
    match operand {
        Operand::Number(_) => false,
        Operand::Named(name) => is_undefined(text, names, name),
    }
}

fn some_stands_for_nothing(text: &[u8], names: &Names, operands: &[Operand]) -> bool
    ensures { result ≡ list_any (causes.stands_for_nothing (known_in names.now)) (map (operand_said text.now) operands.now) }
{
    for operand in operands {
        if stands_for_nothing(text, names, *operand) {
            return true;
        }
    }
    false
}

fn some_listed_stands_for_nothing(text: &[u8], names: &Names, tokens: &[Token]) -> bool
    ensures { result ≡ list_any (causes.stands_for_nothing (known_in names.now)) (operands_among (map (piece_of text.now) tokens.now)) }
{
    for token in tokens {
        if let Piece::Is(operand) = make_piece(token) {
            if stands_for_nothing(text, names, operand) {
                return true;
            }
        }
    }
    false
}

fn some_value_stands_for_nothing(text: &[u8], names: &Names, statement: &Statement) -> bool
    ensures { result ≡ list_any (causes.stands_for_nothing (known_in names.now)) (values_in (statement_said text.now statement.now)) }
{
    match statement {
        Statement::Words(listed) => some_listed_stands_for_nothing(text, names, listed.tokens()),
        Statement::Task(_, values) => some_stands_for_nothing(text, names, values.all()),
        Statement::Object(_, _, values) => some_stands_for_nothing(text, names, values.all()),
        Statement::Vector(values) => some_stands_for_nothing(text, names, values.all()),
        Statement::Setting(_, value) => stands_for_nothing(text, names, *value),
        Statement::LoadValue(_, value) => stands_for_nothing(text, names, *value),
        _ => false,
    }
}

fn constant_stands_for_nothing(text: &[u8], names: &Names, constant: Option<Operand>) -> bool
    ensures { result ≡ option_map_or (causes.stands_for_nothing (known_in names.now)) (option_map (operand_said text.now) constant) false }
{
    match constant {
        None => false,
        Some(operand) => stands_for_nothing(text, names, operand),
    }
}

fn target_is_undefined(text: &[u8], names: &Names, target: Option<Span>) -> bool
    ensures { result ≡ option_map_or (causes.is_undefined (known_in names.now)) (option_map (spelling_of text.now) target) false }
{
    match target {
        None => false,
        Some(name) => is_undefined(text, names, name),
    }
}

fn has_undefined(text: &[u8], names: &Names, statement: &Statement) -> bool
    ensures { result ≡ causes.has_undefined (known_in names.now) (statement_said text.now statement.now) }
{
    constant_stands_for_nothing(text, names, constant_in(statement))
        || target_is_undefined(text, names, target_in(statement))
        || some_value_stands_for_nothing(text, names, statement)
}

fn constant_is_label(text: &[u8], names: &Names, constant: Option<Operand>) -> bool
    ensures { result ≡ option_map_or (causes.is_label_operand (known_in names.now)) (option_map (operand_said text.now) constant) false }
{
    match constant {
        Some(Operand::Named(name)) => matches!(meaning(text, names, name), Some(Meaning::Label(_))),
        _ => false,
    }
}

fn target_is_constant(text: &[u8], names: &Names, target: Option<Span>) -> bool
    ensures { result ≡ option_map_or (λ s. causes.is_constant (meaning_of (known_in names.now) s)) (option_map (spelling_of text.now) target) false }
{
    match target {
        None => false,
        Some(name) => matches!(meaning(text, names, name), Some(Meaning::Constant(_))),
    }
}

fn has_wrong_kind(text: &[u8], names: &Names, statement: &Statement) -> bool
    ensures { result ≡ causes.has_wrong_kind (known_in names.now) (statement_said text.now statement.now) }
{
    constant_is_label(text, names, constant_in(statement))
        || target_is_constant(text, names, target_in(statement))
}

/// Whether a statement is an instruction or a pseudo-instruction.
pub fn is_instruction(statement: &Statement) -> bool
    ensures { (text : List ℕ) → result ≡ causes.is_instruction (statement_said text statement.now) }
{
    matches!(
        statement,
        Statement::Registers(_, _, _, _)
            | Statement::Immediate(_, _, _, _)
            | Statement::Shift(_, _, _, _)
            | Statement::Store(_, _, _, _)
            | Statement::Branch(_, _, _, _)
            | Statement::Upper(_, _, _)
            | Statement::Jump(_, _)
            | Statement::Alone(_)
            | Statement::LoadConstant(_, _)
            | Statement::LoadValue(_, _)
            | Statement::CallService(_)
    )
}

fn is_placed(statement: &Statement) -> bool
    ensures { (text : List ℕ) → result ≡ causes.is_placed (statement_said text statement.now) }
{
    match statement {
        Statement::Words(_) | Statement::Space(_) => true,
        _ => is_instruction(statement),
    }
}

fn is_misplaced(section: Section, label: Option<Span>, statement: &Statement) -> bool
    ensures { (text : List ℕ) → result ≡ causes.is_misplaced section (option_map (spelling_of text) label) (statement_said text statement.now) }
{
    match section {
        Section::Nowhere => label.is_some() || is_placed(statement),
        Section::Code => false,
        Section::Ram => is_instruction(statement),
    }
}

/// How far it is from one line to another, each in its section.
pub fn distance(from: Place, to: Place) -> i128
    ensures { result ≡ causes.distance from to }
{
    i128::from(offset_of(to, to.section)) - i128::from(offset_of(from, from.section))
}

fn is_even(distance: i128) -> bool
    ensures { result ≡ causes.is_even distance }
{
    distance.unsigned_abs() % 2 == 0
}

fn branch_reaches(distance: i128) -> bool
    ensures { result ≡ causes.branch_reaches distance }
{
    -4096 <= distance && distance <= 4094 && is_even(distance)
}

fn jump_reaches(distance: i128) -> bool
    ensures { result ≡ causes.jump_reaches distance }
{
    -1_048_576 <= distance && distance <= 1_048_574 && is_even(distance)
}

fn reaches(statement: &Statement, distance: i128) -> bool
    ensures { (text : List ℕ) → result ≡ causes.reaches (statement_said text statement.now) distance }
{
    match statement {
        Statement::Branch(_, _, _, _) => branch_reaches(distance),
        Statement::Jump(_, _) => jump_reaches(distance),
        _ => true,
    }
}

fn is_ram(section: Section) -> bool
    ensures { result ≡ causes.is_ram section }
{
    matches!(section, Section::Ram)
}

fn is_out_of_reach(statement: &Statement, from: Place, to: Place) -> bool
    ensures { (text : List ℕ) → result ≡ causes.is_out_of_reach (statement_said text statement.now) from to }
{
    is_ram(to.section) || !reaches(statement, distance(from, to))
}

fn target_fails(
    places: &LinePlaces,
    statement: &Statement,
    from: Place,
    target: Option<Meaning>,
) -> bool
    ensures { (text : List ℕ) → result ≡ causes.target_fails places.now (statement_said text statement.now) from target }
{
    match target {
        Some(Meaning::Label(line)) => is_out_of_reach(statement, from, places.at(line)),
        _ => false,
    }
}

/// Whether a statement has a target that it does not reach from here.
pub fn has_far_target(
    text: &[u8],
    names: &Names,
    places: &LinePlaces,
    from: Place,
    statement: &Statement,
) -> bool
    ensures { result ≡ causes.has_far_target (known_in names.now) places.now from (statement_said text.now statement.now) }
{
    match target_in(statement) {
        None => false,
        Some(name) => target_fails(places, statement, from, meaning(text, names, name)),
    }
}

fn is_short(name: &[u8]) -> bool
    ensures { result ≡ causes.is_short name.now }
{
    1 <= name.len() && name.len() <= 16
}

fn has_long_name(text: &[u8], statement: &Statement) -> bool
    ensures { result ≡ causes.has_long_name (statement_said text.now statement.now) }
{
    match statement {
        Statement::Task(name, _) => !is_short(spelling(text, *name)),
        Statement::Object(name, _, _) => !is_short(spelling(text, *name)),
        _ => false,
    }
}

fn has_unknown_setting(statement: &Statement) -> bool
    ensures { (text : List ℕ) → result ≡ causes.has_unknown_setting (statement_said text statement.now) }
{
    match statement {
        Statement::Setting(key, _) => key.is_none(),
        _ => false,
    }
}

fn is_too_many(counts: Counts, statement: &Statement) -> bool
    ensures { (text : List ℕ) → result ≡ causes.is_too_many counts (statement_said text statement.now) }
{
    match statement {
        Statement::Task(_, _) => 60 <= counts.tasks,
        Statement::Object(_, _, _) => 64 <= counts.objects,
        Statement::Vector(_) => 32 <= counts.vectors,
        _ => false,
    }
}

fn is_unknown(statement: &Statement) -> bool
    ensures { (text : List ℕ) → result ≡ causes.is_unknown (statement_said text statement.now) }
{
    matches!(statement, Statement::Unknown)
}

fn is_malformed(statement: &Statement) -> bool
    ensures { (text : List ℕ) → result ≡ causes.is_malformed (statement_said text statement.now) }
{
    matches!(statement, Statement::Malformed)
}

fn is_defined_twice(text: &[u8], names: &Names, counts: Counts, line: &Line) -> bool
    ensures { result ≡ causes.is_defined_twice (known_in names.now) counts (line_said text.now line.now) }
{
    label_again(text, names, counts, line.label)
        || name_again(text, names, counts, name_in(&line.statement))
}

/// Whether a line has a cause that does not hang on places.
pub fn has_early(
    text: &[u8],
    names: &Names,
    counts: Counts,
    section: Section,
    line: &Line,
    cause: AsmCause,
) -> bool
    ensures { result ≡ causes.has_early (known_in names.now) counts section (line_said text.now line.now) cause }
{
    let statement = &line.statement;
    match cause {
        AsmCause::UnknownStatement => is_unknown(statement),
        AsmCause::WrongForm => is_malformed(statement),
        AsmCause::NoRegister => has_no_register(statement),
        AsmCause::ConstantRange => has_constant_out_of_range(text, names, statement),
        AsmCause::DefinedTwice => is_defined_twice(text, names, counts, line),
        AsmCause::Undefined => has_undefined(text, names, statement),
        AsmCause::WrongKind => has_wrong_kind(text, names, statement),
        AsmCause::WrongSection => is_misplaced(section, line.label, statement),
        AsmCause::LongName => has_long_name(text, statement),
        AsmCause::UnknownSetting => has_unknown_setting(statement),
        AsmCause::TooMany => is_too_many(counts, statement),
        _ => false,
    }
}

/// Whether a line has a cause with which it gives no bytes.
pub fn is_early(text: &[u8], names: &Names, counts: Counts, section: Section, line: &Line) -> bool
    ensures { result ≡ causes.is_early (known_in names.now) counts section (line_said text.now line.now) }
{
    let statement = &line.statement;
    is_unknown(statement)
        || is_malformed(statement)
        || has_no_register(statement)
        || has_constant_out_of_range(text, names, statement)
        || is_defined_twice(text, names, counts, line)
        || has_undefined(text, names, statement)
        || has_wrong_kind(text, names, statement)
        || is_misplaced(section, line.label, statement)
        || has_long_name(text, statement)
        || has_unknown_setting(statement)
        || is_too_many(counts, statement)
}
