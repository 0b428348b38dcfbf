// The cause that a line is refused with.

ghost use Rattle.std.specs.Prelude.{◌≡◌, true, false};
ghost use Rattle.std.specs.List.{find};
ghost use Rattle.asm_lines.specs.Kept.{statement_said, line_said};
ghost use Rattle.asm_places.specs.NamesView.{known_in};
ghost use Rattle.asm_causes.specs.Causes.{is_early};
ghost use Rattle.asm_causes.specs.Refusal as refusal;
ghost use Rattle.asm_causes.specs.Calm as spec;

use crate::causes::AsmCause;
use crate::checks::{has_early, has_far_target};
use crate::placing::{bytes_of, size_of};
use asm_lines::{Line, Section, Statement};
use asm_places::{Counts, LinePlaces, Names, Place};

const CODE_BYTES: u64 = 4 * 16_384;

const RAM_BYTES: u64 = 262_144;

fn overfills_code(place: Place, section: Section, size: u64) -> bool
    ensures { result ≡ refusal.overfills_code place section size }
{
    match section {
        Section::Code => size > 0 && place.code.saturating_add(size) > CODE_BYTES,
        _ => false,
    }
}

fn overfills_ram(place: Place, section: Section, size: u64) -> bool
    ensures { result ≡ refusal.overfills_ram place section size }
{
    match section {
        Section::Ram => size > 0 && place.ram.saturating_add(size) > RAM_BYTES,
        _ => false,
    }
}

// A line of a text, with all that decides whether it has a cause.
#[derive(Clone, Copy)]
struct LineContext<'a> {
    text: &'a [u8],
    names: &'a Names<'a>,
    places: &'a LinePlaces,
    counts: Counts,
    place: Place,
    line: &'a Line<'a>,
}

// Whether a line has a cause.
fn has(context: &LineContext, cause: AsmCause) -> bool
    ensures { result ≡ refusal.has (known_in context.now.names.now) context.now.places.now context.now.counts context.now.place (line_said context.now.text.now context.now.line.now) cause }
{
    let LineContext {
        text,
        names,
        places,
        counts,
        place,
        line,
    } = *context;
    match cause {
        AsmCause::TargetRange => has_far_target(text, names, places, place, &line.statement),
        AsmCause::CodeFull => {
            let size = bytes_of(text, names, counts, place.section, line);
            overfills_code(place, place.section, size)
        }
        AsmCause::RamFull => {
            let size = bytes_of(text, names, counts, place.section, line);
            overfills_ram(place, place.section, size)
        }
        _ => has_early(text, names, counts, place.section, line, cause),
    }
}

static CAUSES: [AsmCause; 14] = [
    AsmCause::UnknownStatement,
    AsmCause::WrongForm,
    AsmCause::NoRegister,
    AsmCause::ConstantRange,
    AsmCause::DefinedTwice,
    AsmCause::Undefined,
    AsmCause::WrongKind,
    AsmCause::WrongSection,
    AsmCause::TargetRange,
    AsmCause::CodeFull,
    AsmCause::RamFull,
    AsmCause::LongName,
    AsmCause::UnknownSetting,
    AsmCause::TooMany,
];

// The first of some causes that a line has.
fn first_cause(context: &LineContext, wanted: &[AsmCause]) -> Option<AsmCause>
    ensures { result ≡ find (refusal.has (known_in context.now.names.now) context.now.places.now context.now.counts context.now.place (line_said context.now.text.now context.now.line.now)) wanted.now }
{
    for cause in wanted {
        if has(context, *cause) {
            return Some(*cause);
        }
    }
    None
}

// The cause of a line that has no early one.
fn late_cause(
    text: &[u8],
    names: &Names,
    places: &LinePlaces,
    place: Place,
    statement: &Statement,
) -> Option<AsmCause>
    ensures { result ≡ spec.late_cause (known_in names.now) places.now place (statement_said text.now statement.now) }
{
    if has_far_target(text, names, places, place, statement) {
        return Some(AsmCause::TargetRange);
    }
    let size = size_of(text, names, statement);
    if overfills_code(place, place.section, size) {
        return Some(AsmCause::CodeFull);
    }
    if overfills_ram(place, place.section, size) {
        return Some(AsmCause::RamFull);
    }
    None
}

/// The cause that a line is refused with, if it has one. Of a calm line it is known that it has no
/// early cause.
pub fn cause_of(
    text: &[u8],
    names: &Names,
    places: &LinePlaces,
    counts: Counts,
    place: Place,
    line: &Line,
    calm: bool,
) -> Option<AsmCause>
    requires calm { calm ≡ true → is_early (known_in names.now) counts place.section (line_said text.now line.now) ≡ false }
    ensures { result ≡ refusal.cause_of (known_in names.now) places.now counts place (line_said text.now line.now) }
{
    if calm {
        return late_cause(text, names, places, place, &line.statement);
    }
    let context = LineContext {
        text,
        names,
        places,
        counts,
        place,
        line,
    };
    first_cause(&context, &CAUSES)
}
