// The names of a text and what they stand for.

ghost use Rattle.std.specs.Prelude.{◌≡◌, ◌<◌, ◌^◌, ℕ, List, length, OnOk, IfOk};
ghost use Rattle.std.specs.Option.{option_map, option_or};
ghost use Rattle.asm_places.specs.Names.{constant_defined, defined_at_start, first_of, label_defines, services_defined, statement_defines, meaning as meaning_of};
ghost use Rattle.asm_places.specs.NameSteps.{counted, names_of};
ghost use Rattle.asm_lines.specs.Kept.{spelling, statement_said, lines_said};
ghost use Rattle.asm_places.specs.NamesView.{known_in, first_or};

use crate::places::{Counts, Definition, Meaning, NO_COUNTS};
use asm_lines::{Line, Span, Statement, spelling};
use indexmap::IndexMap;
use kern_base::Service;
use std::alloc::{AllocError, Global};

/// The names of a text with their first definitions, in the order of these.
pub type Names<'a> = IndexMap<&'a [u8], Definition>;

/// Defines a name that is not defined yet.
pub fn define<'a>(
    names: &mut Names<'a>,
    name: &'a [u8],
    definition: Definition,
) -> Result<(), AllocError>
    ensures { OnOk result ((q : List ℕ) → known_in names.new q ≡ first_or (known_in names.old q) name.now definition q) }
{
    if names.get(name).is_none() {
        names.insert(name, definition)?;
    }
    Ok(())
}

// Defines the names of the services with the numbers 1 to `last`.
fn define_numbered(names: &mut Names, last: u32) -> Result<(), AllocError>
    ensures { OnOk result ((q : List ℕ) → known_in names.new q ≡ option_or (known_in names.old q) (first_of (services_defined last) q)) }
{
    let mut number = last;
    while number > 0 {
        let definition = Definition {
            line: None,
            meaning: Meaning::Constant(i64::from(number)),
        };
        define(names, Service::of(number).text().as_bytes(), definition)?;
        number -= 1;
    }
    Ok(())
}

// Defines the names of the services.
#[tactic(auto, unfolding(crate::specs::Names::defined_at_start))]
fn define_services(names: &mut Names) -> Result<(), AllocError>
    ensures { OnOk result ((q : List ℕ) → known_in names.new q ≡ option_or (known_in names.old q) (first_of defined_at_start q)) }
{
    define_numbered(names, 39)
}

// Defines what a label defines.
fn define_label<'a>(
    names: &mut Names<'a>,
    text: &'a [u8],
    counts: Counts,
    label: Option<Span>,
) -> Result<(), AllocError>
    ensures { OnOk result ((q : List ℕ) → known_in names.new q ≡ option_or (known_in names.old q) (first_of (label_defines counts (option_map (spelling text.now) label)) q)) }
{
    if let Some(label) = label {
        let definition = Definition {
            line: Some(counts.lines),
            meaning: Meaning::Label(counts.lines),
        };
        define(names, spelling(text, label), definition)?;
    }
    Ok(())
}

// The name and the constant that a statement defines.
fn constant_defined(counts: Counts, statement: &Statement) -> Option<(Span, i64)>
    requires tasks { counts.tasks < 2 ^ 62 }
    requires objects { counts.objects < 2 ^ 62 }
    ensures { (text : List ℕ) → option_map (λ d. (spelling text d.0, d.1)) result ≡ constant_defined counts (statement_said text statement.now) }
{
    match statement {
        Statement::Equ(name, value) => Some((*name, *value)),
        Statement::Task(name, _) => Some((*name, counts.tasks as i64)),
        Statement::Object(name, _, _) => Some((*name, counts.objects as i64)),
        _ => None,
    }
}

// Defines what a statement defines.
fn define_constant<'a>(
    names: &mut Names<'a>,
    text: &'a [u8],
    counts: Counts,
    statement: &Statement,
) -> Result<(), AllocError>
    requires tasks { counts.tasks < 2 ^ 62 }
    requires objects { counts.objects < 2 ^ 62 }
    ensures { OnOk result ((q : List ℕ) → known_in names.new q ≡ option_or (known_in names.old q) (first_of (statement_defines counts (statement_said text.now statement.now)) q)) }
{
    if let Some((name, value)) = constant_defined(counts, statement) {
        let definition = Definition {
            line: Some(counts.lines),
            meaning: Meaning::Constant(value),
        };
        define(names, spelling(text, name), definition)?;
    }
    Ok(())
}

/// What stands before the next line.
pub fn counted(statement: &Statement, counts: Counts) -> Counts
    requires lines { counts.lines < 2 ^ 62 }
    requires tasks { counts.tasks < 2 ^ 62 }
    requires objects { counts.objects < 2 ^ 62 }
    requires vectors { counts.vectors < 2 ^ 62 }
    ensures { (text : List ℕ) → result ≡ counted (statement_said text statement.now) counts }
{
    let mut after = counts;
    after.lines += 1;
    match statement {
        Statement::Task(_, _) => after.tasks += 1,
        Statement::Object(_, _, _) => after.objects += 1,
        Statement::Vector(_) => after.vectors += 1,
        _ => {}
    }
    after
}

/// The names of a text with their first definitions.
pub fn names_of<'a>(alloc: Global, text: &'a [u8], lines: &[Line]) -> Result<Names<'a>, AllocError>
    requires { length lines.now < 2 ^ 62 }
    ensures { IfOk result (λ names. (q : List ℕ) → known_in names q ≡ names_of (lines_said text.now lines.now) q) }
{
    let mut names = IndexMap::new(alloc);
    define_services(&mut names)?;
    let mut counts = NO_COUNTS;
    for line in lines {
        define_label(&mut names, text, counts, line.label)?;
        define_constant(&mut names, text, counts, &line.statement)?;
        counts = counted(&line.statement, counts);
    }
    Ok(names)
}

/// What a name stands for, if it stands for something.
pub fn meaning(text: &[u8], names: &Names, name: Span) -> Option<Meaning>
    ensures { result ≡ meaning_of (known_in names.now) (spelling text.now name) }
{
    names
        .get(spelling(text, name))
        .map(|definition| definition.meaning)
}

/// The first definition of a name.
pub fn definition_of(text: &[u8], names: &Names, name: Span) -> Option<Definition>
    ensures { result ≡ known_in names.now (spelling text.now name) }
{
    names.get(spelling(text, name)).copied()
}
