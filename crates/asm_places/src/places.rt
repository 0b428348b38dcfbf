// Where lines begin, and what names stand for.

use asm_lines::Section;
use std::marker::Model;

/// How many of each stand before a line.
#[derive(Clone, Copy)]
pub struct Counts {
    /// Lines that are not empty.
    pub lines: usize,
    pub tasks: usize,
    pub objects: usize,
    pub vectors: usize,
}

impl Model for Counts {
    ghost use Rattle.asm_places.specs.Counts.{Counts as Read};

    ghost Value = { Read };

    ghost view = { λ c. record { lines = c.lines; tasks = c.tasks; objects = c.objects; vectors = c.vectors } };

    ghost inverse = { λ c. record { lines = c.lines; tasks = c.tasks; objects = c.objects; vectors = c.vectors } };
}

/// Nothing stands before the first line.
pub const NO_COUNTS: Counts = Counts {
    lines: 0,
    tasks: 0,
    objects: 0,
    vectors: 0,
};

/// What stands before a line: the section, and the bytes of code and of RAM.
#[derive(Clone, Copy, PartialEq, Eq)]
pub struct Place {
    pub section: Section,
    pub code: u64,
    pub ram: u64,
}

impl Model for Place {
    ghost use Rattle.asm_places.specs.Place.{Place as Read};

    ghost Value = { Read };

    ghost view = { λ p. record { section = p.section; code = p.code; ram = p.ram } };

    ghost inverse = { λ p. record { section = p.section; code = p.code; ram = p.ram } };
}

/// The place before the first line.
pub const NO_PLACE: Place = Place {
    section: Section::Nowhere,
    code: 0,
    ram: 0,
};

/// What a name stands for.
#[derive(Clone, Copy)]
pub enum Meaning {
    /// The place of a line, by how many lines stand before it.
    Label(usize),
    Constant(i64),
}

/// The first definition of a name.
#[derive(Clone, Copy)]
pub struct Definition {
    /// How many lines stand before its line; None for what is defined from the start.
    pub line: Option<usize>,
    pub meaning: Meaning,
}
