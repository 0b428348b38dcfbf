// The header of an executable and its tables.

ghost use Rattle.std.specs.Prelude.{◌≡◌, ◌+◌, ◌*◌, ◌≤◌, ◌<◌, ◌^◌, length, max, fold, IfOk};
ghost use Rattle.app_image.specs.Fields.{half_at, word_at, rows};
ghost use Rattle.elf_reader.specs.Tables.{segment_at, section_at, segments, sections, is_header, has_bytes, segment_end, section_end, tables_end, end_of_all};

use crate::numbers::{half_at, word_at};
use std::alloc::{AllocError, Global};
use std::cmp::max;

/// A program header: what is loaded, and where.
#[derive(Clone, Copy)]
pub struct Segment {
    pub kind: u32,
    pub offset: u32,
    pub vaddr: u32,
    pub filesz: u32,
    pub memsz: u32,
}

/// A section header.
#[derive(Clone, Copy)]
pub struct Section {
    pub kind: u32,
    pub offset: u32,
    pub size: u32,
    pub link: u32,
    pub entsize: u32,
}

/// An entry of a symbol table.
#[derive(Clone, Copy)]
pub struct Entry {
    pub name: u32,
    pub value: u32,
    pub info: u8,
    pub section: u16,
}

fn segment_at(bytes: &[u8], at: usize) -> Segment
    requires { at + 32 ≤ length bytes.now }
    ensures { result ≡ segment_at bytes.now at }
{
    Segment {
        kind: word_at(bytes, at),
        offset: word_at(bytes, at + 4),
        vaddr: word_at(bytes, at + 8),
        filesz: word_at(bytes, at + 16),
        memsz: word_at(bytes, at + 20),
    }
}

fn section_at(bytes: &[u8], at: usize) -> Section
    requires { at + 40 ≤ length bytes.now }
    ensures { result ≡ section_at bytes.now at }
{
    Section {
        kind: word_at(bytes, at + 4),
        offset: word_at(bytes, at + 16),
        size: word_at(bytes, at + 20),
        link: word_at(bytes, at + 24),
        entsize: word_at(bytes, at + 36),
    }
}

/// Whether the header is that of an executable that may be read.
pub fn is_header(bytes: &[u8]) -> bool
    ensures { result ≡ is_header bytes.now }
{
    52 <= bytes.len()
        && bytes[4] == 1
        && bytes[5] == 1
        && bytes[6] == 1
        && half_at(bytes, 16) == 2
        && half_at(bytes, 18) == 243
        && word_at(bytes, 20) == 1
        && (half_at(bytes, 44) == 0 || half_at(bytes, 42) == 32)
        && (half_at(bytes, 48) == 0 || half_at(bytes, 46) == 40)
}

/// Where the header and the two tables end.
pub fn tables_end(bytes: &[u8]) -> usize
    requires { 52 ≤ length bytes.now }
    ensures end { result ≡ tables_end bytes.now }
    ensures fits { result < 2 ^ 33 }
{
    let segments = word_at(bytes, 28) as usize + 32 * half_at(bytes, 44) as usize;
    let sections = word_at(bytes, 32) as usize + 40 * half_at(bytes, 48) as usize;
    max(52, max(segments, sections))
}

fn read_segments(
    alloc: Global,
    bytes: &[u8],
    start: usize,
    count: usize,
) -> Result<Vec<Segment>, AllocError>
    requires { start + 32 * count ≤ length bytes.now }
    ensures { IfOk result (λ v. v.items ≡ rows (segment_at bytes.now) 32 count start) }
{
    let mut segments = Vec::new(alloc);
    for k in 0..count {
        segments.push(segment_at(bytes, start + 32 * k))?;
    }
    Ok(segments)
}

fn read_sections(
    alloc: Global,
    bytes: &[u8],
    start: usize,
    count: usize,
) -> Result<Vec<Section>, AllocError>
    requires { start + 40 * count ≤ length bytes.now }
    ensures { IfOk result (λ v. v.items ≡ rows (section_at bytes.now) 40 count start) }
{
    let mut sections = Vec::new(alloc);
    for k in 0..count {
        sections.push(section_at(bytes, start + 40 * k))?;
    }
    Ok(sections)
}

/// The program headers.
pub fn segments(alloc: Global, bytes: &[u8]) -> Result<Vec<Segment>, AllocError>
    requires some { 52 ≤ length bytes.now }
    requires inside { tables_end bytes.now ≤ length bytes.now }
    ensures { IfOk result (λ v. v.items ≡ segments bytes.now) }
{
    let count = half_at(bytes, 44) as usize;
    read_segments(alloc, bytes, word_at(bytes, 28) as usize, count)
}

/// The section headers.
pub fn sections(alloc: Global, bytes: &[u8]) -> Result<Vec<Section>, AllocError>
    requires some { 52 ≤ length bytes.now }
    requires inside { tables_end bytes.now ≤ length bytes.now }
    ensures { IfOk result (λ v. v.items ≡ sections bytes.now) }
{
    let count = half_at(bytes, 48) as usize;
    read_sections(alloc, bytes, word_at(bytes, 32) as usize, count)
}

/// Whether a section has bytes in the file.
pub fn has_bytes(section: &Section) -> bool
    ensures { result ≡ has_bytes section.now }
{
    section.kind != 0 && section.kind != 8
}

fn segment_end(segment: &Segment) -> usize
    ensures { result ≡ segment_end segment.now }
{
    segment.offset as usize + segment.filesz as usize
}

fn section_end(section: &Section) -> usize
    ensures { result ≡ section_end section.now }
{
    if has_bytes(section) {
        section.offset as usize + section.size as usize
    } else {
        0
    }
}

fn end_of_segments(start: usize, segments: &[Segment]) -> usize
    ensures { result ≡ fold (λ e p. max e (segment_end p)) start segments.now }
{
    let mut end = start;
    for segment in segments {
        end = max(end, segment_end(segment));
    }
    end
}

fn end_of_sections(start: usize, sections: &[Section]) -> usize
    ensures { result ≡ fold (λ e s. max e (section_end s)) start sections.now }
{
    let mut end = start;
    for section in sections {
        end = max(end, section_end(section));
    }
    end
}

/// The greatest of a place and of the ends of all segments and sections in the file.
pub fn end_of_all(start: usize, segments: &[Segment], sections: &[Section]) -> usize
    ensures { result ≡ end_of_all start segments.now sections.now }
{
    end_of_sections(end_of_segments(start, segments), sections)
}
