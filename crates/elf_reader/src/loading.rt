// The bytes that the segments put into memory.

ghost use Rattle.std.specs.Prelude.{◌≡◌, ◌+◌, ◌*◌, ◌<◌, ◌≤◌, ℕ, [], None, true, is_some, not, length, get_or, IsTrue, IfOk};
ghost use Rattle.std.specs.List.{list_any, list_all};
ghost use Rattle.app_image.specs.Fields.{rows};
ghost use Rattle.elf_reader.specs.Memory.{file_byte, is_loaded, is_placed, addresses, held, some_overlap, word_of};
ghost use Rattle.elf_reader.specs.Cells.{address_of, place_of, filled, laid, cell_byte};

use crate::numbers::byte_or_zero;
use crate::segments::is_loaded;
use crate::tables::Segment;
use std::alloc::{AllocError, Global};

// How many bytes of memory there are: 65,536 of code, and behind them 262,144 of RAM.
const CELLS: usize = 327_680;

/// The first cell of RAM.
pub const RAM_CELL: usize = 65_536;

// The cell of an address of the code or of RAM.
fn place_of(address: u32) -> usize
    ensures { result ≡ place_of address }
{
    if address < 1_048_576 {
        address as usize
    } else {
        address as usize - 983_040
    }
}

// The byte of a segment at a distance from its start.
fn file_byte(bytes: &[u8], segment: &Segment, distance: u32) -> u8
    ensures { result ≡ file_byte bytes.now segment.now distance }
{
    if distance < segment.filesz {
        byte_or_zero(bytes, segment.offset as usize + distance as usize)
    } else {
        0
    }
}

// Fills the cells of a segment from its first one on, where all of them are empty.
fn load_segment(bytes: &[u8], segment: &Segment, first: usize, cells: &mut [Option<u8>]) -> bool
    requires { first + segment.now.memsz ≤ length cells.old }
    ensures empty { result ≡ not (list_any (λ i. is_some (get_or cells.old i None)) (rows (λ i. i) 1 segment.now.memsz first)) }
    ensures filled { IsTrue result → (i : ℕ) → get_or cells.new i None ≡ filled bytes.now segment.now first segment.now.memsz cells.old i }
{
    for distance in 0..segment.memsz {
        let i = first + distance as usize;
        if cells[i].is_some() {
            return false;
        }
        cells[i] = Some(file_byte(bytes, segment, distance));
    }
    true
}

// Fills the cells of the addresses that a segment holds, where all of them are empty.
fn load_one(bytes: &[u8], segment: &Segment, cells: &mut [Option<u8>]) -> bool
    requires placed { is_placed segment.now ≡ true }
    requires count { length cells.old ≡ 327680 }
    ensures empty { result ≡ not (list_any (λ a. is_some (get_or cells.old (place_of a) None)) (addresses segment.now)) }
    ensures filled { IsTrue result → (i : ℕ) → i < 327680 → get_or cells.new i None ≡ laid bytes.now segment.now cells.old i }
{
    !is_loaded(segment) || load_segment(bytes, segment, place_of(segment.vaddr), cells)
}

/// Fills the cells of all loaded segments, where no two of these overlap.
pub fn load_all(bytes: &[u8], segments: &[Segment], cells: &mut [Option<u8>]) -> bool
    requires placed { list_all is_placed segments.now ≡ true }
    requires count { length cells.old ≡ 327680 }
    requires empty { (i : ℕ) → get_or cells.old i None ≡ None }
    ensures apart { result ≡ not (some_overlap [] segments.now) }
    ensures held { IsTrue result → (i : ℕ) → i < 327680 → get_or cells.new i None ≡ held bytes.now segments.now (address_of i) }
{
    for segment in segments {
        if !load_one(bytes, segment, cells) {
            return false;
        }
    }
    true
}

/// As many empty cells as there are bytes of memory.
pub fn empty_cells(alloc: Global) -> Result<Vec<Option<u8>>, AllocError>
    ensures count { IfOk result (λ v. length v.items ≡ 327680) }
    ensures empty { IfOk result (λ v. (i : ℕ) → get_or v.items i None ≡ None) }
{
    let mut cells = Vec::new(alloc);
    for k in 0..CELLS {
        cells.push(None)?;
    }
    Ok(cells)
}

// The byte in a cell, 0 in an empty one.
fn cell_byte(cells: &[Option<u8>], i: usize) -> u8
    requires { i < length cells.now }
    ensures { result ≡ cell_byte cells.now i }
{
    cells[i].unwrap_or(0)
}

// The word in four cells.
fn cell_word(cells: &[Option<u8>], i: usize) -> u32
    requires { i + 4 ≤ length cells.now }
    ensures { result ≡ word_of (cell_byte cells.now) i }
{
    cell_byte(cells, i) as u32
        + 256 * cell_byte(cells, i + 1) as u32
        + 65_536 * cell_byte(cells, i + 2) as u32
        + 16_777_216 * cell_byte(cells, i + 3) as u32
}

/// So many words from a cell on.
pub fn words_in(
    alloc: Global,
    cells: &[Option<u8>],
    first: usize,
    count: usize,
) -> Result<Vec<u32>, AllocError>
    requires { first + 4 * count ≤ length cells.now }
    ensures { IfOk result (λ v. v.items ≡ rows (word_of (cell_byte cells.now)) 4 count first) }
{
    let mut words = Vec::new(alloc);
    for k in 0..count {
        words.push(cell_word(cells, first + 4 * k))?;
    }
    Ok(words)
}
