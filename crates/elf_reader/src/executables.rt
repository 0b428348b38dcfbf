// An executable, read.

ghost use Rattle.std.specs.Prelude.{◌≡◌, ◌<◌, ◌^◌, ℕ, Ok, None, length, get_or};
ghost use Rattle.elf_reader.specs.Memory.{held};
ghost use Rattle.elf_reader.specs.Cells.{address_of};
ghost use Rattle.elf_reader.specs.Executable.{gathered, executable_in, OrNoMemory};

use crate::loading::{RAM_CELL, empty_cells, load_all, words_in};
use crate::segments::{are_placed, code_count, ram_count};
use crate::strings::has_bad_table;
use crate::symbols::symbols;
use crate::tables::{self, Section, Segment, end_of_all, is_header, tables_end};
use crate::{ElfCause, ElfError};
use app_image::Symbol;
use std::alloc::{AllocError, Global};
use std::marker::Model;

/// A loaded executable: the words of the code from address 0 on and those of RAM from 0x100000 on, its
/// symbols in their order, and how many bytes are its own, behind which the text begins.
#[derive(Drop)]
pub struct ElfApp {
    pub code: Vec<u32>,
    pub ram: Vec<u32>,
    pub symbols: Vec<Symbol>,
    pub used: usize,
}

impl Model for ElfApp {
    ghost use Rattle.elf_reader.specs.Executable.{ElfRecord};

    ghost Value = { ElfRecord };

    ghost view = { λ a. record {
      code = a.code.items;
      ram = a.ram.items;
      symbols = a.symbols.items;
      used = a.used;
    } };
}

impl From<AllocError> for ElfError {
    ghost use Rattle.elf_reader.specs.declared.causes.ElfError.TheVariants.{NoMemory};

    ghost from_gives = { λ _ e. e ≡ NoMemory };

    fn from(_: AllocError) -> ElfError {
        ElfError::NoMemory
    }
}

// The executable, once its segments are in the cells.
fn gathered(
    alloc: Global,
    bytes: &[u8],
    segments: &[Segment],
    sections: &[Section],
    cells: &[Option<u8>],
    used: usize,
) -> Result<ElfApp, ElfError>
    requires short { length bytes.now < 2 ^ 32 }
    requires count { length cells.now ≡ 327680 }
    requires held { (i : ℕ) → i < 327680 → get_or cells.now i None ≡ held bytes.now segments.now (address_of i) }
    ensures { OrNoMemory result (Ok (gathered bytes.now segments.now sections.now used)) }
{
    Ok(ElfApp {
        code: words_in(alloc, cells, 0, code_count(segments))?,
        ram: words_in(alloc, cells, RAM_CELL, ram_count(segments))?,
        symbols: symbols(alloc, bytes, sections)?,
        used,
    })
}

/// The executable that is a front of the bytes, or the first cause of its refusal. What is not a loaded
/// segment, a symbol table or its strings is not looked at, nor are the first four bytes. No memory is
/// taken for a size before the bytes that it claims are known to be there.
pub fn read_elf(alloc: Global, bytes: &[u8]) -> Result<ElfApp, ElfError>
    requires { length bytes.now < 2 ^ 32 }
    ensures { OrNoMemory result (executable_in bytes.now) }
{
    if !is_header(bytes) {
        return Err(ElfError::Bad(ElfCause::Header));
    }
    if bytes.len() < tables_end(bytes) {
        return Err(ElfError::Bad(ElfCause::Range));
    }
    let segments = tables::segments(alloc, bytes)?;
    let sections = tables::sections(alloc, bytes)?;
    let used = end_of_all(tables_end(bytes), &segments, &sections);
    if bytes.len() < used {
        return Err(ElfError::Bad(ElfCause::Range));
    }
    if !are_placed(&segments) {
        return Err(ElfError::Bad(ElfCause::Place));
    }
    let mut cells = empty_cells(alloc)?;
    if !load_all(bytes, &segments, &mut cells) {
        return Err(ElfError::Bad(ElfCause::Overlap));
    }
    if has_bad_table(bytes, &sections) {
        return Err(ElfError::Bad(ElfCause::SymbolTable));
    }
    gathered(alloc, bytes, &segments, &sections, &cells, used)
}
