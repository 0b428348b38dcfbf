// The symbols that other files see.

ghost use Rattle.std.specs.Prelude.{◌≡◌, ◌+◌, ◌<◌, ◌≤◌, ◌^◌, ℕ, List, [], length, slice_get, option_copied, fold, OnOk, IfOk};
ghost use Rattle.app_image.specs.Names.{is_free_name};
ghost use Rattle.elf_reader.specs.Known.{Knows};
ghost use Rattle.elf_reader.specs.Symbols.{content, entries, is_shared, name_of, symbols, add_symbol, add_entry, add_entries, add_section};

use crate::numbers::part;
use crate::strings::{content, entry_at, is_table, name_end};
use crate::tables::{Entry, Section};
use app_image::{Symbol, is_free_name};
use indexmap::IndexMap;
use std::alloc::{AllocError, Global};

/// The names of the symbols so far, each with its value.
type Names<'a> = IndexMap<&'a [u8], u32>;

fn is_shared(entry: &Entry) -> bool
    ensures { result ≡ is_shared entry.now }
{
    let binding = entry.info / 16;
    (binding == 1 || binding == 2) && entry.section != 0
}

// Adds a symbol, unless one has its name.
fn add_symbol<'a>(
    bytes: &'a [u8],
    names: &mut Names<'a>,
    symbols: &mut Vec<Symbol>,
    symbol: Symbol,
) -> Result<(), AllocError>
    requires { Knows bytes.now names.old symbols.old.items }
    ensures symbols { OnOk result (symbols.new.items ≡ add_symbol bytes.now symbols.old.items symbol) }
    ensures names { OnOk result (Knows bytes.now names.new symbols.new.items) }
{
    let name = part(bytes, symbol.start as usize, symbol.len as usize);
    if names.get(name).is_none() {
        names.insert(name, symbol.value)?;
        symbols.push(symbol)?;
    }
    Ok(())
}

// Adds the symbol of an entry, if it is one.
fn add_entry<'a>(
    bytes: &'a [u8],
    strings: &Section,
    entry: &Entry,
    names: &mut Names<'a>,
    symbols: &mut Vec<Symbol>,
) -> Result<(), AllocError>
    requires short { length bytes.now < 2 ^ 32 }
    requires known { Knows bytes.now names.old symbols.old.items }
    ensures symbols { OnOk result (symbols.new.items ≡ add_entry bytes.now (content bytes.now strings.now) strings.now.offset symbols.old.items entry.now) }
    ensures names { OnOk result (Knows bytes.now names.new symbols.new.items) }
{
    let start = strings.offset as usize + entry.name as usize;
    let len = name_end(content(bytes, strings), entry.name as usize).unwrap_or(0);
    if is_shared(entry) && is_free_name(part(bytes, start, len)) {
        let symbol = Symbol {
            start: start as u32,
            len: len as u32,
            value: entry.value,
        };
        add_symbol(bytes, names, symbols, symbol)?;
    }
    Ok(())
}

// Adds the symbols of a table.
fn add_entries<'a>(
    bytes: &'a [u8],
    table: &[u8],
    strings: &Section,
    names: &mut Names<'a>,
    symbols: &mut Vec<Symbol>,
) -> Result<(), AllocError>
    requires short { length bytes.now < 2 ^ 32 }
    requires known { Knows bytes.now names.old symbols.old.items }
    ensures symbols { OnOk result (symbols.new.items ≡ fold (add_entry bytes.now (content bytes.now strings.now) strings.now.offset) symbols.old.items (entries table.now)) }
    ensures names { OnOk result (Knows bytes.now names.new symbols.new.items) }
{
    for k in 0..table.len() / 16 {
        add_entry(bytes, strings, &entry_at(table, 16 * k), names, symbols)?;
    }
    Ok(())
}

// Adds the symbols of a section, if it is a symbol table.
fn add_section<'a>(
    bytes: &'a [u8],
    sections: &[Section],
    section: &Section,
    names: &mut Names<'a>,
    symbols: &mut Vec<Symbol>,
) -> Result<(), AllocError>
    requires short { length bytes.now < 2 ^ 32 }
    requires known { Knows bytes.now names.old symbols.old.items }
    ensures symbols { OnOk result (symbols.new.items ≡ add_section bytes.now sections.now symbols.old.items section.now) }
    ensures names { OnOk result (Knows bytes.now names.new symbols.new.items) }
{
    if !is_table(section) {
        return Ok(());
    }
    match sections.get(section.link as usize) {
        None => Ok(()),
        Some(strings) => add_entries(bytes, content(bytes, section), strings, names, symbols),
    }
}

/// The symbols of all tables, of several with one name the first.
pub fn symbols(alloc: Global, bytes: &[u8], sections: &[Section]) -> Result<Vec<Symbol>, AllocError>
    requires { length bytes.now < 2 ^ 32 }
    ensures { IfOk result (λ v. v.items ≡ symbols bytes.now sections.now) }
{
    let mut names = IndexMap::new(alloc);
    let mut symbols = Vec::new(alloc);
    for section in sections {
        add_section(bytes, sections, section, &mut names, &mut symbols)?;
    }
    Ok(symbols)
}
