// The symbol tables and their strings.

ghost use Rattle.std.specs.Prelude.{◌≡◌, ◌+◌, ◌*◌, ◌≤◌, ◌<◌, length, slice_get, option_copied, IfSome};
ghost use Rattle.std.specs.List.{list_any};
ghost use Rattle.elf_reader.specs.Symbols.{content, entry_at, is_table, name_end, has_endless_name, is_bad_table, has_bad_table};

use crate::numbers::{byte_or_zero, half_at, part, tail, word_at};
use crate::tables::{Entry, Section, has_bytes};

/// The bytes of a section.
pub fn content<'a>(bytes: &'a [u8], section: &Section) -> &'a [u8]
    ensures { result.now ≡ content bytes.now section.now }
{
    part(bytes, section.offset as usize, section.size as usize)
}

/// The entry of a symbol table at a place.
pub fn entry_at(table: &[u8], at: usize) -> Entry
    requires { at + 16 ≤ length table.now }
    ensures { result ≡ entry_at table.now at }
{
    Entry {
        name: word_at(table, at),
        value: word_at(table, at + 4),
        info: byte_or_zero(table, at + 12),
        section: half_at(table, at + 14),
    }
}

/// Whether a section is a symbol table.
pub fn is_table(section: &Section) -> bool
    ensures { result ≡ is_table section.now }
{
    section.kind == 2
}

/// How many bytes of the strings stand from a place on before the next zero.
pub fn name_end(strings: &[u8], at: usize) -> Option<usize>
    ensures end { result ≡ name_end strings.now at }
    ensures within { IfSome result (λ n. n < length strings.now) }
{
    let rest = tail(strings, at);
    for k in 0..rest.len() {
        if rest[k] == 0 {
            return Some(k);
        }
    }
    None
}

fn has_endless_name(strings: &[u8], table: &[u8]) -> bool
    ensures { result ≡ has_endless_name strings.now table.now }
{
    for k in 0..table.len() / 16 {
        if name_end(strings, entry_at(table, 16 * k).name as usize).is_none() {
            return true;
        }
    }
    false
}

fn is_bad_table(bytes: &[u8], sections: &[Section], table: &Section) -> bool
    ensures { result ≡ is_bad_table bytes.now sections.now table.now }
{
    if table.entsize != 16 || table.size % 16 != 0 {
        return true;
    }
    match sections.get(table.link as usize) {
        None => true,
        Some(strings) => {
            !has_bytes(strings) || has_endless_name(content(bytes, strings), content(bytes, table))
        }
    }
}

/// Whether some symbol table is bad.
pub fn has_bad_table(bytes: &[u8], sections: &[Section]) -> bool
    ensures { result ≡ has_bad_table bytes.now sections.now }
{
    for section in sections {
        if is_table(section) && is_bad_table(bytes, sections, section) {
            return true;
        }
    }
    false
}
