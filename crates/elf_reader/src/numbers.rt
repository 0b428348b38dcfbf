// Numbers and ranges in the bytes of an executable.

ghost use Rattle.std.specs.Prelude.{◌≡◌, ◌+◌, ◌≤◌, length, drop, slice_index};
ghost use Rattle.app_image.specs.Fields.{half_at, word_at};
ghost use Rattle.elf_reader.specs.Tables.{part};

use byteorder::{ByteOrder, LittleEndian};

/// The number in the two bytes from a place on.
#[tactic(auto, unfolding(app_image::specs::Fields::half_at))]
pub fn half_at(bytes: &[u8], at: usize) -> u16
    requires { at + 2 ≤ length bytes.now }
    ensures { result ≡ half_at bytes.now at }
{
    LittleEndian::read_u16(&bytes[at..])
}

/// The number in the four bytes from a place on.
#[tactic(auto, unfolding(app_image::specs::Fields::word_at))]
pub fn word_at(bytes: &[u8], at: usize) -> u32
    requires { at + 4 ≤ length bytes.now }
    ensures { result ≡ word_at bytes.now at }
{
    LittleEndian::read_u32(&bytes[at..])
}

/// The bytes from a place on, none past the end.
pub fn tail(bytes: &[u8], start: usize) -> &[u8]
    ensures { result.now ≡ drop start bytes.now }
{
    if start < bytes.len() {
        &bytes[start..]
    } else {
        &[]
    }
}

/// So many bytes from a place on, as far as there are any.
pub fn part(bytes: &[u8], start: usize, count: usize) -> &[u8]
    ensures { result.now ≡ part bytes.now start count }
{
    let rest = tail(bytes, start);
    if count < rest.len() {
        &rest[..count]
    } else {
        rest
    }
}

/// The byte at a place, and 0 past the end.
pub fn byte_or_zero(bytes: &[u8], at: usize) -> u8
    ensures { result ≡ slice_index bytes.now at }
{
    if at < bytes.len() { bytes[at] } else { 0 }
}
