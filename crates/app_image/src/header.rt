// The header of a binary image: its version, and how many of each part follow.

ghost use Rattle.std.specs.Prelude.{◌≡◌, ◌+◌, ◌^◌, ◌≤◌, length};
ghost use Rattle.app_image.specs.Fields.{half_at, word_at};
ghost use Rattle.app_image.specs.Places.{is_known, settings_count, tasks_place, objects_place, vectors_place, code_place, ram_place, image_size, header_of, has_zeros};

use byteorder::{ByteOrder, LittleEndian};

/// The version, and how many code words, RAM words, tasks, objects and vectors follow.
#[derive(Clone, Copy)]
pub struct Header {
    pub version: u16,
    pub code: u32,
    pub ram: u32,
    pub tasks: u16,
    pub objects: u16,
    pub vectors: u16,
}

/// The number in the two bytes from a place on.
#[tactic(auto, unfolding(crate::specs::Fields::half_at))]
pub fn half_at(bytes: &[u8], at: usize) -> u16
    requires { at + 2 ≤ length bytes.now }
    ensures { result ≡ half_at bytes.now at }
{
    LittleEndian::read_u16(&bytes[at..])
}

/// The number in the four bytes from a place on.
#[tactic(auto, unfolding(crate::specs::Fields::word_at))]
pub fn word_at(bytes: &[u8], at: usize) -> u32
    requires { at + 4 ≤ length bytes.now }
    ensures { result ≡ word_at bytes.now at }
{
    LittleEndian::read_u32(&bytes[at..])
}

/// The header in the first 24 bytes.
pub fn header_of(bytes: &[u8]) -> Header
    requires { 24 ≤ length bytes.now }
    ensures { result ≡ header_of bytes.now }
{
    Header {
        version: half_at(bytes, 4),
        code: word_at(bytes, 8),
        ram: word_at(bytes, 12),
        tasks: half_at(bytes, 16),
        objects: half_at(bytes, 18),
        vectors: half_at(bytes, 20),
    }
}

/// The two fields of a header that must be 0 are so.
pub fn has_zeros(bytes: &[u8]) -> bool
    requires { 24 ≤ length bytes.now }
    ensures { result ≡ has_zeros bytes.now }
{
    half_at(bytes, 6) == 0 && half_at(bytes, 22) == 0
}

/// A version that is known, and counts within their limits.
pub fn is_known(h: &Header) -> bool
    ensures { result ≡ is_known h.now }
{
    (h.version == 1 || h.version == 2)
        && h.code <= 16384
        && h.ram <= 65536
        && h.tasks <= 60
        && h.objects <= 64
        && h.vectors <= 32
}

/// How many settings the version has.
pub fn settings_count(h: &Header) -> usize
    ensures count { result ≡ settings_count h.now.version }
    ensures few { result ≤ 10 }
{
    if h.version == 1 { 9 } else { 10 }
}

/// Where the tasks begin, behind the settings.
pub fn tasks_place(h: &Header) -> usize
    ensures place { result ≡ tasks_place h.now }
    ensures low { result ≤ 64 }
{
    24 + 4 * settings_count(h)
}

/// Where the objects begin.
pub fn objects_place(h: &Header) -> usize
    ensures place { result ≡ objects_place h.now }
    ensures low { result ≤ 2 ^ 23 }
{
    tasks_place(h) + 36 * h.tasks as usize
}

/// Where the vectors begin.
pub fn vectors_place(h: &Header) -> usize
    ensures place { result ≡ vectors_place h.now }
    ensures low { result ≤ 2 ^ 24 }
{
    objects_place(h) + 36 * h.objects as usize
}

/// Where the code begins.
pub fn code_place(h: &Header) -> usize
    ensures place { result ≡ code_place h.now }
    ensures low { result ≤ 2 ^ 25 }
{
    vectors_place(h) + 16 * h.vectors as usize
}

/// Where the words of RAM begin.
pub fn ram_place(h: &Header) -> usize
    ensures place { result ≡ ram_place h.now }
    ensures low { result ≤ 2 ^ 35 }
{
    code_place(h) + 4 * h.code as usize
}

/// How many bytes the image has.
pub fn image_size(h: &Header) -> usize
    ensures { result ≡ image_size h.now }
{
    ram_place(h) + 4 * h.ram as usize
}
