// The binary image, read.

ghost use Rattle.std.specs.Prelude.{◌≡◌, ◌+◌, ◌*◌, ◌==◌, ◌≤◌, length, drop, codes, take, [], All, IfOk, MatchResult};
ghost use Rattle.std.specs.List.{list_any, list_all};
ghost use Rattle.std.specs.Str.{bytes_eq};
ghost use Rattle.app_image.specs.Fields.{word_at, rows};
ghost use Rattle.app_image.specs.Places.{settings_count, image_size};
ghost use Rattle.app_image.specs.Layout.{magic};
ghost use Rattle.app_image.specs.Names.{is_free_name};
ghost use Rattle.app_image.specs.Raw.{IsMade, fields_used};
ghost use Rattle.app_image.specs.Reading.{trimmed, name_at, kind_of, is_kind, task_at, fields_at, object_at, vector_at, is_clear, keys, settings_at, raw_at, places, is_layout, is_bad_name, has_bad_name, names_at, has_fault, image_in, OrNoMemory};

use crate::ConfigKey;
use crate::header::{self, Header, half_at, word_at};
use crate::naming::is_free_name;
use kern_base::Kind;

/// The keys in the order of their places.
pub const KEYS: [ConfigKey; 10] = [
    ConfigKey::IsrLimit,
    ConfigKey::DeferSize,
    ConfigKey::Pool,
    ConfigKey::TmrDiv,
    ConfigKey::RoundRobin,
    ConfigKey::Quanta,
    ConfigKey::TickPrio,
    ConfigKey::TmrPrio,
    ConfigKey::TmrSp,
    ConfigKey::Insert,
];

// The bytes without the zeros at their end.
fn trimmed(bytes: &[u8]) -> &[u8]
    ensures { result.now ≡ trimmed bytes.now }
{
    let mut len = bytes.len();
    while len > 0 && bytes[len - 1] == 0 {
        len -= 1;
    }
    &bytes[..len]
}

pub fn name_at(bytes: &[u8], at: usize) -> &[u8]
    requires { at + 16 ≤ length bytes.now }
    ensures { result.now ≡ name_at bytes.now at }
{
    trimmed(&bytes[at..at + 16])
}

// The kind of a number; the last one for a number that no kind has.
pub fn kind_of(number: u32) -> Kind
    ensures { result ≡ kind_of number }
{
    match number {
        1 => Kind::Sem,
        2 => Kind::Queue,
        3 => Kind::Flags,
        4 => Kind::Mutex,
        5 => Kind::OneShot,
        _ => Kind::Periodic,
    }
}

fn is_kind(number: u32) -> bool
    ensures { result ≡ is_kind number }
{
    1 <= number && number <= 6
}

fn fields_used(kind: Kind) -> usize
    ensures used { result ≡ fields_used kind }
    ensures few { result ≤ 4 }
{
    match kind {
        Kind::Sem | Kind::Queue | Kind::Flags => 1,
        Kind::Mutex => 0,
        Kind::OneShot | Kind::Periodic => 4,
    }
}

pub fn fields_at(bytes: &[u8], at: usize) -> [u32; 4]
    requires { at + 36 ≤ length bytes.now }
    ensures { result ≡ fields_at bytes.now at }
{
    [
        word_at(bytes, at + 20),
        word_at(bytes, at + 24),
        word_at(bytes, at + 28),
        word_at(bytes, at + 32),
    ]
}

fn are_zeros(words: &[u32]) -> bool
    ensures { result ≡ list_all (λ w. w == 0) words.now }
{
    for word in words {
        if *word != 0 {
            return false;
        }
    }
    true
}

// An object of a known kind whose unused fields are 0, or one of an unknown kind.
fn is_clear(bytes: &[u8], at: usize) -> bool
    requires { at + 36 ≤ length bytes.now }
    ensures { result ≡ is_clear bytes.now at }
{
    let number = word_at(bytes, at + 16);
    let fields = fields_at(bytes, at);
    !is_kind(number) || are_zeros(&fields[fields_used(kind_of(number))..])
}

fn all_clear(bytes: &[u8], start: usize, count: usize) -> bool
    requires { start + 36 * count ≤ length bytes.now }
    ensures { result ≡ list_all (is_clear bytes.now) (places 36 count start) }
{
    for k in 0..count {
        if !is_clear(bytes, start + 36 * k) {
            return false;
        }
    }
    true
}

fn all_kinds(bytes: &[u8], start: usize, count: usize) -> bool
    requires { start + 36 * count ≤ length bytes.now }
    ensures { result ≡ list_all (λ p. is_kind (word_at bytes.now (p + 16))) (places 36 count start) }
{
    for k in 0..count {
        if !is_kind(word_at(bytes, start + 36 * k + 16)) {
            return false;
        }
    }
    true
}

// A front of the bytes is the layout of an image.
pub fn is_layout(bytes: &[u8]) -> bool
    ensures { result ≡ is_layout bytes.now }
{
    if bytes.len() < 24 {
        return false;
    }
    let h = header::header_of(bytes);
    header::is_known(&h)
        && header::has_zeros(bytes)
        && header::image_size(&h) <= bytes.len()
        && all_clear(bytes, header::objects_place(&h), h.objects as usize)
}

// Whether one of the first names is this one.
fn is_among(bytes: &[u8], start: usize, count: usize, name: &[u8]) -> bool
    requires { start + 36 * count ≤ length bytes.now }
    ensures { result ≡ list_any (bytes_eq name.now) (rows (name_at bytes.now) 36 count start) }
{
    for k in 0..count {
        if name == name_at(bytes, start + 36 * k) {
            return true;
        }
    }
    false
}

// Whether a name is not free, or is one of the first names.
fn is_bad_name(bytes: &[u8], start: usize, count: usize, name: &[u8]) -> bool
    requires { start + 36 * count ≤ length bytes.now }
    ensures { result ≡ is_bad_name (rows (name_at bytes.now) 36 count start) name.now }
{
    !is_free_name(name) || is_among(bytes, start, count, name)
}

// Whether some name is not free, or is that of an earlier one.
fn has_bad_name(bytes: &[u8], start: usize, count: usize) -> bool
    requires { start + 36 * count ≤ length bytes.now }
    ensures { result ≡ has_bad_name [] (rows (name_at bytes.now) 36 count start) }
{
    for k in 0..count {
        if is_bad_name(bytes, start, k, name_at(bytes, start + 36 * k)) {
            return true;
        }
    }
    false
}

// Whether some name is bad, or some kind is unknown.
pub fn has_fault(bytes: &[u8], h: &Header) -> bool
    requires { image_size h.now ≤ length bytes.now }
    ensures { result ≡ has_fault bytes.now h.now }
{
    has_bad_name(
        bytes,
        header::tasks_place(h),
        h.tasks as usize + h.objects as usize,
    ) || !all_kinds(bytes, header::objects_place(h), h.objects as usize)
}
