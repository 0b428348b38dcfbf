// The parts of a binary image, read.

ghost use Rattle.std.specs.Prelude.{◌≡◌, ◌+◌, ◌*◌, ◌≤◌, ℕ, Ok, length, take, All, IfOk, MatchResult};
ghost use Rattle.app_image.specs.Fields.{word_at, rows};
ghost use Rattle.app_image.specs.Layout.{magic};
ghost use Rattle.app_image.specs.Names.{IsFreeName};
ghost use Rattle.app_image.specs.Places.{image_size};
ghost use Rattle.app_image.specs.Raw.{IsMade, RawRecord};
ghost use Rattle.app_image.specs.Held.{Holds};
ghost use Rattle.app_image.specs.Reading.{name_at, task_at, object_at, vector_at, setting_at, settings_at, raw_at, names_at, image_in, OrNoMemory};

use crate::header::{self, Header, word_at};
use crate::reading::{KEYS, fields_at, has_fault, is_layout, kind_of, name_at};
use crate::{
    ConfigKey, ConfigLine, ImageCause, ImageError, Name, ObjDef, RawImage, TaskDef, VectorDef,
};
use std::alloc::Global;

fn task_at(bytes: &[u8], at: usize) -> TaskDef
    requires inside { at + 36 ≤ length bytes.now }
    requires name { IsFreeName (name_at bytes.now at) }
    ensures { result ≡ task_at bytes.now at }
{
    TaskDef {
        name: Name::of(name_at(bytes, at)),
        entry: word_at(bytes, at + 16),
        sp: word_at(bytes, at + 20),
        prio: word_at(bytes, at + 24),
        quanta: word_at(bytes, at + 28),
        qsize: word_at(bytes, at + 32),
        line: 0,
    }
}

fn object_at(bytes: &[u8], at: usize) -> ObjDef
    requires inside { at + 36 ≤ length bytes.now }
    requires name { IsFreeName (name_at bytes.now at) }
    ensures { result ≡ object_at bytes.now at }
{
    ObjDef {
        name: Name::of(name_at(bytes, at)),
        kind: kind_of(word_at(bytes, at + 16)),
        f: fields_at(bytes, at),
        line: 0,
    }
}

fn vector_at(bytes: &[u8], at: usize) -> VectorDef
    requires { at + 16 ≤ length bytes.now }
    ensures { result ≡ vector_at bytes.now at }
{
    VectorDef {
        number: word_at(bytes, at),
        level: word_at(bytes, at + 4),
        entry: word_at(bytes, at + 8),
        sp: word_at(bytes, at + 12),
        line: 0,
    }
}

fn read_tasks(
    alloc: Global,
    bytes: &[u8],
    start: usize,
    count: usize,
) -> Result<Vec<TaskDef>, ImageError>
    requires inside { start + 36 * count ≤ length bytes.now }
    requires names { All IsFreeName (rows (name_at bytes.now) 36 count start) }
    ensures { MatchResult result (λ v. v.items ≡ rows (task_at bytes.now) 36 count start) (λ e. e ≡ ImageError.NoMemory) }
{
    let mut tasks = Vec::new(alloc);
    for k in 0..count {
        if tasks.push(task_at(bytes, start + 36 * k)).is_err() {
            return Err(ImageError::NoMemory);
        }
    }
    Ok(tasks)
}

fn read_objects(
    alloc: Global,
    bytes: &[u8],
    start: usize,
    count: usize,
) -> Result<Vec<ObjDef>, ImageError>
    requires inside { start + 36 * count ≤ length bytes.now }
    requires names { All IsFreeName (rows (name_at bytes.now) 36 count start) }
    ensures { MatchResult result (λ v. v.items ≡ rows (object_at bytes.now) 36 count start) (λ e. e ≡ ImageError.NoMemory) }
{
    let mut objects = Vec::new(alloc);
    for k in 0..count {
        if objects.push(object_at(bytes, start + 36 * k)).is_err() {
            return Err(ImageError::NoMemory);
        }
    }
    Ok(objects)
}

fn read_vectors(
    alloc: Global,
    bytes: &[u8],
    start: usize,
    count: usize,
) -> Result<Vec<VectorDef>, ImageError>
    requires { start + 16 * count ≤ length bytes.now }
    ensures { MatchResult result (λ v. v.items ≡ rows (vector_at bytes.now) 16 count start) (λ e. e ≡ ImageError.NoMemory) }
{
    let mut vectors = Vec::new(alloc);
    for k in 0..count {
        if vectors.push(vector_at(bytes, start + 16 * k)).is_err() {
            return Err(ImageError::NoMemory);
        }
    }
    Ok(vectors)
}

fn read_words(
    alloc: Global,
    bytes: &[u8],
    start: usize,
    count: usize,
) -> Result<Vec<u32>, ImageError>
    requires { start + 4 * count ≤ length bytes.now }
    ensures { MatchResult result (λ v. v.items ≡ rows (word_at bytes.now) 4 count start) (λ e. e ≡ ImageError.NoMemory) }
{
    let mut words = Vec::new(alloc);
    for k in 0..count {
        if words.push(word_at(bytes, start + 4 * k)).is_err() {
            return Err(ImageError::NoMemory);
        }
    }
    Ok(words)
}

fn setting_at(bytes: &[u8], key: ConfigKey, at: usize) -> ConfigLine
    requires { at + 4 ≤ length bytes.now }
    ensures { result ≡ setting_at key bytes.now at }
{
    ConfigLine {
        key,
        value: word_at(bytes, at),
        line: 0,
    }
}

// The settings of some keys, one after the other.
fn read_settings(
    alloc: Global,
    bytes: &[u8],
    keys: &[ConfigKey],
    start: usize,
) -> Result<Vec<ConfigLine>, ImageError>
    requires { start + 4 * length keys.now ≤ length bytes.now }
    ensures { MatchResult result (λ v. v.items ≡ settings_at keys.now bytes.now start) (λ e. e ≡ ImageError.NoMemory) }
{
    let mut settings = Vec::new(alloc);
    for (k, key) in keys.iter().enumerate() {
        if settings
            .push(setting_at(bytes, *key, start + 4 * k))
            .is_err()
        {
            return Err(ImageError::NoMemory);
        }
    }
    Ok(settings)
}

fn read_parts(alloc: Global, bytes: &[u8], h: &Header) -> Result<RawImage, ImageError>
    requires inside { image_size h.now ≤ length bytes.now }
    requires names { All IsFreeName (names_at bytes.now h.now) }
    ensures { MatchResult result (λ raw. raw ≡ raw_at bytes.now h.now) (λ e. e ≡ ImageError.NoMemory) }
{
    let n_tasks = h.tasks as usize;
    let n_objects = h.objects as usize;
    let keys = &KEYS[..header::settings_count(h)];
    let tasks = read_tasks(alloc, bytes, header::tasks_place(h), n_tasks)?;
    let objects = read_objects(alloc, bytes, header::objects_place(h), n_objects)?;
    let vectors = read_vectors(alloc, bytes, header::vectors_place(h), h.vectors as usize)?;
    let config = read_settings(alloc, bytes, keys, 24)?;
    let code = read_words(alloc, bytes, header::code_place(h), h.code as usize)?;
    let ram = read_words(alloc, bytes, header::ram_place(h), h.ram as usize)?;
    Ok(RawImage {
        tasks,
        objects,
        vectors,
        config,
        code,
        ram,
    })
}

/// The raw image that the first bytes hold, in version 1 or 2 of the format, and how many bytes it has:
/// exactly where they are its layout. One of version 1 has nine settings, one of version 2 has ten;
/// line numbers are 0. Refused as
/// `Layout`, and where nothing is wrong with the layout as `BadName`, each with line 0. Each count is
/// tested, and the bytes that it claims are known to be there, before memory is taken.
pub fn read_image(alloc: Global, bytes: &[u8]) -> Result<(RawImage, usize), ImageError>
    requires { take 4 bytes.now ≡ magic }
    ensures answer { OrNoMemory result (image_in bytes.now) }
    ensures held { IfOk result (λ p. Holds bytes.now p.0 p.1) }
    ensures all { (raw : RawRecord) (size : ℕ) → Holds bytes.now raw size → OrNoMemory result (Ok (raw, size)) }
    ensures made { IfOk result (λ p. IsMade p.0) }
{
    if !is_layout(bytes) {
        return Err(ImageError::At(0, ImageCause::Layout));
    }
    let h = header::header_of(bytes);
    if has_fault(bytes, &h) {
        return Err(ImageError::At(0, ImageCause::BadName));
    }
    let raw = read_parts(alloc, bytes, &h)?;
    Ok((raw, header::image_size(&h)))
}
