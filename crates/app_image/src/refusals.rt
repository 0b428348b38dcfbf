// The first cause for which a raw image is refused.

ghost use Rattle.std.specs.Prelude.{◌≡◌, ◌≤◌, ◌==◌, length, []};
ghost use Rattle.std.specs.List.{list_any};
ghost use Rattle.app_image.specs.Addresses.{is_between, is_code_address, is_stack_pointer};
ghost use Rattle.app_image.specs.Settings.{is_in_range, key_number};
ghost use Rattle.app_image.specs.Refusal.{task_has, is_bad_callback, is_bad_size, is_bad_time, object_has, vector_has, setting_has, task_line, object_line, vector_line, setting_line, vector_twice, setting_twice, first_line, first_record, line_of, refusal_among, refusal};

use crate::{ConfigKey, ConfigLine, ImageCause, ImageError, ObjDef, RawImage, TaskDef, VectorDef};
use kern_base::Kind;

/// The field of a timer that has no callback.
const NO_CALLBACK: u32 = u32::MAX;

/// The causes that the check looks for, least number first.
const CAUSES: [ImageCause; 14] = [
    ImageCause::NoTask,
    ImageCause::TaskPriority,
    ImageCause::CodeAddress,
    ImageCause::StackPointer,
    ImageCause::Quantum,
    ImageCause::TaskQueueSize,
    ImageCause::QueueSize,
    ImageCause::VectorNumber,
    ImageCause::VectorTwice,
    ImageCause::VectorLevel,
    ImageCause::TimerTime,
    ImageCause::SettingRange,
    ImageCause::SettingTwice,
    ImageCause::NoCode,
];

fn is_between(least: u32, greatest: u32, n: u32) -> bool
    ensures { result ≡ is_between least greatest n }
{
    least <= n && n <= greatest
}

fn is_code_address(words: usize, address: u32) -> bool
    requires { words ≤ 16384 }
    ensures { result ≡ is_code_address words address }
{
    address % 4 == 0 && (address as usize) < 4 * words
}

fn is_stack_pointer(address: u32) -> bool
    ensures { result ≡ is_stack_pointer address }
{
    address % 4 == 0 && is_between(0x10_0000, 0x14_0000, address)
}

fn task_has(words: usize, cause: ImageCause, task: &TaskDef) -> bool
    requires { words ≤ 16384 }
    ensures { result ≡ task_has words cause task.now }
{
    match cause {
        ImageCause::TaskPriority => !is_between(1, 62, task.prio),
        ImageCause::CodeAddress => !is_code_address(words, task.entry),
        ImageCause::StackPointer => !is_stack_pointer(task.sp),
        ImageCause::Quantum => task.quanta > 65535,
        ImageCause::TaskQueueSize => task.qsize > 1024,
        _ => false,
    }
}

fn is_bad_callback(words: usize, kind: Kind, f: &[u32; 4]) -> bool
    requires { words ≤ 16384 }
    ensures { result ≡ is_bad_callback words kind f.now }
{
    match kind {
        Kind::OneShot | Kind::Periodic => f[2] != NO_CALLBACK && !is_code_address(words, f[2]),
        _ => false,
    }
}

fn is_bad_size(kind: Kind, f: &[u32; 4]) -> bool
    ensures { result ≡ is_bad_size kind f.now }
{
    match kind {
        Kind::Queue => !is_between(1, 1024, f[0]),
        _ => false,
    }
}

fn is_bad_time(kind: Kind, f: &[u32; 4]) -> bool
    ensures { result ≡ is_bad_time kind f.now }
{
    match kind {
        Kind::OneShot => f[0] == 0,
        Kind::Periodic => f[1] == 0,
        _ => false,
    }
}

fn object_has(words: usize, cause: ImageCause, object: &ObjDef) -> bool
    requires { words ≤ 16384 }
    ensures { result ≡ object_has words cause object.now }
{
    match cause {
        ImageCause::CodeAddress => is_bad_callback(words, object.kind, &object.f),
        ImageCause::QueueSize => is_bad_size(object.kind, &object.f),
        ImageCause::TimerTime => is_bad_time(object.kind, &object.f),
        _ => false,
    }
}

fn vector_has(words: usize, cause: ImageCause, vector: &VectorDef) -> bool
    requires { words ≤ 16384 }
    ensures { result ≡ vector_has words cause vector.now }
{
    match cause {
        ImageCause::CodeAddress => !is_code_address(words, vector.entry),
        ImageCause::StackPointer => !is_stack_pointer(vector.sp),
        ImageCause::VectorNumber => vector.number > 31,
        ImageCause::VectorLevel => !is_between(1, 7, vector.level),
        _ => false,
    }
}

fn is_in_range(key: ConfigKey, value: u32) -> bool
    ensures { result ≡ is_in_range key value }
{
    match key {
        ConfigKey::IsrLimit => is_between(1, 4096, value),
        ConfigKey::DeferSize => is_between(2, 256, value),
        ConfigKey::Pool => is_between(0, 1024, value),
        ConfigKey::TmrDiv => is_between(1, 1000, value),
        ConfigKey::RoundRobin => is_between(0, 1, value),
        ConfigKey::Quanta => is_between(1, 65535, value),
        ConfigKey::TickPrio => is_between(1, 62, value),
        ConfigKey::TmrPrio => is_between(1, 62, value),
        ConfigKey::TmrSp => is_stack_pointer(value),
        ConfigKey::Insert => is_between(0, 1, value),
    }
}

fn setting_has(cause: ImageCause, setting: &ConfigLine) -> bool
    ensures { result ≡ setting_has cause setting.now }
{
    match cause {
        ImageCause::SettingRange => !is_in_range(setting.key, setting.value),
        _ => false,
    }
}

fn task_line(words: usize, cause: ImageCause, tasks: &[TaskDef]) -> Option<u32>
    requires { words ≤ 16384 }
    ensures { result ≡ task_line words cause tasks.now }
{
    for task in tasks {
        if task_has(words, cause, task) {
            return Some(task.line);
        }
    }
    None
}

fn object_line(words: usize, cause: ImageCause, objects: &[ObjDef]) -> Option<u32>
    requires { words ≤ 16384 }
    ensures { result ≡ object_line words cause objects.now }
{
    for object in objects {
        if object_has(words, cause, object) {
            return Some(object.line);
        }
    }
    None
}

fn vector_line(words: usize, cause: ImageCause, vectors: &[VectorDef]) -> Option<u32>
    requires { words ≤ 16384 }
    ensures { result ≡ vector_line words cause vectors.now }
{
    for vector in vectors {
        if vector_has(words, cause, vector) {
            return Some(vector.line);
        }
    }
    None
}

fn setting_line(cause: ImageCause, settings: &[ConfigLine]) -> Option<u32>
    ensures { result ≡ setting_line cause settings.now }
{
    for setting in settings {
        if setting_has(cause, setting) {
            return Some(setting.line);
        }
    }
    None
}

fn has_number(earlier: &[VectorDef], number: u32) -> bool
    ensures { result ≡ list_any (λ e. e.number == number) earlier.now }
{
    for vector in earlier {
        if vector.number == number {
            return true;
        }
    }
    false
}

fn has_key(earlier: &[ConfigLine], key: ConfigKey) -> bool
    ensures { result ≡ list_any (λ e. key_number e.key == key_number key) earlier.now }
{
    for setting in earlier {
        if setting.key.number() == key.number() {
            return true;
        }
    }
    false
}

fn vector_twice(vectors: &[VectorDef]) -> Option<u32>
    ensures { result ≡ vector_twice [] vectors.now }
{
    for (i, vector) in vectors.iter().enumerate() {
        if has_number(&vectors[..i], vector.number) {
            return Some(vector.line);
        }
    }
    None
}

// There are ten keys, so this looks at eleven settings at most.
fn setting_twice(settings: &[ConfigLine]) -> Option<u32>
    ensures { result ≡ setting_twice [] settings.now }
{
    for (i, setting) in settings.iter().enumerate() {
        if has_key(&settings[..i], setting.key) {
            return Some(setting.line);
        }
    }
    None
}

fn first_line(
    cause: ImageCause,
    words: usize,
    tasks: &[TaskDef],
    objects: &[ObjDef],
    vectors: &[VectorDef],
    settings: &[ConfigLine],
) -> Option<u32>
    requires { words ≤ 16384 }
    ensures { result ≡ first_line cause words tasks.now objects.now vectors.now settings.now }
{
    let task = task_line(words, cause, tasks);
    let object = object_line(words, cause, objects);
    let vector = vector_line(words, cause, vectors);
    let setting = setting_line(cause, settings);
    task.or(object.or(vector.or(setting)))
}

fn first_record(raw: &RawImage, cause: ImageCause) -> Option<u32>
    requires { length raw.now.code ≤ 16384 }
    ensures { result ≡ first_record cause raw.now }
{
    let code: &[u32] = &raw.code;
    first_line(
        cause,
        code.len(),
        &raw.tasks,
        &raw.objects,
        &raw.vectors,
        &raw.config,
    )
}

fn line_of(raw: &RawImage, cause: ImageCause) -> Option<u32>
    requires { length raw.now.code ≤ 16384 }
    ensures { result ≡ line_of cause raw.now }
{
    match cause {
        ImageCause::NoTask if raw.tasks.is_empty() => Some(0),
        ImageCause::NoTask => None,
        ImageCause::NoCode if raw.code.is_empty() => Some(0),
        ImageCause::NoCode => None,
        ImageCause::VectorTwice => vector_twice(&raw.vectors),
        ImageCause::SettingTwice => setting_twice(&raw.config),
        _ => first_record(raw, cause),
    }
}

fn refusal_among(causes: &[ImageCause], raw: &RawImage) -> Option<ImageError>
    requires { length raw.now.code ≤ 16384 }
    ensures { result ≡ refusal_among causes.now raw.now }
{
    for cause in causes {
        if let Some(line) = line_of(raw, *cause) {
            return Some(ImageError::At(line, *cause));
        }
    }
    None
}

/// The refusal of a raw image, if it is refused.
pub fn refusal(raw: &RawImage) -> Option<ImageError>
    requires { length raw.now.code ≤ 16384 }
    ensures { result ≡ refusal raw.now }
{
    refusal_among(&CAUSES, raw)
}
