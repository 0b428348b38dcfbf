// The lines of what an image declares.

ghost use Rattle.std.specs.Prelude.{◌≡◌, ◌++◌, ◌+◌, ◌≤◌, [], ◌∷◌, length};
ghost use Rattle.arrayvec.specs.ArrayVec.{array_vec_len};
ghost use Rattle.rv32_listing.specs.Texts.{further};
ghost use Rattle.rv32_listing.specs.Disassembly.{callback, kind_statement, object_line, ram_line, setting_line, task_line, timer_statement, value_of, vector_line};

use crate::pieces::Operand::Number;
use crate::pieces::{Line, push_bytes, push_further, push_named, push_statement};
use crate::words::push_word;
use app_image::{Config, ConfigKey, Name, ObjDef, TaskDef, VectorDef};
use kern_base::Kind;

/// The line of a word of RAM.
pub fn ram_line(word: u32) -> Line
    ensures { result.items ≡ ram_line word }
{
    let mut line = Line::new();
    push_word(&mut line, word);
    line.push(b'\n');
    line
}

/// The line of an object.
pub fn object_line(object: &ObjDef) -> Line
    ensures { result.items ≡ object_line object.now }
{
    let mut line = Line::new();
    push_kind(&mut line, &object.name, object.kind, &object.f);
    line.push(b'\n');
    line
}

// Appends the statement of an object by its kind.
fn push_kind(line: &mut Line, name: &Name, kind: Kind, f: &[u32; 4])
    requires empty { array_vec_len line.old ≡ 0 }
    ensures items { line.new.items ≡ line.old.items ++ kind_statement name.now kind f.now }
    ensures len { array_vec_len line.new ≤ 120 }
{
    match kind {
        Kind::Sem => push_named(line, b".sem", name.bytes(), &[Number(f[0])]),
        Kind::Queue => push_named(line, b".queue", name.bytes(), &[Number(f[0])]),
        Kind::Flags => push_named(line, b".flags", name.bytes(), &[Number(f[0])]),
        Kind::Mutex => push_named(line, b".mutex", name.bytes(), &[]),
        Kind::OneShot => push_timer(line, name, b"oneshot", f),
        Kind::Periodic => push_timer(line, name, b"periodic", f),
    }
}

// Appends the callback of a timer.
fn push_callback(line: &mut Line, address: u32)
    requires room { array_vec_len line.old ≤ 100 }
    ensures items { line.new.items ≡ line.old.items ++ further (callback address ∷ []) }
    ensures len { array_vec_len line.new ≤ array_vec_len line.old + 12 }
{
    if address == u32::MAX {
        push_bytes(line, b", none");
    } else {
        push_further(line, &[Number(address)]);
    }
}

// Appends the statement of a timer.
fn push_timer(line: &mut Line, name: &Name, kind: &[u8], f: &[u32; 4])
    requires empty { array_vec_len line.old ≡ 0 }
    requires short { length kind.now ≤ 8 }
    ensures items { line.new.items ≡ line.old.items ++ timer_statement name.now kind.now f.now }
    ensures len { array_vec_len line.new ≤ 120 }
{
    push_named(line, b".timer", name.bytes(), &[]);
    push_bytes(line, b", ");
    push_bytes(line, kind);
    push_further(line, &[Number(f[0]), Number(f[1])]);
    push_callback(line, f[2]);
    push_further(line, &[Number(f[3])]);
}

/// The line of a task.
pub fn task_line(task: &TaskDef) -> Line
    ensures { result.items ≡ task_line task.now }
{
    let mut line = Line::new();
    push_named(
        &mut line,
        b".task",
        task.name.bytes(),
        &[
            Number(task.entry),
            Number(task.prio),
            Number(task.quanta),
            Number(task.qsize),
            Number(task.sp),
        ],
    );
    line.push(b'\n');
    line
}

/// The line of a vector.
pub fn vector_line(vector: &VectorDef) -> Line
    ensures { result.items ≡ vector_line vector.now }
{
    let mut line = Line::new();
    push_statement(
        &mut line,
        b".vector",
        &[
            Number(vector.number),
            Number(vector.level),
            Number(vector.entry),
            Number(vector.sp),
        ],
    );
    line.push(b'\n');
    line
}

// The value of a setting.
fn value_of(config: &Config, key: ConfigKey) -> u32
    ensures { result ≡ value_of config.now key }
{
    match key {
        ConfigKey::IsrLimit => config.isr_limit,
        ConfigKey::DeferSize => config.defer_size,
        ConfigKey::Pool => config.pool,
        ConfigKey::TmrDiv => config.tmr_div,
        ConfigKey::RoundRobin => config.round_robin,
        ConfigKey::Quanta => config.quanta,
        ConfigKey::TickPrio => config.tick_prio,
        ConfigKey::TmrPrio => config.tmr_prio,
        ConfigKey::TmrSp => config.tmr_sp,
        ConfigKey::Insert => config.insert,
    }
}

/// The line of a setting, whose name has at most 16 bytes.
pub fn setting_line(config: &Config, name: &[u8], key: ConfigKey) -> Line
    requires { length name.now ≤ 16 }
    ensures { result.items ≡ setting_line config.now (name.now, key) }
{
    let mut line = Line::new();
    push_named(
        &mut line,
        b".config",
        name,
        &[Number(value_of(config, key))],
    );
    line.push(b'\n');
    line
}
