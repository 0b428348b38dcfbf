// Words that stand for a value: names of tasks, objects, services, errors and traps.

ghost use Rattle.std.specs.Prelude.{◌≡◌, ◌++◌, ◌+◌, ◌≤◌, ◌∷◌, length};
ghost use Rattle.arrayvec.specs.ArrayVec.{array_vec_len};
ghost use Rattle.kern_base.specs.Errors.{error_name};
ghost use Rattle.machine_model.specs.Words.{internal_name, name_of, object_name, seen_word, service_word, trap_word, who_words};
ghost use Rattle.machine_model.specs.Text.{spaced};

use crate::pieces::{Line, push_number, push_word};
use app_image::Image;
use inject_list::Seen;
use kern_base::{OsErr, Service};
use rv32_exec::TrapKind;

/// The name of a task: as it is declared, or that of an internal task.
pub fn task_name<'a>(image: &'a Image, task: u8) -> &'a [u8]
    ensures name { result.now ≡ name_of image.now task }
    ensures short { length result.now ≤ 16 }
{
    match image.tasks().get(usize::from(task)) {
        Some(declared) => declared.name.bytes(),
        None => internal_name(task),
    }
}

// The name of a task that is no application's.
fn internal_name(task: u8) -> &'static [u8]
    ensures name { result.now ≡ internal_name task }
    ensures short { length result.now ≤ 16 }
{
    match task {
        60 => b"tick",
        61 => b"tmr",
        _ => b"idle",
    }
}

/// Appends a blank and the name of a task.
pub fn push_name(line: &mut Line, image: &Image, task: u8)
    requires room { array_vec_len line.old + 17 ≤ 512 }
    ensures items { line.new.items ≡ line.old.items ++ 32 ∷ name_of image.now task }
    ensures len { array_vec_len line.new ≤ array_vec_len line.old + 17 }
{
    push_word(line, task_name(image, task));
}

// The name of an object.
fn object_name<'a>(image: &'a Image, object: u8) -> &'a [u8]
    ensures name { result.now ≡ object_name image.now object }
    ensures short { length result.now ≤ 16 }
{
    match image.objects().get(usize::from(object)) {
        Some(declared) => declared.name.bytes(),
        None => b"",
    }
}

/// Appends a blank and the name of an object.
pub fn push_object(line: &mut Line, image: &Image, object: u8)
    requires room { array_vec_len line.old + 17 ≤ 512 }
    ensures items { line.new.items ≡ line.old.items ++ 32 ∷ object_name image.now object }
    ensures len { array_vec_len line.new ≤ array_vec_len line.old + 17 }
{
    push_word(line, object_name(image, object));
}

/// Appends who stored: the name of a task, or the vector of a frame.
pub fn push_who(line: &mut Line, image: &Image, who: u8)
    requires room { array_vec_len line.old + 17 ≤ 512 }
    ensures items { line.new.items ≡ line.old.items ++ spaced (who_words image.now who) }
    ensures len { array_vec_len line.new ≤ array_vec_len line.old + 17 }
{
    if who < 64 {
        push_name(line, image, who);
    } else {
        push_word(line, b"isr");
        push_number(line, u32::from(who - 64));
    }
}

/// Appends a blank and the list of a look: its object's name, or its priority.
pub fn push_seen(line: &mut Line, image: &Image, seen: Seen)
    requires room { array_vec_len line.old + 17 ≤ 512 }
    ensures items { line.new.items ≡ line.old.items ++ 32 ∷ seen_word image.now seen }
    ensures len { array_vec_len line.new ≤ array_vec_len line.old + 17 }
{
    match seen {
        Seen::Obj(object) => push_object(line, image, object.0),
        Seen::Ready(prio) => push_number(line, u32::from(prio.0)),
    }
}

/// Appends a blank and a service: its name, or the number that no service has.
pub fn push_service(line: &mut Line, service: Service)
    requires room { array_vec_len line.old + 25 ≤ 512 }
    ensures items { line.new.items ≡ line.old.items ++ 32 ∷ service_word service }
    ensures len { array_vec_len line.new ≤ array_vec_len line.old + 25 }
{
    match service {
        Service::Unknown(number) => push_number(line, number),
        _ => push_word(line, service.text().as_bytes()),
    }
}

/// Appends a blank and the name of an error.
pub fn push_error(line: &mut Line, err: OsErr)
    requires room { array_vec_len line.old + 30 ≤ 512 }
    ensures items { line.new.items ≡ line.old.items ++ 32 ∷ error_name err }
    ensures len { array_vec_len line.new ≤ array_vec_len line.old + 30 }
{
    push_word(line, err.text().as_bytes());
}

/// The word for the cause of a trap.
pub fn trap_text(kind: TrapKind) -> &'static [u8]
    ensures word { result.now ≡ trap_word kind }
    ensures short { length result.now ≤ 7 }
{
    match kind {
        TrapKind::Illegal => b"illegal",
        TrapKind::Break => b"break",
        TrapKind::Jump => b"jump",
        TrapKind::Fetch => b"fetch",
        TrapKind::Load => b"load",
        TrapKind::Store => b"store",
    }
}
