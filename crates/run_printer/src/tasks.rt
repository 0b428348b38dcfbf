// The words of what tasks do, and of the time.

ghost use Rattle.std.specs.Prelude.{◌≡◌, ◌++◌, ◌+◌, ◌≤◌, [], ◌∷◌, length, map};
ghost use Rattle.arrayvec.specs.ArrayVec.{array_vec_len};
ghost use Rattle.machine_model.specs.Words.{entry_word, name_of, own_words, service_word, size_words, table_words};
ghost use Rattle.machine_model.specs.Text.{spaced};
ghost use Rattle.run_printer.specs.Groups.{IsOfCall, IsOfTask, IsOfTime};

use crate::pieces::{Line, first, push_bytes, push_digits, push_number, push_numbers, push_word};
use crate::words::{push_error, push_name, push_object, push_service, push_who, trap_text};
use app_image::Image;
use kern_base::{Service, TaskId};
use machine_model::What;

/// Appends the words of a task's call, of its answer, or of a wait in it.
pub fn push_call_words(line: &mut Line, what: &What, image: &Image)
    requires group { IsOfCall what.now }
    requires room { array_vec_len line.old ≤ 31 }
    ensures items { line.new.items ≡ line.old.items ++ spaced (own_words image.now what.now) }
    ensures len { array_vec_len line.new ≤ 440 }
{
    match what {
        What::Call {
            task,
            service,
            args,
            n_args,
        } => {
            push_call(line, b"call", image, *task, *service);
            push_numbers(line, first(args, *n_args));
        }
        What::Ret {
            task,
            service,
            err,
            value,
            size,
            tab,
            n_tab,
        } => {
            push_call(line, b"ret", image, *task, *service);
            push_error(line, *err);
            push_number(line, *value);
            push_size(line, *service, *size);
            push_table(line, first(tab, *n_tab));
        }
        What::Wait { task, service } => push_call(line, b"wait", image, *task, *service),
        _ => {}
    }
}

/// Appends the words of what else a task does: it begins, deletes itself, stores or traps.
pub fn push_task_words(line: &mut Line, what: &What, image: &Image)
    requires group { IsOfTask what.now }
    requires room { array_vec_len line.old ≤ 31 }
    ensures items { line.new.items ≡ line.old.items ++ spaced (own_words image.now what.now) }
    ensures len { array_vec_len line.new ≤ 440 }
{
    match what {
        What::Start { task } => {
            push_word(line, b"start");
            push_name(line, image, task.0);
        }
        What::Gone { task } => {
            push_word(line, b"gone");
            push_name(line, image, task.0);
        }
        What::St {
            who,
            addr,
            width,
            value,
        } => {
            push_word(line, b"st");
            push_who(line, image, *who);
            push_number(line, *addr);
            push_number(line, u32::from(*width));
            push_number(line, *value);
        }
        What::Trap { task, kind, pc } => {
            push_word(line, b"trap");
            push_name(line, image, task.0);
            push_word(line, trap_text(*kind));
            push_number(line, *pc);
        }
        _ => {}
    }
}

/// Appends the words of a count of time, or of a timer that fired.
pub fn push_time_words(line: &mut Line, what: &What, image: &Image)
    requires group { IsOfTime what.now }
    requires room { array_vec_len line.old ≤ 31 }
    ensures items { line.new.items ≡ line.old.items ++ spaced (own_words image.now what.now) }
    ensures len { array_vec_len line.new ≤ 440 }
{
    match what {
        What::Tick { count } => {
            push_word(line, b"tick");
            push_number(line, *count);
        }
        What::Tmr { count } => {
            push_word(line, b"tmr");
            push_number(line, *count);
        }
        What::Fire { obj } => {
            push_word(line, b"fire");
            push_object(line, image, obj.0);
        }
        _ => {}
    }
}

// Appends what became of a call, the caller and the service.
fn push_call(line: &mut Line, became: &[u8], image: &Image, task: TaskId, service: Service)
    requires short { length became.now ≤ 4 }
    requires room { array_vec_len line.old ≤ 31 }
    ensures items { line.new.items ≡ line.old.items ++ spaced (became.now ∷ name_of image.now task.0 ∷ service_word service ∷ []) }
    ensures len { array_vec_len line.new ≤ 78 }
{
    push_word(line, became);
    push_name(line, image, task.0);
    push_service(line, service);
}

// Appends the size of a message, for the calls that take one message.
fn push_size(line: &mut Line, service: Service, size: u32)
    requires room { array_vec_len line.old ≤ 200 }
    ensures items { line.new.items ≡ line.old.items ++ spaced (size_words service size) }
    ensures len { array_vec_len line.new ≤ array_vec_len line.old + 11 }
{
    if matches!(service, Service::QPend | Service::TaskQPend) {
        push_number(line, size);
    }
}

// Appends the entries of a table, where there is one.
fn push_table(line: &mut Line, entries: &[Option<(u32, u32)>])
    requires few { length entries.now ≤ 8 }
    requires room { array_vec_len line.old ≤ 200 }
    ensures items { line.new.items ≡ line.old.items ++ spaced (table_words entries.now) }
    ensures len { array_vec_len line.new ≤ array_vec_len line.old + 196 }
{
    if entries.is_empty() {
        return;
    }
    push_word(line, b"tab");
    push_entries(line, entries);
}

// Appends these entries of a table.
fn push_entries(line: &mut Line, entries: &[Option<(u32, u32)>])
    requires few { length entries.now ≤ 8 }
    requires room { array_vec_len line.old ≤ 204 }
    ensures items { line.new.items ≡ line.old.items ++ spaced (map entry_word entries.now) }
    ensures len { array_vec_len line.new ≤ array_vec_len line.old + 192 }
{
    for entry in entries {
        push_entry(line, *entry);
    }
}

// Appends an entry of a table: 0, or 1 with the message and the size that was taken.
fn push_entry(line: &mut Line, entry: Option<(u32, u32)>)
    requires room { array_vec_len line.old ≤ 400 }
    ensures items { line.new.items ≡ line.old.items ++ 32 ∷ entry_word entry }
    ensures len { array_vec_len line.new ≤ array_vec_len line.old + 24 }
{
    match entry {
        None => push_word(line, b"0"),
        Some((message, size)) => {
            push_word(line, b"1:");
            push_digits(line, message);
            push_bytes(line, b":");
            push_digits(line, size);
        }
    }
}
