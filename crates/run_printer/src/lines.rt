// The lines of an event, in a run and in a history.

ghost use Rattle.std.specs.Prelude.{◌≡◌, ◌++◌, ◌+◌, ◌≤◌, [], ◌∷◌, codes, decimal};
ghost use Rattle.arrayvec.specs.ArrayVec.{array_vec_len};
ghost use Rattle.machine_model.specs.Words.{name_of, own_words, switch_words};
ghost use Rattle.machine_model.specs.Text.{IsPrintable, spaced, event_text, end_line, line as line_text, in_history, history_words, history_line, event_history, end_history};

use crate::interrupts::{push_frame_words, push_post_words};
use crate::looks::push_look;
use crate::pieces::{Line, first, push_count, push_digits, push_number, push_word};
use crate::tasks::{push_call_words, push_task_words, push_time_words};
use crate::words::push_name;
use app_image::Image;
use arrayvec::ArrayVec;
use kern_base::TaskId;
use machine_model::{Event, What};

/// Appends what one event prints: its own line, where it has one, and then its switch line, where the
/// current task changed.
pub fn line_of(event: &Event, image: &Image, out: &mut ArrayVec<u8, 512>)
    requires empty { out.old.items ≡ [] }
    requires room { IsPrintable event.now.what }
    ensures { out.new.items ≡ event_text image.now event.now }
{
    push_own_line(out, event, image);
    push_switch_line(out, event, image);
}

/// Appends what one event writes into a history: its own line, where histories keep it, and then its
/// switch line. The counts of raw steps are left out.
pub fn history_of(event: &Event, image: &Image, out: &mut ArrayVec<u8, 512>)
    requires empty { out.old.items ≡ [] }
    requires room { IsPrintable event.now.what }
    ensures { out.new.items ≡ event_history image.now event.now }
{
    push_own_history(out, event, image);
    push_switch_history(out, event, image);
}

/// The last line of a run, with the counts of raw steps and task steps at its end.
pub fn end_of_run(s: u64, t: u32) -> ArrayVec<u8, 512>
    ensures { result.items ≡ end_line s t }
{
    let mut line = Line::new();
    begin_line(&mut line, s, t);
    push_word(&mut line, b"end");
    line.push(b'\n');
    line
}

/// The last line of a history, with the count of task steps at its end.
pub fn end_of_history(t: u32) -> ArrayVec<u8, 512>
    ensures { result.items ≡ end_history t }
{
    let mut line = Line::new();
    push_digits(&mut line, t);
    push_word(&mut line, b"end");
    line.push(b'\n');
    line
}

// Appends an event's own line, where it has one.
fn push_own_line(line: &mut Line, event: &Event, image: &Image)
    requires empty { line.old.items ≡ [] }
    requires room { IsPrintable event.now.what }
    ensures items { line.new.items ≡ line_text event.now.s event.now.t (own_words image.now event.now.what) }
    ensures len { array_vec_len line.new ≤ 441 }
{
    if matches!(event.what, What::Quiet) {
        return;
    }
    begin_line(line, event.s, event.t);
    push_own_words(line, &event.what, image);
    line.push(b'\n');
}

// Appends an event's switch line, where the current task changed.
fn push_switch_line(line: &mut Line, event: &Event, image: &Image)
    requires room { array_vec_len line.old ≤ 441 }
    ensures { line.new.items ≡ line.old.items ++ line_text event.now.s event.now.t (switch_words image.now event.now.switch) }
{
    if let Some((from, to)) = event.switch {
        begin_line(line, event.s, event.t);
        push_switch(line, image, from, to);
        line.push(b'\n');
    }
}

// Appends an event's own line in a history, where histories keep it.
fn push_own_history(line: &mut Line, event: &Event, image: &Image)
    requires empty { line.old.items ≡ [] }
    requires room { IsPrintable event.now.what }
    ensures items { line.new.items ≡ history_line event.now.t (history_words image.now event.now.what) }
    ensures len { array_vec_len line.new ≤ 441 }
{
    if is_kept(&event.what) {
        push_digits(line, event.t);
        push_own_words(line, &event.what, image);
        line.push(b'\n');
    }
}

// Appends an event's switch line in a history, where the current task changed.
fn push_switch_history(line: &mut Line, event: &Event, image: &Image)
    requires room { array_vec_len line.old ≤ 441 }
    ensures { line.new.items ≡ line.old.items ++ history_line event.now.t (switch_words image.now event.now.switch) }
{
    if let Some((from, to)) = event.switch {
        push_digits(line, event.t);
        push_switch(line, image, from, to);
        line.push(b'\n');
    }
}

// Appends the words of a switch line.
fn push_switch(line: &mut Line, image: &Image, from: TaskId, to: TaskId)
    requires room { array_vec_len line.old ≤ 472 }
    ensures items { line.new.items ≡ line.old.items ++ spaced (codes "sw" ∷ name_of image.now from.0 ∷ name_of image.now to.0 ∷ []) }
    ensures len { array_vec_len line.new ≤ array_vec_len line.old + 37 }
{
    push_word(line, b"sw");
    push_name(line, image, from.0);
    push_name(line, image, to.0);
}

// Whether an event has a line of its own that histories keep.
fn is_kept(what: &What) -> bool
    ensures { result ≡ in_history what.now }
{
    !matches!(
        what,
        What::Quiet
            | What::Post { .. }
            | What::ICall { .. }
            | What::Exit { .. }
            | What::Take { .. }
            | What::Look { .. }
    )
}

// Begins a line of a run with the counts of raw steps and task steps.
fn begin_line(line: &mut Line, s: u64, t: u32)
    requires room { array_vec_len line.old + 31 ≤ 512 }
    ensures items { line.new.items ≡ line.old.items ++ (decimal s ++ 32 ∷ decimal t) }
    ensures len { array_vec_len line.new ≤ array_vec_len line.old + 31 }
{
    push_count(line, s);
    push_number(line, t);
}

// Appends the words of an event's own line.
fn push_own_words(line: &mut Line, what: &What, image: &Image)
    requires printable { IsPrintable what.now }
    requires room { array_vec_len line.old ≤ 31 }
    ensures items { line.new.items ≡ line.old.items ++ spaced (own_words image.now what.now) }
    ensures len { array_vec_len line.new ≤ 440 }
{
    match what {
        What::Quiet => {}
        What::Call { .. } | What::Ret { .. } | What::Wait { .. } => {
            push_call_words(line, what, image);
        }
        What::Start { .. } | What::Gone { .. } | What::St { .. } | What::Trap { .. } => {
            push_task_words(line, what, image);
        }
        What::Tick { .. } | What::Tmr { .. } | What::Fire { .. } => {
            push_time_words(line, what, image);
        }
        What::Irq { .. } | What::ICall { .. } | What::Exit { .. } => {
            push_frame_words(line, what);
        }
        What::Post { .. } | What::Take { .. } => push_post_words(line, what),
        What::Look {
            seen,
            forward,
            n_forward,
            back,
            n_back,
        } => {
            let forward = first(forward, *n_forward);
            let back = first(back, *n_back);
            push_look(line, image, *seen, forward, back);
        }
    }
}
