// The words of interrupts, of what their frames do, and of posts.

ghost use Rattle.std.specs.Prelude.{ℕ, ◌≡◌, ◌++◌, ◌+◌, ◌≤◌, [], ◌∷◌, length, map, decimal};
ghost use Rattle.kern_base.specs.Errors.{error_name};
ghost use Rattle.arrayvec.specs.ArrayVec.{array_vec_len};
ghost use Rattle.app_image.specs.Image.{ImageRecord};
ghost use Rattle.machine_model.specs.Words.{how_words, own_words, service_word};
ghost use Rattle.machine_model.specs.Text.{spaced};
ghost use Rattle.run_printer.specs.Groups.{IsOfFrame, IsOfPost};

use crate::pieces::{Line, first, push_number, push_numbers, push_word};
use crate::words::{push_error, push_service, trap_text};
use kern_base::{OsErr, Service};
use machine_model::{How, What};

/// Appends the words of an interrupt, or of what its frame does other than to post.
pub fn push_frame_words(line: &mut Line, what: &What)
    requires group { IsOfFrame what.now }
    requires room { array_vec_len line.old ≤ 31 }
    ensures items { (image : ImageRecord) → line.new.items ≡ line.old.items ++ spaced (own_words image what.now) }
    ensures len { array_vec_len line.new ≤ 440 }
{
    match what {
        What::Irq { vector, level, .. } => {
            push_vector(line, b"irq", *vector);
            push_number(line, u32::from(*level));
        }
        What::ICall {
            vector,
            service,
            err,
        } => {
            push_vector(line, b"icall", *vector);
            push_service(line, *service);
            push_error(line, *err);
        }
        What::Exit { vector, how } => {
            push_vector(line, b"exit", *vector);
            push_how(line, *how);
        }
        _ => {}
    }
}

/// Appends the words of a post by a frame, or of a queued post that the handler has performed.
pub fn push_post_words(line: &mut Line, what: &What)
    requires group { IsOfPost what.now }
    requires room { array_vec_len line.old ≤ 31 }
    ensures items { (image : ImageRecord) → line.new.items ≡ line.old.items ++ spaced (own_words image what.now) }
    ensures len { array_vec_len line.new ≤ 440 }
{
    match what {
        What::Post {
            vector,
            service,
            args,
            n_args,
            err,
            value,
        } => {
            push_vector(line, b"post", *vector);
            push_post(line, *service, first(args, *n_args));
            push_answer(line, *err, *value);
        }
        What::Take {
            service,
            args,
            n_args,
            err,
            value,
            ..
        } => {
            push_word(line, b"take");
            push_post(line, *service, first(args, *n_args));
            push_answer(line, *err, *value);
        }
        _ => {}
    }
}

// Appends what happened, and the vector of its frame.
fn push_vector(line: &mut Line, happened: &[u8], vector: u8)
    requires short { length happened.now ≤ 5 }
    requires room { array_vec_len line.old ≤ 31 }
    ensures items { line.new.items ≡ line.old.items ++ spaced (happened.now ∷ decimal vector ∷ []) }
    ensures len { array_vec_len line.new ≤ 48 }
{
    push_word(line, happened);
    push_number(line, u32::from(vector));
}

// Appends a post: its service and its arguments.
fn push_post(line: &mut Line, service: Service, args: &[u32])
    requires few { length args.now ≤ 4 }
    requires room { array_vec_len line.old ≤ 48 }
    ensures items { line.new.items ≡ line.old.items ++ spaced (service_word service ∷ map decimal args.now) }
    ensures len { array_vec_len line.new ≤ 117 }
{
    push_service(line, service);
    push_numbers(line, args);
}

// Appends an answer: its error and its value.
fn push_answer(line: &mut Line, err: OsErr, value: u32)
    requires room { array_vec_len line.old ≤ 117 }
    ensures items { line.new.items ≡ line.old.items ++ spaced (error_name err ∷ decimal value ∷ []) }
    ensures len { array_vec_len line.new ≤ 158 }
{
    push_error(line, err);
    push_number(line, value);
}

// Appends how a frame left.
fn push_how(line: &mut Line, how: How)
    requires room { array_vec_len line.old ≤ 48 }
    ensures items { line.new.items ≡ line.old.items ++ spaced (how_words how) }
    ensures len { array_vec_len line.new ≤ 72 }
{
    match how {
        How::Ret => push_word(line, b"ret"),
        How::Limit => push_word(line, b"limit"),
        How::Trap(kind, pc) => {
            push_word(line, b"trap");
            push_word(line, trap_text(kind));
            push_number(line, pc);
        }
    }
}
