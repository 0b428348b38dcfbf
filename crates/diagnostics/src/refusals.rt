// What is told of a refused case.

ghost use Rattle.std.specs.Prelude.{◌≡◌, ◌+◌, ◌^◌, ◌<◌, ◌≤◌, ◌++◌, ℕ, length, drop};
ghost use Rattle.arrayvec.specs.ArrayVec.{array_vec_len};
ghost use Rattle.program_model.specs.declared.causes.CaseCause.{CaseCause};
ghost use Rattle.program_model.specs.Refusals.{refusal_line};
ghost use Rattle.diagnostics.specs.Messages.{HasMeaning, message, place, refusal_message, word};

use crate::meanings::meaning;
use arrayvec::ArrayVec;

// A message, one whole line.
pub type MessageLine = ArrayVec<u8, 200>;

// Appends these bytes.
fn push(message: &mut MessageLine, bytes: &[u8])
    requires room { array_vec_len message.old + length bytes.now ≤ 200 }
    ensures items { message.new.items ≡ message.old.items ++ bytes.now }
    ensures len { array_vec_len message.new ≡ array_vec_len message.old + length bytes.now }
{
    message.try_extend_from_slice(bytes).unwrap();
}

// The bytes behind the first so many.
fn behind(bytes: &[u8], front: usize) -> &[u8]
    ensures value { result.now ≡ drop front bytes.now }
    ensures short { length result.now ≤ length bytes.now }
{
    bytes.get(front..).unwrap_or(&[])
}

// The bytes up to the first blank or line feed.
#[tactic(auto, using(crate::proofs::RefusalLaws::word_more, crate::proofs::RefusalLaws::word_ends))]
fn word(bytes: &[u8]) -> &[u8]
    ensures value { result.now ≡ word bytes.now }
    ensures short { length result.now ≤ length bytes.now }
{
    for k in 0..bytes.len() {
        if bytes[k] <= b' ' {
            return &bytes[..k];
        }
    }
    bytes
}

// The place of a refusal, by its line in decimal; nothing at line 0.
fn place(line: &[u8]) -> MessageLine
    requires { length line.now ≤ 32 }
    ensures items { result.items ≡ place line.now }
    ensures short { array_vec_len result ≤ 39 }
{
    let mut message = MessageLine::new();
    if line != b"0".as_slice() {
        push(&mut message, b"line ");
        push(&mut message, line);
        push(&mut message, b": ");
    }
    message
}

// The message for a line, in decimal, and the name of a cause.
fn message(line: &[u8], cause: &[u8]) -> MessageLine
    requires line { length line.now ≤ 32 }
    requires cause { length cause.now ≤ 32 }
    ensures { result.items ≡ message line.now cause.now }
{
    let mut message = place(line);
    push(&mut message, cause);
    push(&mut message, b": ");
    push(&mut message, meaning(cause));
    push(&mut message, b"\n");
    message
}

// What is told of a refused case, by the line that refuses it: the place, the cause and its meaning, as
// `line 5: A1: no mnemonic, pseudo-instruction or directive has this name`.
#[tactic(auto, using(crate::proofs::RefusalLaws::told))]
pub fn refusal_message(refusal: &[u8]) -> MessageLine
    requires { length refusal.now ≤ 32 }
    ensures { (line : ℕ) → (cause : CaseCause) → line < 2 ^ 32 → refusal.now ≡ refusal_line line cause → result.items ≡ refusal_message line cause }
{
    let line = word(behind(refusal, "refused ".len()));
    let cause = word(behind(refusal, "refused ".len() + line.len() + 1));
    message(line, cause)
}

/// Each cause of a refusal has a meaning.
#[tactic(auto, using(crate::proofs::MeaningLaws::has_meaning))]
pub fn every_cause_has_a_meaning()
    ensures { (cause : CaseCause) → HasMeaning cause }
{}
