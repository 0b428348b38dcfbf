// What is told when a command has ended.

ghost use Rattle.std.specs.Prelude.{◌≡◌, ◌≢◌, ◌≤◌, ◌<◌, ◌^◌, ℕ, length};
ghost use Rattle.outside.specs.Causes.{HasCause};
ghost use Rattle.outside.specs.Written.{WritesPiece};
ghost use Rattle.program_model.specs.declared.causes.CaseCause.{CaseCause};
ghost use Rattle.program_model.specs.Refusals.{refusal_line};
ghost use Rattle.diagnostics.specs.Messages.{ending, refusal_message};

use crate::endings::ending;
use crate::refusals::refusal_message;
use outside::{Failed, Sink};
use program_model::Status;

/// Tells in one write what there is to tell of an end: nothing where all was written; of a refused case, by the line that
/// refused it, the message of its cause; else how the words are used, or what failed.
pub fn tell<K: Sink>(status: Status, refusal: &[u8], sink: &mut K) -> Result<(), Failed>
    requires { length refusal.now ≤ 32 }
    ensures ending { status ≢ Status.Refused → WritesPiece (K.held sink.old) (K.held sink.new) result (ending status) }
    ensures refusal { status ≡ Status.Refused → (line : ℕ) (cause : CaseCause) → line < 2 ^ 32 → refusal.now ≡ refusal_line line cause
        → WritesPiece (K.held sink.old) (K.held sink.new) result (refusal_message line cause) }
    ensures cause { HasCause (K.faults sink.old) (K.faults sink.new) result }
{
    match status {
        Status::Refused => sink.write(refusal_message(refusal).as_slice()),
        _ => sink.write(ending(status).as_bytes()),
    }
}
