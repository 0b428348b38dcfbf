// Both runs of a case: their task histories, the premises, and their raw steps.

ghost use Rattle.std.specs.Prelude.{◌⊎◌, ◌≡◌, ◌≤◌, ◌==◌, false, if◌then◌else◌, [], length, codes, IfOk};
ghost use Rattle.kern_base.specs.declared.kinds.Method.TheVariants.{Direct, Deferred};
ghost use Rattle.std.specs.Io.KnownBytes.{Appends};
ghost use Rattle.outside.specs.Causes.{HasCause, Rose};
ghost use Rattle.outside.specs.Written.{AppendsPrefix, WritesPiece};
ghost use Rattle.inject_list.specs.Lists.{ListRecord, IsValidList};
ghost use Rattle.machine_model.specs.Machine.{start};
ghost use Rattle.machine_model.specs.Run.{Run};
ghost use Rattle.machine_model.specs.Premises.{premises, premise_line, premise_lines, is_broken};
ghost use Rattle.program_model.specs.Both.{run_of, both_text, raw_line};
ghost use Rattle.program_model.specs.Answer.{compared, compared_status};
ghost use Rattle.program_model.specs.Limits.{most_task_steps};
ghost use Rattle.ucos_top.specs.Told.{IsRun, WritesOneHistory, AreToldAlike};

use crate::history::write_history;
use crate::machines::{ProgramMachine, load};
use crate::pieces::{Line, push_bytes, push_count};
use app_image::Image;
use inject_list::InjectList;
use kern_base::Method;
use method_premises::Premises;
use outside::{Failed, Sink};
use program_model::Status;
use std::alloc::Global;

// The line of a premise, which is held, or broken behind so many raw steps.
fn premise_line(name: &[u8], broken: Option<u64>) -> Line
    requires { length name.now ≤ 8 }
    ensures { result.items ≡ premise_line name.now broken }
{
    let mut line = Line::new();
    push_bytes(&mut line, name);
    match broken {
        None => push_bytes(&mut line, b" held\n"),
        Some(s) => {
            push_bytes(&mut line, b" broken ");
            push_count(&mut line, s);
            push_bytes(&mut line, b"\n");
        }
    }
    line
}

// The line of the raw steps of both runs.
fn raw_line(direct: u64, deferred: u64) -> Line
    ensures { result.items ≡ raw_line direct deferred }
{
    let mut line = Line::new();
    push_bytes(&mut line, b"raw ");
    push_count(&mut line, direct);
    push_bytes(&mut line, b" ");
    push_count(&mut line, deferred);
    push_bytes(&mut line, b"\n");
    line
}

// Writes the line of a premise.
fn write_premise<K: Sink>(name: &[u8], broken: Option<u64>, sink: &mut K) -> Result<(), Failed>
    requires { length name.now ≤ 8 }
    ensures bytes { WritesPiece (K.held sink.old) (K.held sink.new) result (premise_line name.now broken) }
    ensures cause { HasCause (K.faults sink.old) (K.faults sink.new) result }
{
    sink.write(premise_line(name, broken).as_slice())
}

// Writes the line of the fifth premise, with the literal insertion rule alone.
fn write_fifth<K: Sink>(watched: &Premises, image: &Image, sink: &mut K) -> Result<(), Failed>
    ensures bytes { WritesPiece (K.held sink.old) (K.held sink.new) result
        (if image.now.config.insert == 1 then premise_line (codes "P5") watched.now.p5 else []) }
    ensures cause { HasCause (K.faults sink.old) (K.faults sink.new) result }
{
    if image.config().insert == 1 {
        return write_premise(b"P5", watched.interrupted_readied(), sink);
    }
    Ok(())
}

/// Writes the lines of the premises of a run.
pub fn write_premises<K: Sink>(
    watched: &Premises,
    image: &Image,
    sink: &mut K,
) -> Result<(), Failed>
    ensures bytes { (r : Run) → watched.now ≡ premises r.events
        → WritesPiece (K.held sink.old) (K.held sink.new) result (premise_lines image.now r) }
    ensures cause { HasCause (K.faults sink.old) (K.faults sink.new) result }
{
    write_premise(b"P1", watched.step_interrupt(), sink)?;
    write_premise(b"P2", watched.locked_entry(), sink)?;
    write_premise(b"P3", watched.answer_read(), sink)?;
    write_premise(b"P4", watched.post_lost(), sink)?;
    write_fifth(watched, image, sink)
}

// Writes what comes of both runs of a case to so many task steps, from their machines at the start: both task
// histories, the premises of the deferred run, and the raw steps of both. It answers whether a premise is broken,
// and takes no memory.
fn write_both<K: Sink>(
    direct: ProgramMachine,
    deferred: ProgramMachine,
    image: &Image,
    count: u32,
    sink: &mut K,
) -> Result<bool, Failed>
    requires direct { (direct.method ≡ Direct) × (direct.state.t ≤ count) }
    requires deferred { (deferred.method ≡ Deferred) × (deferred.state.t ≤ count) }
    requires count { count ≤ most_task_steps }
    ensures bytes { (list : ListRecord) → direct.state ≡ start image.now list → deferred.state ≡ start image.now list
        → WritesPiece (K.held sink.old) (K.held sink.new) result
        (both_text image.now (record { direct = run_of Direct image.now list count; deferred = run_of Deferred image.now list count })) }
    ensures broken { (list : ListRecord) → deferred.state ≡ start image.now list
        → IfOk result (λ b. b ≡ is_broken (run_of Deferred image.now list count)) }
    ensures cause { HasCause (K.faults sink.old) (K.faults sink.new) result }
{
    sink.write(b"method direct\n")?;
    let first = write_history(direct, image, count, sink)?;
    sink.write(b"method deferred\n")?;
    let second = write_history(deferred, image, count, sink)?;
    write_premises(&second.premises, image, sink)?;
    sink.write(raw_line(first.raw_steps, second.raw_steps).as_slice())?;
    Ok(second.premises.is_broken())
}

/// The law of the two methods for a case: where the run by the deferred method breaks no premise, its history is that of the
/// direct run, and so both have the same counts. An image is valid, and its numbers are words.
pub fn histories_agree(image: &Image, list: &InjectList, count: u32)
    requires { IsValidList image.now list.now }
    ensures { is_broken (run_of Deferred image.now list.now count) ≡ false
        → AreToldAlike image.now (run_of Deferred image.now list.now count) (run_of Direct image.now list.now count) }
{
    let _code = image.code();
    method_law::methods_agree();
    history_counts::histories_tell_counts();
}

/// Runs a case by both methods to so many task steps. Both machines are made before the first write.
#[tactic(auto, using(crate::proofs::CompareLaws::compared_is_run))]
pub fn compare<K: Sink>(
    alloc: Global,
    image: &Image,
    list: &InjectList,
    count: u32,
    sink: &mut K,
) -> Status
    requires count { count ≤ most_task_steps }
    requires list { IsValidList image.now list.now }
    ensures own { (result ≡ Status.NoMemory) ⊎ ((result ≡ Status.WriteFault) ⊎ ((result ≡ Status.Done) ⊎ (result ≡ Status.Broken))) }
    ensures status { (result ≡ Status.NoMemory) ⊎ ((result ≡ Status.WriteFault) ⊎ (result ≡ compared_status image.now list.now count)) }
    ensures is_run { IsRun (compared_status image.now list.now count) }
    ensures sink_count { K.faults sink.old ≤ K.faults sink.new }
    ensures no_memory { result ≡ Status.NoMemory → sink.new ≡ sink.old }
    ensures write_fault { result ≡ Status.WriteFault → Rose (K.faults sink.old) (K.faults sink.new) }
    ensures write_fault_text { result ≡ Status.WriteFault → AppendsPrefix (K.held sink.old) (K.held sink.new) (compared image.now list.now count) }
    ensures whole_text { result ≡ Status.Done → Appends (K.held sink.old) (K.held sink.new) (compared image.now list.now count) }
    ensures broken_text { result ≡ Status.Broken → Appends (K.held sink.old) (K.held sink.new) (compared image.now list.now count) }
    ensures one_history { result ≡ Status.Done → WritesOneHistory (K.held sink.old) (K.held sink.new) }
{
    histories_agree(image, list, count);
    let Ok(direct) = load(alloc, image, list, Method::Direct) else {
        return Status::NoMemory;
    };
    let Ok(deferred) = load(alloc, image, list, Method::Deferred) else {
        return Status::NoMemory;
    };
    match write_both(direct, deferred, image, count, sink) {
        Ok(true) => Status::Broken,
        Ok(false) => Status::Done,
        Err(_) => Status::WriteFault,
    }
}
