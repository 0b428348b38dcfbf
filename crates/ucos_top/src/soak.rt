// A summary of both runs of a generated case.

ghost use Rattle.std.specs.Prelude.{◌⊎◌, ◌≡◌, ◌≤◌, ◌+◌, ◌++◌, ◌∷◌, [], length, decimal, IfOk};
ghost use Rattle.arrayvec.specs.ArrayVec.{array_vec_len};
ghost use Rattle.std.specs.Io.KnownBytes.{Appends};
ghost use Rattle.outside.specs.Causes.{HasCause, Rose};
ghost use Rattle.outside.specs.Written.{AppendsPrefix, WritesPiece};
ghost use Rattle.machine_model.specs.Bound.{events_left};
ghost use Rattle.machine_model.specs.Machine.{start};
ghost use Rattle.inject_list.specs.Lists.{IsValidList};
ghost use Rattle.program_model.specs.Answer.{compared_status, summed};
ghost use Rattle.program_model.specs.Both.{Runs};
ghost use Rattle.program_model.specs.Generated.{generated, steps_for};
ghost use Rattle.program_model.specs.Limits.{longest_input, most_lines, most_task_steps};
ghost use Rattle.program_model.specs.Listing.{spaced};
ghost use Rattle.program_model.specs.Summary.{counted_line, first_line, summary};
ghost use Rattle.ucos_top.specs.Counted.{IsCountOf, IsFew, most_events};
ghost use Rattle.ucos_top.specs.Told.{IsRun, SumsOneHistory};

use crate::both::{histories_agree, write_premises};
use crate::counting::{Counted, count_run};
use crate::machines::load;
use crate::pieces::{Line, push_bytes, push_count};
use app_image::Image;
use case_gen::generate;
use inject_list::InjectList;
use kern_base::Method;
use outside::{Failed, MemSink, NoMemory, Sink};
use program_model::{CaseCommand, Status};
use std::alloc::Global;

/// The text of a generated case, in memory.
pub fn generated_text(alloc: Global, seed: u64, size: u32) -> Result<MemSink, NoMemory>
    requires { size ≤ most_lines }
    ensures text { IfOk result (λ text. text.held ≡ generated seed size) }
    ensures short { IfOk result (λ text. length text.held ≤ longest_input) }
{
    let capacity = 2048 + 64 * size as usize;
    let mut text = MemSink::new(alloc, capacity, Vec::new(alloc))?;
    match generate(seed, size, &mut text) {
        Ok(()) => Ok(text),
        Err(_) => Err(NoMemory),
    }
}

// The line of what was asked for.
fn first_line(seed: u64, size: u32) -> Line
    requires { size ≤ most_lines }
    ensures { result.items ≡ first_line seed size }
{
    let mut line = Line::new();
    push_bytes(&mut line, b"soak ");
    push_count(&mut line, seed);
    push_bytes(&mut line, b" ");
    push_count(&mut line, u64::from(size));
    push_bytes(&mut line, b" n ");
    push_count(&mut line, u64::from(steps_for(size)));
    push_bytes(&mut line, b"\n");
    line
}

// Appends a word and a number, each behind a blank.
fn push_named(line: &mut Line, name: &[u8], count: u64)
    requires name { length name.now ≤ 8 }
    requires room { array_vec_len line.old + 30 ≤ 160 }
    ensures items { line.new.items ≡ line.old.items ++ spaced (name.now ∷ decimal count ∷ []) }
    ensures len { array_vec_len line.new ≤ array_vec_len line.old + 30 }
{
    push_bytes(line, b" ");
    push_bytes(line, name);
    push_bytes(line, b" ");
    push_count(line, count);
}

// The line of one run.
#[tactic(auto, using(std::proofs::Common::append_assoc))]
fn counted_line(method: &[u8], counted: &Counted) -> Line
    requires name { length method.now ≤ 8 }
    requires few { IsFew counted.now.counts }
    ensures { result.items ≡ counted_line method.now counted.now.raw_steps counted.now.counts }
{
    let mut line = Line::new();
    push_bytes(&mut line, method);
    push_named(&mut line, b"raw", counted.raw_steps);
    push_named(&mut line, b"calls", counted.counts.calls());
    push_named(&mut line, b"switches", counted.counts.switches());
    push_named(&mut line, b"lines", counted.counts.lines());
    push_bytes(&mut line, b"\n");
    line
}

// Writes the summary of both runs, of which these were counted.
fn write_summary<K: Sink>(
    seed: u64,
    size: u32,
    direct: &Counted,
    deferred: &Counted,
    image: &Image,
    sink: &mut K,
) -> Result<(), Failed>
    requires size { size ≤ most_lines }
    requires direct { IsFew direct.now.counts }
    requires deferred { IsFew deferred.now.counts }
    ensures bytes { (runs : Runs) → IsCountOf direct.now runs.direct → IsCountOf deferred.now runs.deferred
        → WritesPiece (K.held sink.old) (K.held sink.new) result (summary seed size image.now runs) }
    ensures cause { HasCause (K.faults sink.old) (K.faults sink.new) result }
{
    sink.write(first_line(seed, size).as_slice())?;
    sink.write(counted_line(b"direct", direct).as_slice())?;
    sink.write(counted_line(b"deferred", deferred).as_slice())?;
    write_premises(&deferred.premises, image, sink)
}

// How many task steps the two runs of a generated case have.
fn steps_for(size: u32) -> u32
    requires { size ≤ most_lines }
    ensures value { result ≡ steps_for size }
    ensures within { result ≤ most_task_steps }
{
    40 * size + 100
}

// A law: a run of a case has few events.
fn events_are_few(image: &Image, list: &InjectList, count: u32)
    requires count { count ≤ most_task_steps }
    requires list { IsValidList image.now list.now }
    ensures { events_left count (start image.now list.now) ≤ most_events }
{
    let _code = image.code();
}

/// Runs a generated case by both methods, and writes the summary. Both machines are made before the first write.
#[tactic(auto, using(crate::proofs::CompareLaws::compared_is_run))]
pub fn summarize<K: Sink>(
    alloc: Global,
    image: &Image,
    list: &InjectList,
    seed: u64,
    size: u32,
    sink: &mut K,
) -> Status
    requires size { size ≤ most_lines }
    requires list { IsValidList image.now list.now }
    ensures own { (result ≡ Status.NoMemory) ⊎ ((result ≡ Status.WriteFault) ⊎ ((result ≡ Status.Done) ⊎ (result ≡ Status.Broken))) }
    ensures status { (result ≡ Status.NoMemory) ⊎ ((result ≡ Status.WriteFault) ⊎ (result ≡ compared_status image.now list.now (steps_for size))) }
    ensures is_run { IsRun (compared_status image.now list.now (steps_for size)) }
    ensures sink_count { K.faults sink.old ≤ K.faults sink.new }
    ensures no_memory { result ≡ Status.NoMemory → sink.new ≡ sink.old }
    ensures write_fault { result ≡ Status.WriteFault → Rose (K.faults sink.old) (K.faults sink.new) }
    ensures write_fault_text { result ≡ Status.WriteFault → AppendsPrefix (K.held sink.old) (K.held sink.new) (summed seed size image.now list.now) }
    ensures whole_text { result ≡ Status.Done → Appends (K.held sink.old) (K.held sink.new) (summed seed size image.now list.now) }
    ensures broken_text { result ≡ Status.Broken → Appends (K.held sink.old) (K.held sink.new) (summed seed size image.now list.now) }
    ensures one_history { result ≡ Status.Done → SumsOneHistory (CaseCommand.Summary seed size) image.now list.now }
{
    let count = steps_for(size);
    events_are_few(image, list, count);
    histories_agree(image, list, count);
    let Ok(direct) = load(alloc, image, list, Method::Direct) else {
        return Status::NoMemory;
    };
    let Ok(deferred) = load(alloc, image, list, Method::Deferred) else {
        return Status::NoMemory;
    };
    let direct = count_run(direct, count);
    let deferred = count_run(deferred, count);
    match write_summary(seed, size, &direct, &deferred, image, sink) {
        Err(_) => Status::WriteFault,
        Ok(()) if deferred.premises.is_broken() => Status::Broken,
        Ok(()) => Status::Done,
    }
}
