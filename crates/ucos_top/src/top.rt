ghost use Rattle.std.specs.Prelude.{◌≡◌, ◌≢◌, ◌⊎◌, ◌≤◌, ◌↔◌, length, IfOk, IsErrOf, IfSome, IsNone, MatchResult};
ghost use Rattle.std.specs.Io.KnownBytes.{Appends};
ghost use Rattle.outside.specs.Causes.{Rose, DidNotRise};
ghost use Rattle.outside.specs.Written.{AppendsPrefix};
ghost use Rattle.inject_list.specs.Lists.{IsValidList};
ghost use Rattle.program_model.specs.Words.{command_of, texts};
ghost use Rattle.program_model.specs.Answer.{accepted_status, accepted_text, case_answer, defined, printed, Reads, TakesMemory};
ghost use Rattle.program_model.specs.Case.{Accepts, case_of};
ghost use Rattle.program_model.specs.Generated.{generated};
ghost use Rattle.program_model.specs.Refusals.{refusal_line};
ghost use Rattle.program_model.specs.Limits.{IsCaseWithinLimit, longest_input, most_lines, most_task_steps};
ghost use Rattle.ucos_top.specs.Told.{ReadWhole, AppendsUnlessRose, OrNoMemory, IsWhole, IsSilent, IsRun, IsAfterReading, IsEarly, IsBoth, WritesOneHistory, IsDisassembly, WritesItsCase, SumsOneHistory, HasOneHistory, SoaksOneHistory};

use crate::both::compare;
use crate::case::read_case;
use crate::causes::{CaseError, refusal_line};
use crate::disassembly::disassemble;
use crate::listing::write_listing;
use crate::machines::load;
use crate::reading::{InputError, read_input};
use crate::soak::{generated_text, summarize};
use crate::text::write_run;
use crate::words::command_of;
use app_image::{Image, write_image};
use case_gen::generate;
use inject_list::InjectList;
use kern_base::Method;
use outside::{Failed, Sink, Source};
use program_model::{CaseCause, CaseCommand, Command, Status};
use std::alloc::Global;

/// Does what the words ask for, and answers how it ended. The defined answer of the words is known
/// where the source tells its bytes, or the command reads none.
pub fn ucos_main<S: Source, K: Sink>(
    alloc: Global,
    words: &[String],
    source: &mut S,
    sink: &mut K,
) -> Status
    // The counts of faults never fall.
    ensures source_count { S.faults source.old ≤ S.faults source.new }
    ensures sink_count { K.faults sink.old ≤ K.faults sink.new }

    // Usage comes exactly where the words are no command.
    ensures usage { (result ≡ Status.Usage) ↔ IsNone (command_of (texts words.now)) }

    // With these four nothing is written.
    ensures silent { IsSilent result → sink.new ≡ sink.old }

    // What reads nothing leaves the source as it was.
    ensures source_still { (Reads (command_of (texts words.now)) → ⊥) → source.new ≡ source.old }

    // The headline: the status is the defined one, and exactly the defined text is written.
    ensures whole { IsWhole result → IfSome (defined (texts words.now) (S.left source.old)) (λ a. result ≡ a.status) }
    ensures whole_text { IsWhole result → IfSome (defined (texts words.now) (S.left source.old))
        (λ a. Appends (K.held sink.old) (K.held sink.new) a.text) }

    // The two posting methods: where both runs end with Done, the two task histories that were written are equal.
    ensures one_history { result ≡ Status.Done → IsBoth (command_of (texts words.now)) → WritesOneHistory (K.held sink.old) (K.held sink.new) }

    // The listing that assembles back: what was written is a case with the image of the case that was read.
    ensures its_case { result ≡ Status.Done → IsDisassembly (command_of (texts words.now)) → IfSome (S.left source.old)
        (λ input. WritesItsCase (case_of input) (K.held sink.old) (K.held sink.new)) }

    // And where a summary ends with Done, the two task histories that were counted are equal.
    ensures one_summary { result ≡ Status.Done → SoaksOneHistory (command_of (texts words.now)) }

    // A refused case: its line is written, or a prefix of it where the sink's count rose.
    ensures refused { result ≡ Status.Refused → IfSome (defined (texts words.now) (S.left source.old)) (λ a. a.status ≡ Status.Refused) }
    ensures refused_text { result ≡ Status.Refused → IfSome (defined (texts words.now) (S.left source.old))
        (λ a. AppendsUnlessRose (K.held sink.old) (K.held sink.new) (K.faults sink.old) (K.faults sink.new) a.text) }

    // A fault of reading has its cause.
    ensures read_fault { result ≡ Status.ReadFault → Rose (S.faults source.old) (S.faults source.new) }
    ensures read_fault_reads { result ≡ Status.ReadFault → Reads (command_of (texts words.now)) }

    // A fault of writing has its cause, comes in a run alone, and leaves a prefix of the text.
    ensures write_fault { result ≡ Status.WriteFault → Rose (K.faults sink.old) (K.faults sink.new) }
    ensures write_fault_run { result ≡ Status.WriteFault → IfSome (defined (texts words.now) (S.left source.old)) (λ a. IsRun a.status) }
    ensures write_fault_text { result ≡ Status.WriteFault → IfSome (defined (texts words.now) (S.left source.old))
        (λ a. AppendsPrefix (K.held sink.old) (K.held sink.new) a.text) }

    // Want of memory comes only to a command that takes memory.
    ensures no_memory { result ≡ Status.NoMemory → TakesMemory (command_of (texts words.now)) }

    // The input of a command that reads is read to its end.
    ensures read_whole { IsAfterReading result → Reads (command_of (texts words.now)) → ReadWhole (S.left source.old) (S.left source.new) }

    // The defined status comes, or want of memory, where the sink's count did not rise, nor the
    // source's where it is read.
    ensures complete { IfSome (defined (texts words.now) (S.left source.old)) (λ a.
        (Reads (command_of (texts words.now)) → DidNotRise (S.faults source.old) (S.faults source.new))
        → DidNotRise (K.faults sink.old) (K.faults sink.new) → OrNoMemory result a.status) }

    // A status that comes before the first write of a run is hidden by no fault of the sink.
    ensures early { IfSome (defined (texts words.now) (S.left source.old)) (λ a.
        IsEarly a.status → DidNotRise (S.faults source.old) (S.faults source.new) → OrNoMemory result a.status) }
{
    match command_of(words) {
        None => Status::Usage,
        Some(Command::Generate(seed, size)) => ending(generate(seed, size, sink)),
        Some(Command::Soak(seed, size)) => soak(alloc, seed, size, sink),
        Some(Command::OnCase(command)) => match read_input(alloc, source) {
            Ok(input) => obey(alloc, command, input.as_slice(), sink),
            Err(InputError::Fault) => Status::ReadFault,
            Err(InputError::TooLong) => Status::TooLong,
            Err(InputError::NoMemory) => Status::NoMemory,
        },
    }
}

// Does a command on an input that was read whole.
fn obey<K: Sink>(alloc: Global, command: CaseCommand, input: &[u8], sink: &mut K) -> Status
    requires short { length input.now ≤ longest_input }
    requires within { IsCaseWithinLimit command }
    ensures own { (result ≢ Status.Usage) × (result ≢ Status.ReadFault) × (result ≢ Status.TooLong) }
    ensures sink_count { K.faults sink.old ≤ K.faults sink.new }
    ensures no_memory { result ≡ Status.NoMemory → sink.new ≡ sink.old }
    ensures refused { result ≡ Status.Refused → (case_answer command (case_of input.now)).status ≡ Status.Refused }
    ensures refused_text { result ≡ Status.Refused → AppendsUnlessRose (K.held sink.old) (K.held sink.new) (K.faults sink.old) (K.faults sink.new) (case_answer command (case_of input.now)).text }
    ensures write_fault { result ≡ Status.WriteFault → Rose (K.faults sink.old) (K.faults sink.new) }
    ensures write_fault_run { result ≡ Status.WriteFault → IsRun (case_answer command (case_of input.now)).status }
    ensures write_fault_text { result ≡ Status.WriteFault → AppendsPrefix (K.held sink.old) (K.held sink.new) (case_answer command (case_of input.now)).text }
    ensures whole { IsRun result → result ≡ (case_answer command (case_of input.now)).status }
    ensures whole_text { IsRun result → Appends (K.held sink.old) (K.held sink.new) (case_answer command (case_of input.now)).text }
    ensures one_history { result ≡ Status.Done → IsBoth (Some (Command.OnCase command)) → WritesOneHistory (K.held sink.old) (K.held sink.new) }
    ensures its_case { result ≡ Status.Done → IsDisassembly (Some (Command.OnCase command)) → WritesItsCase (case_of input.now) (K.held sink.old) (K.held sink.new) }
    ensures complete { DidNotRise (K.faults sink.old) (K.faults sink.new) → OrNoMemory result (case_answer command (case_of input.now)).status }
    ensures early { IsEarly (case_answer command (case_of input.now)).status → OrNoMemory result (case_answer command (case_of input.now)).status }
    ensures one_summary { result ≡ Status.Done → HasOneHistory command (case_of input.now) }
{
    match read_case(alloc, input) {
        Ok((image, list)) => run(alloc, command, &image, &list, sink),
        Err(CaseError::NoMemory) => Status::NoMemory,
        Err(CaseError::At(line, cause)) => refuse(line, cause, sink),
    }
}

// Makes a generated case in memory, and does what is asked of it.
fn soak<K: Sink>(alloc: Global, seed: u64, size: u32, sink: &mut K) -> Status
    requires size { size ≤ most_lines }
    ensures own { (result ≢ Status.Usage) × (result ≢ Status.ReadFault) × (result ≢ Status.TooLong) }
    ensures sink_count { K.faults sink.old ≤ K.faults sink.new }
    ensures no_memory { result ≡ Status.NoMemory → sink.new ≡ sink.old }
    ensures refused { result ≡ Status.Refused → (case_answer (CaseCommand.Summary seed size) (case_of (generated seed size))).status ≡ Status.Refused }
    ensures refused_text { result ≡ Status.Refused → AppendsUnlessRose (K.held sink.old) (K.held sink.new) (K.faults sink.old) (K.faults sink.new) (case_answer (CaseCommand.Summary seed size) (case_of (generated seed size))).text }
    ensures write_fault { result ≡ Status.WriteFault → Rose (K.faults sink.old) (K.faults sink.new) }
    ensures write_fault_run { result ≡ Status.WriteFault → IsRun (case_answer (CaseCommand.Summary seed size) (case_of (generated seed size))).status }
    ensures write_fault_text { result ≡ Status.WriteFault → AppendsPrefix (K.held sink.old) (K.held sink.new) (case_answer (CaseCommand.Summary seed size) (case_of (generated seed size))).text }
    ensures whole { IsRun result → result ≡ (case_answer (CaseCommand.Summary seed size) (case_of (generated seed size))).status }
    ensures whole_text { IsRun result → Appends (K.held sink.old) (K.held sink.new) (case_answer (CaseCommand.Summary seed size) (case_of (generated seed size))).text }
    ensures complete { DidNotRise (K.faults sink.old) (K.faults sink.new) → OrNoMemory result (case_answer (CaseCommand.Summary seed size) (case_of (generated seed size))).status }
    ensures early { IsEarly (case_answer (CaseCommand.Summary seed size) (case_of (generated seed size))).status → OrNoMemory result (case_answer (CaseCommand.Summary seed size) (case_of (generated seed size))).status }
    ensures one_summary { result ≡ Status.Done → HasOneHistory (CaseCommand.Summary seed size) (case_of (generated seed size)) }
{
    match generated_text(alloc, seed, size) {
        Ok(text) => obey(alloc, CaseCommand::Summary(seed, size), text.bytes(), sink),
        Err(_) => Status::NoMemory,
    }
}

// Writes the line that refuses a case. A fault of the sink does not change the status.
fn refuse<K: Sink>(line: u32, cause: CaseCause, sink: &mut K) -> Status
    ensures status { result ≡ Status.Refused }
    ensures sink_count { K.faults sink.old ≤ K.faults sink.new }
    ensures text { AppendsUnlessRose (K.held sink.old) (K.held sink.new) (K.faults sink.old) (K.faults sink.new) (refusal_line line cause) }
{
    let _ = sink.write(refusal_line(line, cause).as_slice());
    Status::Refused
}

// Does a command on an accepted case. All memory is taken before the first write.
fn run<K: Sink>(
    alloc: Global,
    command: CaseCommand,
    image: &Image,
    list: &InjectList,
    sink: &mut K,
) -> Status
    requires within { IsCaseWithinLimit command }
    requires list { IsValidList image.now list.now }
    ensures own { (result ≡ Status.NoMemory) ⊎ ((result ≡ Status.WriteFault) ⊎ ((result ≡ Status.Done) ⊎ (result ≡ Status.Broken))) }
    ensures status { (result ≡ Status.NoMemory) ⊎ ((result ≡ Status.WriteFault) ⊎ (result ≡ accepted_status command image.now list.now)) }
    ensures is_run { IsRun (accepted_status command image.now list.now) }
    ensures sink_count { K.faults sink.old ≤ K.faults sink.new }
    ensures no_memory { result ≡ Status.NoMemory → sink.new ≡ sink.old }
    ensures write_fault { result ≡ Status.WriteFault → Rose (K.faults sink.old) (K.faults sink.new) }
    ensures write_fault_text { result ≡ Status.WriteFault → AppendsPrefix (K.held sink.old) (K.held sink.new) (accepted_text command image.now list.now) }
    ensures whole_text { result ≡ Status.Done → Appends (K.held sink.old) (K.held sink.new) (accepted_text command image.now list.now) }
    ensures broken_text { result ≡ Status.Broken → Appends (K.held sink.old) (K.held sink.new) (accepted_text command image.now list.now) }
    ensures one_history { result ≡ Status.Done → IsBoth (Some (Command.OnCase command)) → WritesOneHistory (K.held sink.old) (K.held sink.new) }
    ensures its_case { result ≡ Status.Done → IsDisassembly (Some (Command.OnCase command)) → WritesItsCase (Accepts image.now list.now) (K.held sink.old) (K.held sink.new) }
    ensures one_summary { result ≡ Status.Done → SumsOneHistory command image.now list.now }
{
    match command {
        CaseCommand::Run(method, count) => run_case(alloc, image, list, method, count, sink),
        CaseCommand::Both(count) => compare(alloc, image, list, count, sink),
        CaseCommand::Listing => ending(write_listing(image, sink)),
        CaseCommand::Disassembly => disassemble(image, sink),
        CaseCommand::Binary => ending(write_image(image, sink)),
        CaseCommand::Summary(seed, size) => summarize(alloc, image, list, seed, size, sink),
    }
}

// How a command ends that wrote, and takes no memory.
pub fn ending(written: Result<(), Failed>) -> Status
    ensures ends { MatchResult written (λ _. result ≡ Status.Done) (λ _. result ≡ Status.WriteFault) }
    ensures own { (result ≡ Status.WriteFault) ⊎ (result ≡ Status.Done) }
{
    match written {
        Ok(()) => Status::Done,
        Err(_) => Status::WriteFault,
    }
}

// Runs a case by a method to so many task steps.
fn run_case<K: Sink>(
    alloc: Global,
    image: &Image,
    list: &InjectList,
    method: Method,
    count: u32,
    sink: &mut K,
) -> Status
    requires count { count ≤ most_task_steps }
    requires list { IsValidList image.now list.now }
    ensures own { (result ≡ Status.NoMemory) ⊎ ((result ≡ Status.WriteFault) ⊎ (result ≡ Status.Done)) }
    ensures sink_count { K.faults sink.old ≤ K.faults sink.new }
    ensures no_memory { result ≡ Status.NoMemory → sink.new ≡ sink.old }
    ensures write_fault { result ≡ Status.WriteFault → Rose (K.faults sink.old) (K.faults sink.new) }
    ensures write_fault_text { result ≡ Status.WriteFault → AppendsPrefix (K.held sink.old) (K.held sink.new) (printed method image.now list.now count) }
    ensures whole_text { result ≡ Status.Done → Appends (K.held sink.old) (K.held sink.new) (printed method image.now list.now count) }
{
    match load(alloc, image, list, method) {
        Ok(machine) => ending(write_run(machine, image, count, sink)),
        Err(_) => Status::NoMemory,
    }
}
