//! The program: it makes the words and the standard streams, tells on the standard error why a command did not do all that it
//! was asked for, and ends with the number of the status.
#![tactic(auto)]

ghost use Rattle.std.specs.Prelude.{◌≡◌, OnErr, OnOk};
ghost use Rattle.ucos_top.specs.Told.{IsRun};

use arrayvec::ArrayVec;
use diagnostics::{KEPT, KeepingSink, tell};
use outside::{Failed, StdSink, StdSource};
use std::io::{BufWriter, Stdout};
use std::process::ExitCode;
use std::{env, io};
use ucos_top::{Status, ucos_main};

// How many bytes of output are collected into one write to the operating system.
const OUTPUT_ROOM: usize = 65536;

// The words after the program's name.
fn words_of(rt: &HostRuntime) -> io::Result<Vec<String>> {
    let mut words = Vec::new(rt.alloc());
    for word in env::args(rt)?.skip(1) {
        words.push(word)?;
    }
    Ok(words)
}

// The standard output, collected; where there is no memory for that, each write goes out by itself.
fn output(rt: &HostRuntime) -> BufWriter<Stdout> {
    match BufWriter::with_capacity(rt.alloc(), OUTPUT_ROOM, rt.stdout()) {
        Ok(out) => out,
        Err(_) => BufWriter::with_capacity(rt.alloc(), 0, rt.stdout()).unwrap(),
    }
}

// The status once the collected output was flushed. Where that failed, what was asked for is not written;
// any other status stays.
fn ended(status: Status, flushed: Result<(), Failed>) -> Status
    ensures flushed { OnOk flushed (result ≡ status) }
    ensures fault { OnErr flushed (IsRun status → result ≡ Status.WriteFault) }
    ensures other { OnErr flushed ((IsRun status → ⊥) → result ≡ status) }
{
    match flushed {
        Err(Failed) if matches!(status, Status::Done | Status::Broken) => Status::WriteFault,
        _ => status,
    }
}

// How the words ended, and the first bytes that were written. A word that is no text stands in no command.
fn run(rt: &HostRuntime) -> (Status, ArrayVec<u8, KEPT>) {
    match words_of(rt) {
        Ok(words) => {
            let mut source = StdSource::new(rt.stdin());
            let mut sink = KeepingSink::new(StdSink::new(output(rt)));
            let status = ucos_main(rt.alloc(), &words, &mut source, &mut sink);
            let (mut written, first) = sink.into_parts();
            (ended(status, written.flush()), first)
        }
        Err(e) if e.kind() == io::ErrorKind::OutOfMemory => (Status::NoMemory, ArrayVec::new()),
        Err(_) => (Status::Usage, ArrayVec::new()),
    }
}

// Where the standard error takes nothing, there is nobody left to tell.
fn main(rt: HostRuntime) -> ExitCode {
    let (status, first) = run(&rt);
    let _ = tell(status, first.as_slice(), &mut StdSink::new(rt.stderr()));
    ExitCode::from(status.number())
}
