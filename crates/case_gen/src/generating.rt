// The text of a generated case, line by line.

ghost use Rattle.std.specs.Prelude.{◌≤◌, ◌<◌, ◌++◌, [], ◌∷◌, length, codes};
ghost use Rattle.outside.specs.Causes.{HasCause};
ghost use Rattle.outside.specs.Written.{WritesPiece};
ghost use Rattle.program_model.specs.Application.{application};
ghost use Rattle.program_model.specs.Generated.{generated, interrupt_lines, text_of};
ghost use Rattle.program_model.specs.Limits.{most_lines};

use crate::draws::Draws;
use crate::lines::interrupt_line;
use outside::{Failed, Sink};

/// Writes the case for a seed with so many lines of interrupts, at most 16,384, each line in one write. It takes
/// no memory.
pub fn generate<K: Sink>(seed: u64, size: u32, sink: &mut K) -> Result<(), Failed>
    requires { size ≤ most_lines }
    ensures bytes { WritesPiece (K.held sink.old) (K.held sink.new) result (generated seed size) }
    ensures cause { HasCause (K.faults sink.old) (K.faults sink.new) result }
{
    write_application(sink)?;
    write_interrupts(seed, size, sink)
}

// Writes the application and the line behind which injections stand.
fn write_application<K: Sink>(sink: &mut K) -> Result<(), Failed>
    ensures bytes { WritesPiece (K.held sink.old) (K.held sink.new) result (text_of (application ++ codes ".inject" ∷ [])) }
    ensures cause { HasCause (K.faults sink.old) (K.faults sink.new) result }
{
    let application = b".code\n\
        rx: os OSQPost\n\
        ret\n\
        tk: os OSTimeTick\n\
        ret\n\
        ctl: li a0, inq\n\
        li a1, 0\n\
        li a2, 0\n\
        os OSQPend\n\
        mv s0, a1\n\
        li a0, bus\n\
        li a1, 0\n\
        li a2, 0\n\
        os OSMutexPend\n\
        la t0, total\n\
        lw t1, 0(t0)\n\
        add t1, t1, s0\n\
        sw t1, 0(t0)\n\
        li a0, bus\n\
        li a1, 0\n\
        os OSMutexPost\n\
        j ctl\n\
        lg: li a0, 5\n\
        li a1, 0\n\
        os OSTimeDly\n\
        li a0, bus\n\
        li a1, 0\n\
        li a2, 0\n\
        os OSMutexPend\n\
        la t0, total\n\
        lw t1, 0(t0)\n\
        la t0, shown\n\
        sw t1, 0(t0)\n\
        li a0, bus\n\
        li a1, 0\n\
        os OSMutexPost\n\
        j lg\n\
        bg: addi s0, s0, 1\n\
        j bg\n\
        .ram\n\
        total: .word 0\n\
        shown: .word 0\n\
        .queue inq, 32\n\
        .mutex bus\n\
        .task control, ctl, 10, 0, 0, 0x13C000\n\
        .task logger, lg, 20, 0, 0, 0x13D000\n\
        .task spin, bg, 30, 4, 0, 0x13E000\n\
        .vector 1, 1, tk, 0x13F000\n\
        .vector 2, 2, rx, 0x13F800\n\
        .inject\n";
    write_lines(application, sink)
}

// Writes the lines of a text, each with its line feed in one write.
fn write_lines<K: Sink>(text: &[u8], sink: &mut K) -> Result<(), Failed>
    ensures bytes { WritesPiece (K.held sink.old) (K.held sink.new) result text.now }
    ensures cause { HasCause (K.faults sink.old) (K.faults sink.new) result }
{
    let mut rest = text;
    'lines: while !rest.is_empty() {
        let parts = rest.split_at(line_end(rest));
        sink.write(parts.0)?;
        rest = parts.1;
    }
    Ok(())
}

// How long the first line of a text is, with its line feed.
fn line_end(text: &[u8]) -> usize
    requires { 0 < length text.now }
    ensures some { 0 < result }
    ensures inside { result ≤ length text.now }
{
    match text.iter().position(|byte| *byte == b'\n') {
        Some(place) => place + 1,
        None => text.len(),
    }
}

// Writes so many lines of random interrupts.
fn write_interrupts<K: Sink>(seed: u64, size: u32, sink: &mut K) -> Result<(), Failed>
    requires { size ≤ most_lines }
    ensures bytes { WritesPiece (K.held sink.old) (K.held sink.new) result (text_of (interrupt_lines size 1 seed)) }
    ensures cause { HasCause (K.faults sink.old) (K.faults sink.new) result }
{
    let mut draws = Draws(seed);
    let mut number = 1;
    'lines: while number <= size {
        let line = interrupt_line(number, &mut draws);
        sink.write(line.as_slice())?;
        number += 1;
    }
    Ok(())
}
