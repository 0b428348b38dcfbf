// The lines of random interrupts.

ghost use Rattle.std.specs.Prelude.{◌≡◌, ◌++◌, ◌+◌, ◌≤◌, ◌<◌, [], ◌∷◌, length, decimal};
ghost use Rattle.arrayvec.specs.ArrayVec.{array_vec_len};
ghost use Rattle.program_model.specs.Generated.{tick_line, reading_line, interrupt_line};
ghost use Rattle.program_model.specs.Limits.{most_lines};

use crate::draws::Draws;
use arrayvec::ArrayVec;
use itoa::Buffer;

// A line while it is made.
pub type Line = ArrayVec<u8, 64>;

// Appends these bytes.
fn push_bytes(line: &mut Line, bytes: &[u8])
    requires room { array_vec_len line.old + length bytes.now ≤ 64 }
    ensures items { line.new.items ≡ line.old.items ++ bytes.now }
    ensures len { array_vec_len line.new ≡ array_vec_len line.old + length bytes.now }
{
    line.try_extend_from_slice(bytes).unwrap();
}

// Appends a number.
fn push_number(line: &mut Line, number: u32)
    requires room { array_vec_len line.old + 10 ≤ 64 }
    ensures items { line.new.items ≡ line.old.items ++ decimal number }
    ensures len { array_vec_len line.new ≤ array_vec_len line.old + 10 }
{
    let mut buffer = Buffer::new();
    push_bytes(line, buffer.format(number).as_bytes());
}

// The line of a tick at a moment.
fn tick_line(moment: u32) -> Line
    ensures { result.items ≡ tick_line moment ++ 10 ∷ [] }
{
    let mut line = Line::new();
    push_bytes(&mut line, b"task ");
    push_number(&mut line, moment);
    push_bytes(&mut line, b", 1\n");
    line
}

// The line of a reading at a moment.
fn reading_line(moment: u32, reading: u32) -> Line
    ensures { result.items ≡ reading_line moment reading ++ 10 ∷ [] }
{
    let mut line = Line::new();
    push_bytes(&mut line, b"task ");
    push_number(&mut line, moment);
    push_bytes(&mut line, b", 2, 0, ");
    push_number(&mut line, reading);
    push_bytes(&mut line, b", 4, 0\n");
    line
}

// The line of this number, from 1: a tick or a reading at about every fortieth task step.
pub fn interrupt_line(number: u32, draws: &mut Draws) -> Line
    requires { number ≤ most_lines }
    ensures line { result.items ≡ (interrupt_line number draws.old.0).line ++ 10 ∷ [] }
    ensures last { draws.new.0 ≡ (interrupt_line number draws.old.0).last }
{
    let moment = 40 * number + draws.below(20);
    if draws.below(4) == 0 {
        tick_line(moment)
    } else {
        reading_line(moment, draws.below(1000))
    }
}
