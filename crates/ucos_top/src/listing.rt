// The listing of an image.

ghost use Rattle.std.specs.Prelude.{◌≡◌, ◌++◌, ◌+◌, ◌*◌, ◌/◌, ◌%◌, ◌≤◌, ◌<◌, ◌^◌, ℕ, List, [], ◌∷◌, length, flat_map, map, decimal, codes};
ghost use Rattle.arrayvec.specs.ArrayVec.{array_vec_len};
ghost use Rattle.outside.specs.Causes.{HasCause};
ghost use Rattle.outside.specs.Written.{WritesPiece};
ghost use Rattle.program_model.specs.Listing.{callback_word, code_line, kind_words, listing, numbered, object_line, ram_line, spaced, task_line, timer_words, vector_line};
ghost use Rattle.rv32_listing.specs.Texts.{hex_word};

use app_image::{Image, ObjDef, TaskDef, VectorDef};
use arrayvec::ArrayVec;
use itoa::Buffer;
use kern_base::Kind;
use outside::{Failed, Sink};
use rv32_listing::hex_digits;

// A line while it is made.
type Line = ArrayVec<u8, 128>;

/// Writes the listing of an image, each line in one write.
#[tactic(auto, unfolding(program_model::specs::Listing::listing))]
pub fn write_listing<K: Sink>(image: &Image, sink: &mut K) -> Result<(), Failed>
    ensures bytes { WritesPiece (K.held sink.old) (K.held sink.new) result (listing image.now) }
    ensures cause { HasCause (K.faults sink.old) (K.faults sink.new) result }
{
    write_rows::<Tasks, K>(image.tasks(), sink)?;
    write_rows::<Objects, K>(image.objects(), sink)?;
    write_rows::<Vectors, K>(image.vectors(), sink)?;
    write_rows::<Code, K>(image.code(), sink)?;
    write_rows::<InitialRam, K>(image.ram(), sink)
}

// A part of the listing: what each of its rows prints, by its number from 0.
trait Rows {
    type Record;

    ghost text: { ℕ → Self.Record → List ℕ };

    fn line(number: u32, row: &Self::Record) -> Line
        requires { number < 65536 }
        ensures { result.items ≡ text number row.now };
}

// Writes the lines of some rows, each in one write.
fn write_rows<R: Rows, K: Sink>(rows: &[R::Record], sink: &mut K) -> Result<(), Failed>
    requires { length rows.now ≤ 65536 }
    ensures bytes { WritesPiece (K.held sink.old) (K.held sink.new) result (numbered R.text 0 rows.now) }
    ensures cause { HasCause (K.faults sink.old) (K.faults sink.new) result }
{
    let mut number: u32 = 0;
    for row in rows {
        write_line(&R::line(number, row), sink)?;
        number += 1;
    }
    Ok(())
}

// Writes a line, unless it is empty.
fn write_line<K: Sink>(line: &Line, sink: &mut K) -> Result<(), Failed>
    ensures bytes { WritesPiece (K.held sink.old) (K.held sink.new) result line.now.items }
    ensures cause { HasCause (K.faults sink.old) (K.faults sink.new) result }
{
    if line.is_empty() {
        return Ok(());
    }
    sink.write(line.as_slice())
}

struct Tasks;

impl Rows for Tasks {
    type Record = TaskDef;

    ghost text = { task_line };

    fn line(number: u32, task: &TaskDef) -> Line {
        let mut line = begun(b"task");
        push_number(&mut line, number);
        push_word(&mut line, task.name.bytes());
        push_numbers(
            &mut line,
            &[task.entry, task.prio, task.quanta, task.qsize, task.sp],
        );
        line.push(b'\n');
        line
    }
}

struct Objects;

impl Rows for Objects {
    type Record = ObjDef;

    ghost text = { object_line };

    fn line(number: u32, object: &ObjDef) -> Line {
        let mut line = begun(b"obj");
        push_number(&mut line, number);
        push_word(&mut line, object.name.bytes());
        push_kind(&mut line, object.kind, &object.f);
        line.push(b'\n');
        line
    }
}

struct Vectors;

impl Rows for Vectors {
    type Record = VectorDef;

    ghost text = { vector_line };

    fn line(_place: u32, vector: &VectorDef) -> Line {
        let mut line = begun(b"vector");
        push_numbers(
            &mut line,
            &[vector.number, vector.level, vector.entry, vector.sp],
        );
        line.push(b'\n');
        line
    }
}

struct Code;

impl Rows for Code {
    type Record = u32;

    ghost text = { code_line };

    fn line(place: u32, word: &u32) -> Line {
        let mut line = begun(b"word");
        push_number(&mut line, 4 * place);
        push_hex(&mut line, *word);
        line.push(b'\n');
        line
    }
}

struct InitialRam;

impl Rows for InitialRam {
    type Record = u32;

    ghost text = { ram_line };

    fn line(place: u32, word: &u32) -> Line {
        if *word == 0 {
            return Line::new();
        }
        let mut line = begun(b"ram");
        push_number(&mut line, 0x0010_0000 + 4 * place);
        push_hex(&mut line, *word);
        line.push(b'\n');
        line
    }
}

// A line that begins with this word.
fn begun(first: &[u8]) -> Line
    requires { length first.now ≤ 6 }
    ensures items { result.items ≡ first.now }
    ensures len { array_vec_len result ≤ 6 }
{
    let mut line = Line::new();
    push_bytes(&mut line, first);
    line
}

// Appends the kind of an object and what it declares.
fn push_kind(line: &mut Line, kind: Kind, f: &[u32; 4])
    requires room { array_vec_len line.old ≤ 40 }
    ensures items { line.new.items ≡ line.old.items ++ spaced (kind_words kind f.now) }
    ensures len { array_vec_len line.new ≤ array_vec_len line.old + 60 }
{
    match kind {
        Kind::Sem => push_value(line, b"sem", f[0]),
        Kind::Queue => push_value(line, b"queue", f[0]),
        Kind::Flags => push_value(line, b"flags", f[0]),
        Kind::Mutex => push_word(line, b"mutex"),
        Kind::OneShot => push_timer(line, b"oneshot", f),
        Kind::Periodic => push_timer(line, b"periodic", f),
    }
}

// Appends a kind and its one number.
fn push_value(line: &mut Line, kind: &[u8], value: u32)
    requires short { length kind.now ≤ 8 }
    requires room { array_vec_len line.old ≤ 40 }
    ensures items { line.new.items ≡ line.old.items ++ spaced (kind.now ∷ decimal value ∷ []) }
    ensures len { array_vec_len line.new ≤ array_vec_len line.old + 20 }
{
    push_word(line, kind);
    push_number(line, value);
}

// Appends a kind of timer, its delay, period, callback and argument.
fn push_timer(line: &mut Line, kind: &[u8], f: &[u32; 4])
    requires short { length kind.now ≤ 8 }
    requires room { array_vec_len line.old ≤ 40 }
    ensures items { line.new.items ≡ line.old.items ++ spaced (kind.now ∷ timer_words f.now) }
    ensures len { array_vec_len line.new ≤ array_vec_len line.old + 60 }
{
    push_word(line, kind);
    push_number(line, f[0]);
    push_number(line, f[1]);
    if f[2] == u32::MAX {
        push_word(line, b"none");
    } else {
        push_number(line, f[2]);
    }
    push_number(line, f[3]);
}

// Appends these bytes.
fn push_bytes(line: &mut Line, bytes: &[u8])
    requires room { array_vec_len line.old + length bytes.now ≤ 128 }
    ensures items { line.new.items ≡ line.old.items ++ bytes.now }
    ensures len { array_vec_len line.new ≡ array_vec_len line.old + length bytes.now }
{
    line.try_extend_from_slice(bytes).unwrap();
}

// Appends a blank and a word.
fn push_word(line: &mut Line, word: &[u8])
    requires room { array_vec_len line.old + length word.now + 1 ≤ 128 }
    ensures items { line.new.items ≡ line.old.items ++ 32 ∷ word.now }
    ensures len { array_vec_len line.new ≡ array_vec_len line.old + length word.now + 1 }
{
    line.push(b' ');
    push_bytes(line, word);
}

// Appends a blank and a number.
fn push_number(line: &mut Line, number: u32)
    requires room { array_vec_len line.old + 11 ≤ 128 }
    ensures items { line.new.items ≡ line.old.items ++ 32 ∷ decimal number }
    ensures len { array_vec_len line.new ≤ array_vec_len line.old + 11 }
{
    let mut buffer = Buffer::new();
    push_word(line, buffer.format(number).as_bytes());
}

// Appends these numbers, each behind a blank.
fn push_numbers(line: &mut Line, numbers: &[u32])
    requires few { length numbers.now ≤ 5 }
    requires room { array_vec_len line.old ≤ 40 }
    ensures items { line.new.items ≡ line.old.items ++ spaced (map decimal numbers.now) }
    ensures len { array_vec_len line.new ≤ array_vec_len line.old + 55 }
{
    for number in numbers {
        push_number(line, *number);
    }
}

// Appends a blank and the eight hexadecimal digits of a word.
fn push_hex(line: &mut Line, word: u32)
    requires room { array_vec_len line.old + 9 ≤ 128 }
    ensures items { line.new.items ≡ line.old.items ++ 32 ∷ hex_word word }
    ensures len { array_vec_len line.new ≤ array_vec_len line.old + 9 }
{
    push_word(line, &hex_digits(word));
}
