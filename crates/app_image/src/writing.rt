// The binary image, written.

ghost use Rattle.std.specs.Prelude.{◌≡◌, ◌+◌, ◌-◌, ◌*◌, ◌++◌, ◌<◌, ◌≤◌, ◌^◌, [], ◌∷◌, length, take, drop, OnOk};
ghost use Rattle.std.specs.List.{flat_map};
ghost use Rattle.arrayvec.specs.ArrayVec.{array_vec_len};
ghost use Rattle.outside.specs.Causes.{HasCause};
ghost use Rattle.outside.specs.Written.{WritesPiece};
ghost use Rattle.kern_base.specs.Checks.{kind_number};
ghost use Rattle.app_image.specs.Layout.{half_bytes, word_bytes, words_bytes, task_bytes, object_bytes, vector_bytes, setting_values, header_bytes, layout};
ghost use Rattle.app_image.specs.RoundTrip.{ReadsBack};

use crate::{Config, Image, ObjDef, TaskDef, VectorDef};
use arrayvec::ArrayVec;
use byteorder::{ByteOrder, LittleEndian};
use kern_base::Kind;
use outside::{Failed, Sink};

// Bytes that go out in one write.
type Piece = ArrayVec<u8, 64>;

// How many words go out in one write.
const WORDS_A_WRITE: usize = 16;

fn push_bytes(piece: &mut Piece, bytes: &[u8])
    requires { array_vec_len piece.old + length bytes.now ≤ 64 }
    ensures items { piece.new.items ≡ piece.old.items ++ bytes.now }
    ensures len { array_vec_len piece.new ≡ array_vec_len piece.old + length bytes.now }
{
    piece.try_extend_from_slice(bytes).unwrap();
}

fn push_half(piece: &mut Piece, n: u16)
    requires { array_vec_len piece.old + 2 ≤ 64 }
    ensures items { piece.new.items ≡ piece.old.items ++ half_bytes n }
    ensures len { array_vec_len piece.new ≡ array_vec_len piece.old + 2 }
{
    let mut bytes = [0; 2];
    LittleEndian::write_u16(&mut bytes, n);
    push_bytes(piece, &bytes);
}

fn push_word(piece: &mut Piece, n: u32)
    requires { array_vec_len piece.old + 4 ≤ 64 }
    ensures items { piece.new.items ≡ piece.old.items ++ word_bytes n }
    ensures len { array_vec_len piece.new ≡ array_vec_len piece.old + 4 }
{
    let mut bytes = [0; 4];
    LittleEndian::write_u32(&mut bytes, n);
    push_bytes(piece, &bytes);
}

fn push_words(piece: &mut Piece, words: &[u32])
    requires { array_vec_len piece.old + 4 * length words.now ≤ 64 }
    ensures items { piece.new.items ≡ piece.old.items ++ words_bytes words.now }
    ensures len { array_vec_len piece.new ≡ array_vec_len piece.old + 4 * length words.now }
{
    for word in words {
        push_word(piece, *word);
    }
}

fn kind_number(kind: Kind) -> u32
    ensures { result ≡ kind_number kind }
{
    match kind {
        Kind::Sem => 1,
        Kind::Queue => 2,
        Kind::Flags => 3,
        Kind::Mutex => 4,
        Kind::OneShot => 5,
        Kind::Periodic => 6,
    }
}

fn task_piece(task: &TaskDef) -> Piece
    ensures { result.items ≡ task_bytes task.now }
{
    let mut piece = Piece::new();
    push_bytes(&mut piece, &task.name.padded());
    push_words(
        &mut piece,
        &[task.entry, task.sp, task.prio, task.quanta, task.qsize],
    );
    piece
}

fn object_piece(object: &ObjDef) -> Piece
    ensures { result.items ≡ object_bytes object.now }
{
    let mut piece = Piece::new();
    push_bytes(&mut piece, &object.name.padded());
    push_word(&mut piece, kind_number(object.kind));
    push_words(&mut piece, &object.f);
    piece
}

fn vector_piece(vector: &VectorDef) -> Piece
    ensures { result.items ≡ vector_bytes vector.now }
{
    let mut piece = Piece::new();
    push_words(
        &mut piece,
        &[vector.number, vector.level, vector.entry, vector.sp],
    );
    piece
}

fn settings_piece(c: &Config) -> Piece
    ensures { result.items ≡ words_bytes (setting_values c.now) }
{
    let mut piece = Piece::new();
    push_words(
        &mut piece,
        &[
            c.isr_limit,
            c.defer_size,
            c.pool,
            c.tmr_div,
            c.round_robin,
            c.quanta,
            c.tick_prio,
            c.tmr_prio,
            c.tmr_sp,
            c.insert,
        ],
    );
    piece
}

// The first 24 bytes, with the numbers of code words, RAM words, tasks, objects and vectors.
fn header_piece(image: &Image) -> Piece
    ensures { result.items ≡ header_bytes image.now }
{
    let mut piece = Piece::new();
    push_bytes(&mut piece, b"UC3I");
    push_half(&mut piece, 2);
    push_half(&mut piece, 0);
    push_word(&mut piece, image.code().len() as u32);
    push_word(&mut piece, image.ram().len() as u32);
    push_half(&mut piece, image.tasks().len() as u16);
    push_half(&mut piece, image.objects().len() as u16);
    push_half(&mut piece, image.vectors().len() as u16);
    push_half(&mut piece, 0);
    piece
}

fn write_tasks<K: Sink>(tasks: &[TaskDef], sink: &mut K) -> Result<(), Failed>
    ensures bytes { WritesPiece (K.held sink.old) (K.held sink.new) result (flat_map task_bytes tasks.now) }
    ensures cause { HasCause (K.faults sink.old) (K.faults sink.new) result }
{
    for task in tasks {
        let piece = task_piece(task);
        sink.write(piece.as_slice())?;
    }
    Ok(())
}

fn write_objects<K: Sink>(objects: &[ObjDef], sink: &mut K) -> Result<(), Failed>
    ensures bytes { WritesPiece (K.held sink.old) (K.held sink.new) result (flat_map object_bytes objects.now) }
    ensures cause { HasCause (K.faults sink.old) (K.faults sink.new) result }
{
    for object in objects {
        let piece = object_piece(object);
        sink.write(piece.as_slice())?;
    }
    Ok(())
}

fn write_vectors<K: Sink>(vectors: &[VectorDef], sink: &mut K) -> Result<(), Failed>
    ensures bytes { WritesPiece (K.held sink.old) (K.held sink.new) result (flat_map vector_bytes vectors.now) }
    ensures cause { HasCause (K.faults sink.old) (K.faults sink.new) result }
{
    for vector in vectors {
        let piece = vector_piece(vector);
        sink.write(piece.as_slice())?;
    }
    Ok(())
}

// The words from a place to an end.
fn words_piece(words: &[u32], at: usize, end: usize) -> Piece
    requires order { at ≤ end }
    requires inside { end ≤ length words.now }
    requires few { end - at ≤ 16 }
    ensures { result.items ≡ words_bytes (take (end - at) (drop at words.now)) }
{
    let mut piece = Piece::new();
    push_words(&mut piece, &words[at..end]);
    piece
}

fn write_words<K: Sink>(words: &[u32], sink: &mut K) -> Result<(), Failed>
    ensures bytes { WritesPiece (K.held sink.old) (K.held sink.new) result (words_bytes words.now) }
    ensures cause { HasCause (K.faults sink.old) (K.faults sink.new) result }
{
    let mut at: usize = 0;
    while at < words.len() {
        let end = words.len().min(at + WORDS_A_WRITE);
        let piece = words_piece(words, at, end);
        sink.write(piece.as_slice())?;
        at = end;
    }
    Ok(())
}

/// Writes the image in version 2 of the binary format. Takes no memory. Where a write fails, a prefix
/// of the bytes was written. What `read_image` answers on the bytes, whatever follows them, and `check`
/// on that, is the same image with line numbers 0.
pub fn write_image<K: Sink>(image: &Image, sink: &mut K) -> Result<(), Failed>
    ensures bytes { WritesPiece (K.held sink.old) (K.held sink.new) result (layout image.now) }
    ensures cause { HasCause (K.faults sink.old) (K.faults sink.new) result }
    ensures back { OnOk result (ReadsBack image.now) }
{
    let header = header_piece(image);
    sink.write(header.as_slice())?;
    let settings = settings_piece(&image.config());
    sink.write(settings.as_slice())?;
    write_tasks(image.tasks(), sink)?;
    write_objects(image.objects(), sink)?;
    write_vectors(image.vectors(), sink)?;
    write_words(image.code(), sink)?;
    write_words(image.ram(), sink)
}
