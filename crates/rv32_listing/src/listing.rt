// The listing of an image.

ghost use Rattle.std.specs.Prelude.{◌≤◌, ◌≡◌, ◌++◌, ℕ, List, length, codes, map, nat_le, true};
ghost use Rattle.std.specs.List.{flat_map, list_all};
ghost use Rattle.outside.specs.Causes.{HasCause};
ghost use Rattle.outside.specs.Written.{WritesPiece};
ghost use Rattle.asm_lines.specs.Tables.{row_of};
ghost use Rattle.rv32_listing.specs.Disassembly.{code_lines, declarations, disassembly, object_line, ram_line, setting_line, setting_lines, task_line, vector_line};

use crate::declarations;
use crate::pieces::Line;
use crate::words::line_of_word;
use app_image::{Config, ConfigKey, Image, ObjDef, TaskDef, VectorDef};
use asm_lines::settings;
use outside::{Failed, Sink};

/// Writes the listing of an image, each line in one write.
#[tactic(auto, unfolding(crate::specs::Disassembly::disassembly))]
pub fn write_listing<K: Sink>(image: &Image, sink: &mut K) -> Result<(), Failed>
    ensures bytes { WritesPiece (K.held sink.old) (K.held sink.new) result (disassembly image.now) }
    ensures cause { HasCause (K.faults sink.old) (K.faults sink.new) result }
{
    write_code(image.code(), sink)?;
    write_ram(image.ram(), sink)?;
    write_declarations(image, sink)
}

// Writes the section of the code.
fn write_code<K: Sink>(code: &[u32], sink: &mut K) -> Result<(), Failed>
    requires { length code.now ≤ 16384 }
    ensures bytes { WritesPiece (K.held sink.old) (K.held sink.new) result (codes ".code\n" ++ code_lines (length code.now) 0 code.now) }
    ensures cause { HasCause (K.faults sink.old) (K.faults sink.new) result }
{
    sink.write(b".code\n")?;
    write_code_lines(code, sink)
}

// Writes the lines of the code words.
fn write_code_lines<K: Sink>(code: &[u32], sink: &mut K) -> Result<(), Failed>
    requires { length code.now ≤ 16384 }
    ensures bytes { WritesPiece (K.held sink.old) (K.held sink.new) result (code_lines (length code.now) 0 code.now) }
    ensures cause { HasCause (K.faults sink.old) (K.faults sink.new) result }
{
    let words = code.len() as u32;
    let mut number: u32 = 0;
    for word in code {
        let mut line = Line::new();
        line_of_word(4 * number, *word, words, &mut line);
        sink.write(line.as_slice())?;
        number += 1;
    }
    Ok(())
}

// Writes the section of the RAM.
fn write_ram<K: Sink>(ram: &[u32], sink: &mut K) -> Result<(), Failed>
    ensures bytes { WritesPiece (K.held sink.old) (K.held sink.new) result (codes ".ram\n" ++ flat_map ram_line ram.now) }
    ensures cause { HasCause (K.faults sink.old) (K.faults sink.new) result }
{
    sink.write(b".ram\n")?;
    write_rows::<Ram, K>(ram, sink)
}

// Writes what the image declares.
fn write_declarations<K: Sink>(image: &Image, sink: &mut K) -> Result<(), Failed>
    ensures bytes { WritesPiece (K.held sink.old) (K.held sink.new) result (declarations image.now) }
    ensures cause { HasCause (K.faults sink.old) (K.faults sink.new) result }
{
    write_rows::<Objects, K>(image.objects(), sink)?;
    write_rows::<Tasks, K>(image.tasks(), sink)?;
    write_rows::<Vectors, K>(image.vectors(), sink)?;
    write_settings(&image.config(), sink)
}

// Writes the ten settings.
fn write_settings<K: Sink>(config: &Config, sink: &mut K) -> Result<(), Failed>
    ensures bytes { WritesPiece (K.held sink.old) (K.held sink.new) result (setting_lines config.now) }
    ensures cause { HasCause (K.faults sink.old) (K.faults sink.new) result }
{
    write_keys(config, settings(), sink)
}

// Writes the settings with these names, which are short.
fn write_keys<K: Sink>(
    config: &Config,
    keys: &[(&[u8], ConfigKey)],
    sink: &mut K,
) -> Result<(), Failed>
    requires { list_all (λ row. nat_le (length row.0) 16) (map row_of keys.now) ≡ true }
    ensures bytes { WritesPiece (K.held sink.old) (K.held sink.new) result (flat_map (setting_line config.now) (map row_of keys.now)) }
    ensures cause { HasCause (K.faults sink.old) (K.faults sink.new) result }
{
    for (name, key) in keys {
        let line = declarations::setting_line(config, name, *key);
        sink.write(line.as_slice())?;
    }
    Ok(())
}

// Records of a sort: the line of each.
trait Rows {
    type Record;

    ghost text: { Self.Record → List ℕ };

    fn line(row: &Self::Record) -> Line
        ensures { result.items ≡ text row.now };
}

// Writes the lines of some records, each in one write.
fn write_rows<R: Rows, K: Sink>(rows: &[R::Record], sink: &mut K) -> Result<(), Failed>
    ensures bytes { WritesPiece (K.held sink.old) (K.held sink.new) result (flat_map R.text rows.now) }
    ensures cause { HasCause (K.faults sink.old) (K.faults sink.new) result }
{
    for row in rows {
        sink.write(R::line(row).as_slice())?;
    }
    Ok(())
}

struct Ram;

impl Rows for Ram {
    type Record = u32;

    ghost text = { ram_line };

    fn line(word: &u32) -> Line {
        declarations::ram_line(*word)
    }
}

struct Objects;

impl Rows for Objects {
    type Record = ObjDef;

    ghost text = { object_line };

    fn line(object: &ObjDef) -> Line {
        declarations::object_line(object)
    }
}

struct Tasks;

impl Rows for Tasks {
    type Record = TaskDef;

    ghost text = { task_line };

    fn line(task: &TaskDef) -> Line {
        declarations::task_line(task)
    }
}

struct Vectors;

impl Rows for Vectors {
    type Record = VectorDef;

    ghost text = { vector_line };

    fn line(vector: &VectorDef) -> Line {
        declarations::vector_line(vector)
    }
}
