// A large text of names, read into tokens and assembled.

ghost use Rattle.std.specs.Prelude.{◌≤◌, length, IfOk};

use anyhow::Result;
use rv32_asm::assemble;
use std::alloc::Global;
use text_lex::{TEXT_LIMIT, tokens};

// A text of so many constants, each of a name of its own, and one instruction.
fn names_text(alloc: Global, count: usize) -> Result<Vec<u8>>
    ensures { IfOk result (λ text. length text.items ≤ TEXT_LIMIT) }
{
    let mut text = Vec::new(alloc);
    for number in 0..count {
        let line = format!(in alloc; ".equ constant_{number}, {number}\n")?;
        text.extend_from_slice(line.as_bytes())?;
    }
    text.extend_from_slice(b".code\ngo: j go\n.task a, go, 10, 0, 0, 0x140000\n")?;
    if text.len() > TEXT_LIMIT {
        anyhow::bail!("a text has at most {TEXT_LIMIT} bytes");
    }
    Ok(text)
}

/// The tokens of a text of so many names: how many there are.
pub fn names_read(alloc: Global, count: usize) -> Result<usize> {
    let text = names_text(alloc, count)?;
    let found = tokens(alloc, &text)?;
    Ok(found.len())
}

/// The same text assembled: where the tokens behind it would begin.
pub fn names_assembled(alloc: Global, count: usize) -> Result<usize> {
    let text = names_text(alloc, count)?;
    let found = tokens(alloc, &text)?;
    let (_, used) = assemble(alloc, &text, &found)?;
    Ok(used)
}
