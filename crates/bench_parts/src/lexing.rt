// The tokens of large texts. Each function answers how many tokens there are.

use anyhow::Result;
use std::alloc::Global;
use text_lex::{TEXT_LIMIT, tokens};

fn count_tokens(alloc: Global, text: &[u8]) -> Result<usize> {
    if text.len() > TEXT_LIMIT {
        anyhow::bail!("a text has at most {TEXT_LIMIT} bytes");
    }
    let found = tokens(alloc, text)?;
    Ok(found.len())
}

/// A text of so many line feeds.
pub fn lines(alloc: Global, count: usize) -> Result<usize> {
    let text = vec![in alloc; b'\n'; count]?;
    count_tokens(alloc, &text)
}

/// A text of so many bytes that is one comment.
pub fn comment(alloc: Global, count: usize) -> Result<usize> {
    let text = vec![in alloc; b'#'; count]?;
    count_tokens(alloc, &text)
}

/// A text that is one number of so many digits.
pub fn number(alloc: Global, count: usize) -> Result<usize> {
    let text = vec![in alloc; b'0'; count]?;
    count_tokens(alloc, &text)
}

/// A text of so many bytes whose lines are instructions, the last cut off.
pub fn instructions(alloc: Global, count: usize) -> Result<usize> {
    let line = b"go: lw t1, -4(sp) # the top\n";
    let mut text = Vec::new(alloc);
    for at in 0..count {
        text.push(line[at % line.len()])?;
    }
    count_tokens(alloc, &text)
}
