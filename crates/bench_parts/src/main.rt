// Does parts of the work as large as it is told, each once. The words are a part's name and its
// count, and may go on with further pairs. Each pair gives one line, which does not depend on speed.
#![tactic(auto)]

mod assembling;
mod lexing;
mod linking;
mod running;

use std::alloc::Global;
use std::env;

/// One part of this size: a number that tells that it was done whole.
fn done(alloc: Global, part: &str, count: usize) -> anyhow::Result<usize> {
    match part {
        "tokens-lines" => lexing::lines(alloc, count),
        "tokens-comment" => lexing::comment(alloc, count),
        "tokens-number" => lexing::number(alloc, count),
        "tokens-instructions" => lexing::instructions(alloc, count),
        "tokens-names" => assembling::names_read(alloc, count),
        "assemble-names" => assembling::names_assembled(alloc, count),
        "instructions" => running::instructions(alloc, count),
        "additions" => running::additions(count),
        "links-number-2" => linking::by_number(alloc, 1, count),
        "links-number-60" => linking::by_number(alloc, 59, count),
        "links-pointer-2" => linking::by_pointer(alloc, 1, count),
        "links-pointer-60" => linking::by_pointer(alloc, 59, count),
        _ => anyhow::bail!("no part is called {part}"),
    }
}

fn main(rt: HostRuntime) -> anyhow::Result<()> {
    let mut part: Option<String> = None;
    for word in env::args(&rt)?.skip(1) {
        match part {
            None => part = Some(word),
            Some(name) => {
                let count: usize = word.parse()?;
                let result = done(rt.alloc(), &name, count)?;
                println!(rt; "{name} {count}: {result}")?;
                part = None;
            }
        }
    }
    Ok(())
}
