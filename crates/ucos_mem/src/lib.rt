//! The program over memory: what the top call says where the source and the sink tell their bytes.
#![tactic(auto)]

ghost use Rattle.std.specs.Prelude.{◌≡◌, IfOk};
ghost use Rattle.program_model.specs.Words.{texts};
ghost use Rattle.program_model.specs.Answer.{answer};
ghost use Rattle.ucos_mem.specs.Answered.{IsAnswer};

mod page;

use crate::page::Page;
use outside::{MemSource, NoMemory};
use std::alloc::Global;
use ucos_top::{Status, ucos_main};

/// What the words came to: the status, and the bytes that were written.
#[derive(Drop)]
pub struct Answered {
    pub status: Status,
    pub text: Vec<u8>,
}

/// Runs the words on an input in memory. The answer has the defined status and exactly the defined bytes; where memory ran
/// out there is none.
pub fn run_in_memory(alloc: Global, words: &[String], input: Vec<u8>) -> Result<Answered, NoMemory>
    ensures { IfOk result (λ a. IsAnswer a.status a.text.items (answer (texts words.now) input.items)) }
{
    let mut source = MemSource::new(input, 4096, Vec::new(alloc));
    let mut page = Page::new(alloc);
    let status = ucos_main(alloc, words, &mut source, &mut page);
    if page.has_failed() {
        return Err(NoMemory);
    }
    match status {
        Status::Done | Status::Broken | Status::Usage | Status::Refused | Status::TooLong => Ok(
            Answered {
                status,
                text: page.into_bytes(),
            },
        ),
        Status::ReadFault | Status::WriteFault | Status::NoMemory => Err(NoMemory),
    }
}

#[cfg(test)]
mod tests;
