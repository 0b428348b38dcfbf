// Code that is decoded once and run often.

ghost use Rattle.std.specs.Prelude.{◌≡◌, IfOk, option_map};
ghost use Rattle.rv32_exec.specs.Registers.{IsRegisters};
ghost use Rattle.rv32_exec.specs.Memory.{IsMemory};
ghost use Rattle.rv32_exec.specs.Exec.{IsExecution, exec, fetched};
ghost use Rattle.rv32_exec.specs.Decoding.{instruction_in, IsDecoded};

use crate::running::{act, trap};
use crate::{NoMemory, Ram, Regs, Stepped, TrapKind};
use rv32_isa::{Instr, decode};
use std::alloc::Global;
use std::marker::Model;

/// The code of an application, each word decoded once. Contracts see the list of its words.
#[derive(Drop)]
pub struct Program {
    words: Vec<u32>,
    instrs: Vec<Option<Instr>>,
}

impl Model for Program {
    ghost use Rattle.std.specs.Prelude.{ℕ, List};
    ghost use Rattle.rv32_exec.specs.Decoding.{IsDecoded};

    ghost Value = { List ℕ };

    ghost view = { λ p. p.words.items };

    ghost invariant = { λ p. IsDecoded p.words.items p.instrs.items };
}

// The instruction of each word.
fn instructions(alloc: Global, words: &[u32]) -> Result<Vec<Option<Instr>>, NoMemory>
    ensures { IfOk result (λ v. IsDecoded words.now v.items) }
{
    let mut instrs = Vec::new(alloc);
    for word in words {
        if instrs.push(decode(*word)).is_err() {
            return Err(NoMemory);
        }
    }
    Ok(instrs)
}

impl Program {
    /// The code of these words.
    pub fn new(alloc: Global, code: &[u32]) -> Result<Program, NoMemory>
        ensures { IfOk result (λ program. program ≡ code.now) }
    {
        let mut words = Vec::new(alloc);
        if words.extend_from_slice(code).is_err() {
            return Err(NoMemory);
        }
        let instrs = instructions(alloc, code)?;
        Ok(Program { words, instrs })
    }

    /// Its words.
    pub fn words(&self) -> &[u32]
        ensures { result.now ≡ self.now }
    {
        self.words.as_slice()
    }

    /// The instruction at an address; none where no word that is an instruction lies there.
    #[inline(always)]
    pub fn instruction(&self, pc: u32) -> Option<&Instr>
        ensures { option_map (λ i. i.now) result ≡ instruction_in (fetched self.now pc) }
    {
        if !pc.is_multiple_of(4) {
            return None;
        }
        match self.instrs.get((pc / 4) as usize) {
            Some(Some(instr)) => Some(instr),
            _ => None,
        }
    }

    /// Runs the instruction at pc, as [`step`](crate::step) does.
    #[inline(always)]
    pub fn step(&self, regs: &mut Regs, ram: &mut Ram) -> Stepped
        ensures execution { IsExecution regs.new ram.new result (exec self.now regs.old ram.old) }
        ensures registers { IsRegisters regs.new }
        ensures memory { IsMemory ram.new }
    {
        let stepped = self.run(regs, ram);
        regs.words();
        ram.words();
        stepped
    }

    // One instruction of the code.
    #[inline(always)]
    fn run(&self, regs: &mut Regs, ram: &mut Ram) -> Stepped
        ensures { IsExecution regs.new ram.new result (exec self.now regs.old ram.old) }
    {
        let pc = regs.pc();
        if !pc.is_multiple_of(4) {
            return trap(TrapKind::Fetch, regs);
        }
        match self.instrs.get((pc / 4) as usize) {
            Some(Some(instr)) => act(*instr, regs, ram),
            Some(None) => trap(TrapKind::Illegal, regs),
            None => trap(TrapKind::Fetch, regs),
        }
    }
}
