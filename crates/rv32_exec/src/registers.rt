// The registers.

ghost use Rattle.std.specs.Prelude.{◌≡◌, ◌<◌, replicate};
ghost use Rattle.rv32_exec.specs.Registers.{read, written, IsRegisters};

use std::marker::Model;

/// The program counter and the registers x0 to x31 of a hart.
#[derive(Clone, Copy)]
pub struct Regs {
    pc: u32,
    x: [u32; 32],
}

impl Model for Regs {
    ghost use Rattle.rv32_exec.specs.Registers.{Registers, IsRegisters};

    ghost Value = { Registers };

    ghost view = { λ r. record { pc = r.pc; x = r.x } };

    ghost invariant = { λ r. IsRegisters (record { pc = r.pc; x = r.x }) };

    ghost inverse = { λ r. record { pc = r.pc; x = r.x } };
}

impl Regs {
    /// pc and all registers 0.
    pub fn new() -> Regs
        ensures { result ≡ record { pc = 0; x = replicate 32 0 } }
    {
        Regs { pc: 0, x: [0; 32] }
    }

    /// The value of register `r`, 0 to 31; x0 reads 0.
    pub fn get(&self, r: u8) -> u32
        requires { r < 32 }
        ensures { result ≡ read self.now r }
    {
        if r == 0 { 0 } else { self.x[r as usize] }
    }

    /// Writes register `r`, 0 to 31; x0 drops the value.
    pub fn set(&mut self, r: u8, v: u32)
        requires { r < 32 }
        ensures { self.new ≡ record self.old { x = written self.old.x r v } }
    {
        if r != 0 {
            self.x[r as usize] = v;
        }
    }

    /// The address of the next instruction.
    pub fn pc(&self) -> u32
        ensures { result ≡ self.now.pc }
    {
        self.pc
    }

    /// Sets the address of the next instruction.
    pub fn set_pc(&mut self, pc: u32)
        ensures { self.new ≡ record self.old { pc = pc } }
    {
        self.pc = pc;
    }

    // What the registers always are; nothing runs.
    pub(crate) fn words(&self)
        ensures { IsRegisters self.now }
    {
        let _ = &self.x;
    }
}
