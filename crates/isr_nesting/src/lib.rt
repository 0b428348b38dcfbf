//! Interrupt code: which interrupt enters next, the frames that stand, and the marks of results that a
//! post left in registers.
#![tactic(auto)]

ghost use Rattle.std.specs.Prelude.{◌≡◌, replicate};

mod marking;
mod minima;
mod nests;
mod orders;
mod records;
mod stacks;
#[cfg(test)]
mod tests;
mod waits;

pub use marking::marks_after;
pub use nests::{Entry, Frames};
use rv32_exec::Regs;

/// A frame of interrupt code.
#[derive(Clone, Copy)]
pub struct Frame {
    /// The vector's number, 0 to 31.
    pub vector: u8,
    /// The interrupt level, 1 to 7.
    pub level: u8,
    pub regs: Regs,
    /// How many instructions it has run.
    pub used: u32,
    /// Bit 0 for `a0` and bit 1 for `a1`: the register holds the result of a post.
    pub marks: u8,
}

impl Default for Frame {
    ghost is_default = { λ f. f ≡ record { vector = 0; level = 0; regs = record { pc = 0; x = replicate 32 0 }; used = 0; marks = 0 } };

    // No frame: what stands in free room.
    fn default() -> Frame {
        Frame {
            vector: 0,
            level: 0,
            regs: Regs::new(),
            used: 0,
            marks: 0,
        }
    }
}
