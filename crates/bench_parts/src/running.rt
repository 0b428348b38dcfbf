// Instructions, and additions to compare with. Each function answers a number that tells that it was
// done whole.

use anyhow::Result;
use rv32_exec::{Ram, Regs, step};
use std::alloc::Global;

// l: addi ra, ra, 1; bne ra, sp, l: the branch is taken each time, since sp is 0.
static LOOP: [u32; 2] = [0x0010_8093, 0xfe20_9ee3];

/// So many instructions of a loop of two: how often the loop went round.
pub fn instructions(alloc: Global, count: usize) -> Result<usize> {
    let Ok(mut ram) = Ram::new(alloc, &[]) else {
        anyhow::bail!("no memory for the RAM");
    };
    let mut regs = Regs::new();
    for _ in 0..count {
        let _ = step(&LOOP, &mut regs, &mut ram);
    }
    Ok(regs.get(1) as usize)
}

/// So many additions, each of which waits for the one before: the last sum.
pub fn additions(count: usize) -> Result<usize> {
    let mut sum: u32 = 0;
    for turn in 0..u32::try_from(count)? {
        sum = sum.wrapping_add(turn ^ sum);
    }
    Ok(sum as usize)
}
