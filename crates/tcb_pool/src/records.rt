// The record of a task.

ghost use Rattle.std.specs.Prelude.{◌≤◌};

use kern_base::{Finished, Prio, Waiting};
use rv32_exec::Regs;

/// The record of a task, its task control block.
#[derive(Clone, Copy)]
pub struct Tcb {
    /// The priority that was declared, or that the task was last given.
    pub base: Prio,
    /// The present priority.
    pub prio: Prio,
    /// What the task waits for.
    pub wait: Waiting,
    /// The objects of the call in which it waits or whose result waits, in that call's order.
    pub ids: [u8; 8],
    /// How many of `ids` these are, 0 to 8.
    pub n_ids: u8,
    /// The mask of that call, where it waits on event flags.
    pub mask: u32,
    /// The option of that call, where it waits on event flags.
    pub opt: u32,
    /// The address of that call's table, where it waits on several objects.
    pub table: u32,
    /// How often it was suspended and not yet resumed, 0 to 250.
    pub suspended: u8,
    /// False for a task that was deleted or that trapped, and for a number without a task.
    pub alive: bool,
    /// What is left of its quantum, in ticks.
    pub quantum: u32,
    /// Its full quantum, in ticks.
    pub full: u32,
    pub regs: Regs,
    /// The result that the task reads when it next acts.
    pub result: Option<Finished>,
    pub ghost few: { n_ids ≤ 8 },
}
