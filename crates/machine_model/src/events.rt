// What happened in one step of the machine.

use inject_list::Seen;
use kern_base::{ObjId, OsErr, Service, TaskId};
use rv32_exec::TrapKind;

/// One event, with the counts of raw steps and of task steps as they stood before it.
#[derive(Clone, Copy, PartialEq, Eq)]
pub struct Event {
    /// The raw steps before it.
    pub s: u64,
    /// The task steps before it.
    pub t: u32,
    pub what: What,
    /// The current task before it and after it, where it changed.
    pub switch: Option<(TaskId, TaskId)>,
    /// Whether an instruction of interrupt code read a register with a mark.
    pub marked: bool,
}

/// How a frame of interrupt code left.
#[derive(Clone, Copy, PartialEq, Eq)]
pub enum How {
    /// It returned.
    Ret,
    /// It had run as many instructions as the settings allow.
    Limit,
    /// It trapped at the instruction of this address.
    Trap(TrapKind, u32),
}

/// What an event was. Entries of an array past its count are 0, or None where they are options. A count
/// of arguments is at most 4, of entries of a table at most 8, of tasks of a list at most 63.
#[derive(Clone, Copy, PartialEq, Eq)]
pub enum What {
    /// Nothing that has a line of its own.
    Quiet,
    /// The run begins with this task as the current one.
    Start {
        task: TaskId,
    },
    /// A task called a service, with the first `n_args` of these arguments.
    Call {
        task: TaskId,
        service: Service,
        args: [u32; 4],
        n_args: u8,
    },
    /// A task has the answer of its call. `size` is that of a message, for `OSQPend` and `OSTaskQPend`
    /// alone. The first `n_tab` entries of `tab` are those of a table, each with the message and the size
    /// that was taken there.
    Ret {
        task: TaskId,
        service: Service,
        err: OsErr,
        value: u32,
        size: u32,
        tab: [Option<(u32, u32)>; 8],
        n_tab: u8,
    },
    /// A task waits in this call, or has suspended itself with it.
    Wait {
        task: TaskId,
        service: Service,
    },
    /// A task deleted itself.
    Gone {
        task: TaskId,
    },
    /// A store of so many bytes, by the task of this number, or from 64 on by a frame of the vector
    /// `who - 64`. The value is cut to the width.
    St {
        who: u8,
        addr: u32,
        width: u8,
        value: u32,
    },
    /// A task or a timer's callback trapped at the instruction of this address.
    Trap {
        task: TaskId,
        kind: TrapKind,
        pc: u32,
    },
    /// The tick task has raised the tick counter to this.
    Tick {
        count: u32,
    },
    /// The timer task has raised the timer count to this.
    Tmr {
        count: u32,
    },
    /// A timer fired.
    Fire {
        obj: ObjId,
    },
    /// An interrupt entered: whether its moment was in raw steps, and whether the scheduler was locked.
    Irq {
        vector: u8,
        level: u8,
        by_step: bool,
        locked: bool,
    },
    /// A frame posted.
    Post {
        vector: u8,
        service: Service,
        args: [u32; 4],
        n_args: u8,
        err: OsErr,
        value: u32,
    },
    /// A frame called a service that is no post, which is refused.
    ICall {
        vector: u8,
        service: Service,
        err: OsErr,
    },
    /// A frame left.
    Exit {
        vector: u8,
        how: How,
    },
    /// The handler has performed a queued post. `same`: with the literal insertion rule, it readied a task
    /// of the priority that was saved with the post.
    Take {
        service: Service,
        args: [u32; 4],
        n_args: u8,
        err: OsErr,
        value: u32,
        same: bool,
    },
    /// A look at a list: the tasks of its forward chain, and of its backward chain from its end.
    Look {
        seen: Seen,
        forward: [u8; 64],
        n_forward: u8,
        back: [u8; 64],
        n_back: u8,
    },
}
