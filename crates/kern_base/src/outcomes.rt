// What comes of a call.

use crate::{ObjId, OsErr, Prio, Service, TaskId};

/// What a call answers: the error, the value, and the size of a message where one was taken.
#[derive(Clone, Copy, Debug, PartialEq, Eq)]
pub struct Answer {
    pub err: OsErr,
    pub value: u32,
    pub extra: u32,
}

/// Which waiters a post, an abort or a deletion wakes.
#[derive(Clone, Copy, Debug, PartialEq, Eq)]
pub enum Who {
    First,
    All,
    /// Those whose condition on event flags holds.
    Matching,
}

/// What a call on an object comes to.
#[derive(Clone, Copy, Debug, PartialEq, Eq)]
pub enum Decision {
    Done(Answer),
    /// The caller waits.
    Block,
    Wake(Who),
}

/// What a decision on an object looks at beside the object: the caller and its present priority,
/// whether the scheduler is locked, and the first waiter, None exactly where nobody waits.
#[derive(Clone, Copy, Debug, PartialEq, Eq)]
pub struct Around {
    pub caller: TaskId,
    pub locked: bool,
    pub first: Option<TaskId>,
    pub prio: Prio,
}

/// What a task waits for.
#[derive(Clone, Copy, Debug, PartialEq, Eq)]
pub enum Waiting {
    No,
    /// The end of a delay.
    Delay,
    /// An object, in this call.
    Obj(Service),
    /// Its own semaphore.
    TaskSem,
    /// Its own message queue.
    TaskQ,
    /// The first of several objects.
    Multi,
    /// A signal: the tick task and the timer task alone.
    Signal,
}

/// The result of a call that waited, or of an `OSPendMulti` that took something. Bit i of `ready` is
/// set exactly where entry i of the table was taken, `msgs` has that entry's message and size and else
/// 0 and 0, `table` is the table's address and `n_ids` its count; of every other service these are 0.
#[derive(Clone, Copy, Debug, PartialEq, Eq)]
pub struct Finished {
    pub service: Service,
    pub answer: Answer,
    pub ready: u8,
    pub msgs: [(u32, u32); 8],
    pub table: u32,
    pub n_ids: u8,
}

/// How a unit of work of the tick task or the timer task ended.
#[derive(Clone, Copy, Debug, PartialEq, Eq)]
pub enum UnitEnd {
    /// The tick counter was raised to this.
    Tick(u32),
    /// The timer count was raised to this.
    TmrTick(u32),
    /// This timer fired.
    Fire(ObjId),
    /// No timer was due any more.
    TmrEnd,
}

/// What a whole step came to: an answer, with the result of an `OSPendMulti` that took something; a
/// caller that waits; a caller that deleted itself; or the end of a unit of an internal task.
#[derive(Clone, Copy, Debug, PartialEq, Eq)]
pub enum Outcome {
    Answered(Answer, Option<Finished>),
    Waits,
    Gone,
    Quiet(UnitEnd),
}
