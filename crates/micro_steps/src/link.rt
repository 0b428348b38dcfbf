// The blocks of micro-steps as data.

use kern_base::{ObjId, Prio, TaskId};

/// A block of micro-steps: who joins or leaves which list. Tasks are below 64, nodes of waiters below 512, priorities and
/// objects below 64.
#[derive(Clone, Copy, Default)]
pub enum Link {
    /// The task leaves the ready list of this priority.
    Unready(TaskId, Prio),
    /// The task joins the ready list of this priority, at the tail or else at the head.
    Ready(TaskId, Prio, bool),
    /// The node joins the waiters of an object, behind those whose priority number is at most its own.
    Wait(u16, Prio, ObjId),
    /// The node leaves the waiters of an object.
    Leave(u16, ObjId),
    /// Nothing but a micro-step.
    #[default]
    Plain,
}

/// What the next micro-step of a block makes: a link of the forward chain or of the backward chain, or the mark of a priority.
#[derive(Clone, Copy)]
pub enum Stage {
    Forward,
    Back,
    Mark,
}

/// A block in hand: what its next micro-step makes; and of a wait how many waiters it passed, and the node that it reached.
#[derive(Clone, Copy)]
pub struct Cursor {
    pub link: Link,
    pub stage: Stage,
    pub passed: u16,
    pub place: u16,
}
