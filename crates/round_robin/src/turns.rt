// What round robin comes to. Nothing changes yet.

ghost use Rattle.std.specs.Prelude.{◌≡◌, ◌<◌, ℕ, List, IfSome, Some, insert, slice_get};
ghost use Rattle.links.specs.Chain.{list_at as chain_at};
ghost use Rattle.micro_steps.specs.Blocks.{place_at};
ghost use Rattle.round_robin.specs.Turns.{RoundRobinIsTurn, front, second_task, turn_of, yield_decision};

use decisions::{refuse, success};
use kern_base::{Decision, OsErr, Prio, TaskId};
use links::Links;
use ready_list::ReadyList;

/// What round robin sees of a ready list: its first two tasks, None where there is none.
#[derive(Clone, Copy, Debug, PartialEq, Eq)]
pub struct Front {
    pub first: Option<TaskId>,
    pub second: Option<TaskId>,
}

/// What a tick comes to for the ready tasks of one priority.
#[derive(Clone, Copy, Debug, PartialEq, Eq)]
pub enum Turn {
    /// Nothing changes.
    Stays,
    /// The quantum of this task, the first, falls by one unless it is 0.
    Spends(TaskId),
    /// The same, and then this task goes to the tail, and the second one, the new first, has its full quantum.
    Rotates(TaskId, TaskId),
}

// The number of the idle task.
const IDLE: u8 = 62;

/// The front of a priority's list.
pub fn front_of<L: Links>(ready: &ReadyList<L>, prio: Prio) -> Front
    requires number { prio.0 < 64 }
    ensures front { result ≡ front (chain_at ready.now.forward prio.0) }
    ensures low { IfSome result.first (λ task. task.0 < 64) × IfSome result.second (λ task. task.0 < 64) }
{
    let first = ready.head(prio);
    let second = match first {
        Some(task) => behind(ready, prio, task),
        None => None,
    };
    Front { first, second }
}

// The task behind the first one of a priority's list.
fn behind<L: Links>(ready: &ReadyList<L>, prio: Prio, task: TaskId) -> Option<TaskId>
    requires numbers { (task.0 < 64) × (prio.0 < 64) }
    requires first { slice_get (chain_at ready.now.forward prio.0) 0 ≡ Some task.0 }
    ensures second { result ≡ second_task (chain_at ready.now.forward prio.0) }
    ensures low { IfSome result (λ task. task.0 < 64) }
{
    ready.consistent();
    let node = ready.successor(task.0 as u16);
    if node < 64 {
        Some(TaskId(node as u8))
    } else {
        None
    }
}

impl Front {
    /// The front once a task joined the list, at the tail or else at the head.
    pub fn joined(&self, task: TaskId, tail: bool) -> Front
        ensures { (xs : List ℕ) → self.now ≡ front xs → result ≡ front (insert xs (place_at tail xs) task.0) }
    {
        if !tail {
            return Front {
                first: Some(task),
                second: self.first,
            };
        }
        match (self.first, self.second) {
            (None, _) => Front {
                first: Some(task),
                second: None,
            },
            (first, None) => Front {
                first,
                second: Some(task),
            },
            _ => *self,
        }
    }
}

/// What a tick comes to at this front, where the first task has this quantum, the scheduler is locked or not, and round robin is on
/// or not.
pub fn decide_tick(front: &Front, quantum: u32, locked: bool, on: bool) -> Turn
    ensures { result ≡ turn_of front.now quantum locked on }
{
    let Some(task) = front.first else {
        return Turn::Stays;
    };
    if !on || locked || task.0 == IDLE {
        return Turn::Stays;
    }
    match front.second {
        Some(next) if quantum <= 1 => Turn::Rotates(task, next),
        _ => Turn::Spends(task),
    }
}

/// What `OSSchedRoundRobinYield` comes to, whose checks have passed: of its caller, behind which this task stands in the ready list.
pub fn decide_yield(second: Option<TaskId>, locked: bool, on: bool) -> Decision
    ensures { result ≡ yield_decision second locked on }
{
    if locked {
        refuse(OsErr::SchedLocked)
    } else if !on {
        refuse(OsErr::RoundRobinDisabled)
    } else if second.is_none() {
        refuse(OsErr::RoundRobinAlone)
    } else {
        Decision::Done(success(0))
    }
}

/// Round robin at a tick is the turn at the front of the ready list that it looks at: a law, which does nothing.
pub fn round_robin_is_a_turn()
    ensures { RoundRobinIsTurn }
{}
