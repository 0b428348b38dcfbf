// The tick counter, and the tasks that wait for a tick.

ghost use Rattle.std.specs.Prelude.{◌≡◌, ◌<◌, ◌+◌, ◌%◌, ◌^◌, [], ◌∷◌, ◌++◌};
ghost use Rattle.kern_model.specs.Effect.{unmatched};
ghost use Rattle.kern_model.specs.Time.{delay_of, due};
ghost use Rattle.tick_timers.specs.Delays.{delay_decision, is_delayed, resume_decision};
ghost use Rattle.tick_timers.specs.Matches.{pairs, with_remainder, IsUnmatched};

use crate::Match;
use crate::wheels::Wheel;
use arrayvec::ArrayVec;
use decisions::refuse;
use kern_base::{Decision, OsErr, Request, TaskId, Waiting, Who};
use std::marker::Model;

/// Whether a task that waits so is in a delay.
pub fn is_delayed(waiting: Waiting) -> bool
    ensures { result ≡ is_delayed waiting }
{
    matches!(waiting, Waiting::Delay)
}

/// What `OSTimeDlyResume` comes to, whose checks have passed, of a task that is in a delay or not: the delay ends, or the call
/// is refused.
pub fn decide_resume(delayed: bool) -> Decision
    ensures { result ≡ resume_decision delayed }
{
    if delayed {
        Decision::Wake(Who::First)
    } else {
        refuse(OsErr::TaskNotDelayed)
    }
}

/// The tick counter, and the tasks that have a match: the tick at which a delay ends or a wait times out.
/// Contracts see the counter, and the matches in the order in which they were given.
#[derive(Drop)]
pub struct Ticks {
    ticks: u32,
    wheel: Wheel,
}

impl Model for Ticks {
    ghost use Rattle.tick_timers.specs.TickRecord.{TickRecord};

    ghost Value = { TickRecord };

    ghost view = { λ a. record { ticks = a.ticks; matches = a.wheel } };
}

impl Ticks {
    /// The counter at 0, and no match.
    pub fn new() -> Ticks
        ensures { result ≡ record { ticks = 0; matches = [] } }
    {
        Ticks {
            ticks: 0,
            wheel: Wheel::new(),
        }
    }

    /// The tick counter.
    pub fn now(&self) -> u32
        ensures { result ≡ self.now.ticks }
    {
        self.ticks
    }

    /// The ticks of the delay that a call of `OSTimeDly` asks for: so many, or with option 1 those that are left until the
    /// counter has this value, modulo 2^32.
    pub fn delay(&self, request: &Request) -> u32
        ensures { result ≡ delay_of request.now self.now.ticks }
    {
        let time = request.args[0];
        if request.args[1] == 1 {
            time.wrapping_sub(self.ticks)
        } else {
            time
        }
    }

    /// What `OSTimeDly` comes to, whose checks have passed: the caller waits for these ticks, at least one, or the call is
    /// refused.
    pub fn decide_delay(&self, request: &Request, locked: bool) -> Decision
        ensures { result ≡ delay_decision locked (delay_of request.now self.now.ticks) }
    {
        if locked {
            return refuse(OsErr::SchedLocked);
        }
        if self.delay(request) == 0 {
            return refuse(OsErr::ZeroDelay);
        }
        Decision::Block
    }

    /// A task that has no match gets this one, as the last.
    pub fn add(&mut self, task: TaskId, at: u32)
        requires number { task.0 < 64 }
        requires fresh { IsUnmatched task.0 self.old.matches }
        ensures { self.new ≡ record { ticks = self.old.ticks; matches = self.old.matches ++ (task.0, at) ∷ [] } }
    {
        self.wheel.add(task.0, at);
    }

    /// A task has no match any more. Nothing changes where it had none.
    pub fn remove(&mut self, task: TaskId)
        requires { task.0 < 64 }
        ensures { self.new ≡ record { ticks = self.old.ticks; matches = unmatched task.0 self.old.matches } }
    {
        self.wheel.remove(task.0);
    }

    /// The counter goes on by one tick, modulo 2^32.
    pub fn tick(&mut self)
        ensures { self.new ≡ record { ticks = (self.old.ticks + 1) % 2 ^ 32; matches = self.old.matches } }
    {
        self.ticks = self.ticks.wrapping_add(1);
    }

    /// The tasks whose match is the next tick, in the order in which they got it.
    pub fn due_next(&self, tasks: &mut ArrayVec<u8, 64>)
        requires { tasks.old.items ≡ [] }
        ensures { tasks.new.items ≡ due ((self.now.ticks + 1) % 2 ^ 32) self.now.matches }
    {
        self.wheel.due(self.ticks.wrapping_add(1), tasks);
    }

    /// The matches whose tick has this remainder modulo 64, as they are kept. The numbers are those of tasks.
    pub fn slot(&self, r: u8) -> &[Match]
        requires { r < 64 }
        ensures { pairs result.now ≡ with_remainder r self.now.matches }
    {
        self.wheel.slot(r)
    }
}
