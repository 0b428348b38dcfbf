// The timer count, and the timers that run.

ghost use Rattle.std.specs.Prelude.{◌≡◌, ◌<◌, ◌+◌, ◌%◌, ◌^◌, ◌++◌, ◌∷◌, None, Some, [], true, MatchOption};
ghost use Rattle.kern_model.specs.Effect.{unmatched};
ghost use Rattle.kern_model.specs.Timers.{due_timer};
ghost use Rattle.tick_timers.specs.declared.timers.TimerState.TheVariants.{Running};
ghost use Rattle.tick_timers.specs.Matches.{pairs, with_remainder};
ghost use Rattle.tick_timers.specs.TimerCalls.{after_call, after_firing, is_timer_call, matches_after, matches_fired, matched_from, time_left, timer_decision};
ghost use Rattle.tick_timers.specs.TimerSeen.{state_seen, timer_seen};

use crate::wheels::Wheel;
use crate::{Match, Timer, TimerState};
use decisions::{refuse, success};
use kern_base::{Decision, ObjId, OsErr, Service};
use std::marker::Model;

/// The timer count, and the matches of the timers that run: the count at which each fires. The timers themselves are held by their
/// objects. Contracts see the count, and the matches in the order in which they were given.
#[derive(Drop)]
pub struct Timers {
    count: u32,
    wheel: Wheel,
}

impl Model for Timers {
    ghost use Rattle.tick_timers.specs.TimerRecord.{TimerRecord};

    ghost Value = { TimerRecord };

    ghost view = { λ a. record { count = a.count; matches = a.wheel } };
}

impl Timers {
    /// The count at 0, and no timer runs.
    pub fn new() -> Timers
        ensures { result ≡ record { count = 0; matches = [] } }
    {
        Timers {
            count: 0,
            wheel: Wheel::new(),
        }
    }

    /// The timer count.
    pub fn count(&self) -> u32
        ensures { result ≡ self.now.count }
    {
        self.count
    }

    // How much is left until this timer fires, or of a stopped timer what a start would add.
    fn time_left(&self, obj: ObjId, timer: &Timer) -> u32
        requires { obj.0 < 64 }
        ensures { result ≡ time_left (state_seen timer.now.state) (timer_seen timer.now) obj.0 self.now }
    {
        match timer.state {
            TimerState::Stopped => timer.start_delay(),
            TimerState::Running => self.wheel.count_at(obj.0).wrapping_sub(self.count),
            TimerState::Completed => 0,
        }
    }

    /// What a call on the timer of an object comes to: `OSTmrStart`, `OSTmrStop`, `OSTmrRemainGet`, `OSTmrStateGet` or `OSTmrDel`,
    /// whose checks have passed. Nothing changes yet.
    pub fn decide(&self, obj: ObjId, timer: &Timer, service: Service) -> Decision
        requires number { obj.0 < 64 }
        requires call { is_timer_call service ≡ true }
        ensures { result ≡ timer_decision service (timer_seen timer.now) obj.0 self.now }
    {
        match service {
            Service::TmrStart | Service::TmrDel => Decision::Done(success(0)),
            Service::TmrStop if timer.state == TimerState::Running => Decision::Done(success(0)),
            Service::TmrStop => refuse(OsErr::TimerStopped),
            Service::TmrRemainGet => Decision::Done(success(self.time_left(obj, timer))),
            Service::TmrStateGet => Decision::Done(success(timer.state.number())),
            _ => unreachable!(),
        }
    }

    /// The change of the timer of an object, and of its match, by a call on it that is not refused. That a timer is deleted is its
    /// object's.
    pub fn apply(&mut self, obj: ObjId, timer: &mut Timer, service: Service)
        requires { obj.0 < 64 }
        ensures timer { timer_seen timer.new ≡ after_call service (timer_seen timer.old) }
        ensures matches { self.new ≡ record self.old { matches = matches_after service (timer_seen timer.old) obj.0 self.old } }
    {
        match service {
            Service::TmrStart => {
                let after = timer.start_delay();
                self.run(obj, timer, after);
            }
            Service::TmrStop | Service::TmrDel => self.rest(obj, timer, TimerState::Stopped),
            _ => {}
        }
    }

    // A timer runs from now on, with the match after so many counts, as the last that got one.
    fn run(&mut self, obj: ObjId, timer: &mut Timer, after: u32)
        requires { obj.0 < 64 }
        ensures timer { timer.new ≡ record timer.old { state = Running } }
        ensures matches { self.new ≡ record self.old { matches = matched_from obj.0 after self.old } }
    {
        timer.state = TimerState::Running;
        self.wheel.remove(obj.0);
        self.wheel.add(obj.0, self.count.wrapping_add(after));
    }

    // A timer has this state and no match.
    fn rest(&mut self, obj: ObjId, timer: &mut Timer, state: TimerState)
        requires { obj.0 < 64 }
        ensures timer { timer.new ≡ record timer.old { state = state } }
        ensures matches { self.new ≡ record self.old { matches = unmatched obj.0 self.old.matches } }
    {
        timer.state = state;
        self.wheel.remove(obj.0);
    }

    /// The timer count goes on by one, modulo 2^32.
    pub fn count_up(&mut self) -> u32
        ensures count { result ≡ (self.old.count + 1) % 2 ^ 32 }
        ensures timers { self.new ≡ record self.old { count = result } }
    {
        self.count = self.count.wrapping_add(1);
        self.count
    }

    /// The timer that fires next: the one that got its match first among those that are due now. None exactly where none is due.
    pub fn first_due(&self) -> Option<ObjId>
        ensures { MatchOption result
            (due_timer self.now.count self.now.matches ≡ None)
            (λ obj. (obj.0 < 64) × (due_timer self.now.count self.now.matches ≡ Some obj.0)) }
    {
        let number = self.wheel.first_due(self.count)?;
        Some(ObjId(number))
    }

    /// The timer of an object fires: a one-shot timer is completed, a periodic one gets its next match.
    pub fn fire(&mut self, obj: ObjId, timer: &mut Timer)
        requires { obj.0 < 64 }
        ensures timer { timer_seen timer.new ≡ after_firing (timer_seen timer.old) }
        ensures matches { self.new ≡ record self.old { matches = matches_fired (timer_seen timer.old) obj.0 self.old } }
    {
        if timer.periodic {
            self.run(obj, timer, timer.period);
        } else {
            self.rest(obj, timer, TimerState::Completed);
        }
    }

    /// The matches of running timers whose count has this remainder modulo 64, as they are kept. The
    /// numbers are those of objects.
    pub fn slot(&self, r: u8) -> &[Match]
        requires { r < 64 }
        ensures { pairs result.now ≡ with_remainder r self.now.matches }
    {
        self.wheel.slot(r)
    }
}
