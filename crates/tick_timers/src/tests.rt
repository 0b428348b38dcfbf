// The lists of the wheels, and timers that are started, stopped and fire.

ghost use Rattle.std.specs.Prelude.{◌≡◌, ◌<◌, true};
ghost use Rattle.tick_timers.specs.TimerCalls.{is_timer_call};

use crate::{Match, Ticks, Timer, Timers, decide_resume, is_delayed};
use arrayvec::ArrayVec;
use decisions::refuse;
use kern_base::{Decision, ObjId, OsErr, Request, Service, TaskId, Waiting, Who};
use std::process::Abort;

// Goes on to a tick, whose tasks are these, and which have no match then.
fn fires_at(rt: &impl Abort, ticks: &mut Ticks, tasks: &[u8]) {
    let mut due = ArrayVec::new();
    ticks.due_next(&mut due);
    assert_eq!(rt; due.as_slice(), tasks);
    ticks.tick();
    for task in tasks {
        if *task < 64 {
            ticks.remove(TaskId(*task));
        }
    }
}

#[test]
fn matches_of_one_remainder_share_a_list(rt: HostRuntime) {
    let mut ticks = Ticks::new();
    ticks.add(TaskId(7), 5);
    ticks.add(TaskId(3), 69);
    ticks.add(TaskId(1), 5);
    assert_eq!(rt;
        ticks.slot(5),
        [
            Match { number: 7, at: 5 },
            Match { number: 3, at: 69 },
            Match { number: 1, at: 5 },
        ]
        .as_slice()
    );
    for _ in 0..4 {
        fires_at(&rt, &mut ticks, &[]);
    }
    fires_at(&rt, &mut ticks, &[7, 1]);
    for _ in 6..69 {
        fires_at(&rt, &mut ticks, &[]);
    }
    fires_at(&rt, &mut ticks, &[3]);
    assert_eq!(rt; ticks.now(), 69);
}

#[test]
fn a_match_behind_the_counter_waits_for_the_next_round(rt: HostRuntime) {
    let mut ticks = Ticks::new();
    for _ in 0..10 {
        ticks.tick();
    }
    let at = ticks.now().wrapping_add(4_294_967_295);
    assert_eq!(rt; at, 9);
    ticks.add(TaskId(0), at);
    for _ in 11..=200 {
        fires_at(&rt, &mut ticks, &[]);
    }
    ticks.remove(TaskId(0));
    assert_eq!(rt; ticks.slot(9), [].as_slice());
}

#[test]
fn delays_are_decided(rt: HostRuntime) {
    let mut ticks = Ticks::new();
    ticks.tick();
    for (time, option, locked, delay, decision) in [
        (5, 0, false, 5, Decision::Block),
        (5, 1, false, 4, Decision::Block),
        (0, 1, false, 4_294_967_295, Decision::Block),
        (0, 0, false, 0, refuse(OsErr::ZeroDelay)),
        (1, 1, false, 0, refuse(OsErr::ZeroDelay)),
        (0, 0, true, 0, refuse(OsErr::SchedLocked)),
    ] {
        let request = Request {
            service: Service::TimeDly,
            args: [time, option, 0, 0],
            ids: [0; 8],
            n_ids: 0,
            table: false,
        };
        assert_eq!(rt; ticks.delay(&request), delay);
        assert_eq!(rt; ticks.decide_delay(&request, locked), decision);
    }
    for (waiting, decision) in [
        (Waiting::Delay, Decision::Wake(Who::First)),
        (Waiting::TaskSem, refuse(OsErr::TaskNotDelayed)),
    ] {
        assert_eq!(rt; decide_resume(is_delayed(waiting)), decision);
    }
}

// What a call on the timer of this object comes to, made at once where it succeeds: its error and its value.
fn call(timers: &mut Timers, obj: u8, timer: &mut Timer, service: Service) -> Option<(OsErr, u32)>
    requires number { obj < 64 }
    requires call { is_timer_call service ≡ true }
{
    let Decision::Done(answer) = timers.decide(ObjId(obj), timer, service) else {
        return None;
    };
    if answer.err == OsErr::NoError {
        timers.apply(ObjId(obj), timer, service);
    }
    Some((answer.err, answer.value))
}

fn fine(value: u32) -> Option<(OsErr, u32)> {
    Some((OsErr::NoError, value))
}

// A one-shot timer of 2 counts, and a periodic timer of 3 and then 4 counts with a callback at 0.
#[test]
fn timers_run_and_fire(rt: HostRuntime) {
    let mut once = Timer::declared(false, &[2, 0, 0xFFFF_FFFF, 0]);
    let mut again = Timer::declared(true, &[3, 4, 0, 55]);
    let mut timers = Timers::new();
    assert_eq!(rt; (once.callback, again.callback), (None, Some(0)));
    assert_eq!(rt;
        call(&mut timers, 0, &mut once, Service::TmrStop),
        Some((OsErr::TimerStopped, 0))
    );
    assert_eq!(rt;
        call(&mut timers, 0, &mut once, Service::TmrRemainGet),
        fine(2)
    );
    assert_eq!(rt;
        call(&mut timers, 0, &mut once, Service::TmrStateGet),
        fine(1)
    );
    assert_eq!(rt;
        call(&mut timers, 1, &mut again, Service::TmrStart),
        fine(0)
    );
    assert_eq!(rt; call(&mut timers, 0, &mut once, Service::TmrStart), fine(0));
    assert_eq!(rt;
        call(&mut timers, 0, &mut once, Service::TmrStateGet),
        fine(2)
    );
    assert_eq!(rt;
        call(&mut timers, 1, &mut again, Service::TmrRemainGet),
        fine(3)
    );
    assert_eq!(rt; (timers.count_up(), timers.first_due()), (1, None));
    assert_eq!(rt;
        (timers.count_up(), timers.first_due()),
        (2, Some(ObjId(0)))
    );
    timers.fire(ObjId(0), &mut once);
    assert_eq!(rt; timers.first_due(), None);
    assert_eq!(rt;
        call(&mut timers, 0, &mut once, Service::TmrStateGet),
        fine(3)
    );
    assert_eq!(rt;
        call(&mut timers, 0, &mut once, Service::TmrRemainGet),
        fine(0)
    );
    assert_eq!(rt;
        (timers.count_up(), timers.first_due()),
        (3, Some(ObjId(1)))
    );
    timers.fire(ObjId(1), &mut again);
    assert_eq!(rt; timers.slot(7), [Match { number: 1, at: 7 }].as_slice());
    assert_eq!(rt;
        call(&mut timers, 1, &mut again, Service::TmrRemainGet),
        fine(4)
    );
    assert_eq!(rt; call(&mut timers, 1, &mut again, Service::TmrDel), fine(0));
    assert_eq!(rt;
        call(&mut timers, 1, &mut again, Service::TmrStateGet),
        fine(1)
    );
    assert_eq!(rt; timers.slot(7), [].as_slice());
}
