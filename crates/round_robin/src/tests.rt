// Turns of ready tasks, at ticks and by yields.

use crate::{Front, Turn, decide_tick, decide_yield, front_of};
use kern_base::{Decision, OsErr, Prio, TaskId};
use links::IndexLinks;
use ready_list::ReadyList;
use std::test::Fail;

const A: TaskId = TaskId(5);

const B: TaskId = TaskId(9);

const IDLE: TaskId = TaskId(62);

#[test]
fn fronts_are_read(rt: HostRuntime) -> Result<(), Fail> {
    let prio = Prio(10);
    let mut ready = ReadyList::new(IndexLinks::new(rt.alloc(), 128)?);
    let none = front_of(&ready, prio);
    ready.insert(A, prio, prio);
    let one = front_of(&ready, prio);
    ready.insert(B, prio, prio);
    let two = front_of(&ready, prio);
    for (front, first, second) in [
        (none, None, None),
        (one, Some(A), None),
        (two, Some(A), Some(B)),
        (none.joined(A, true), Some(A), None),
        (one.joined(B, true), Some(A), Some(B)),
        (one.joined(B, false), Some(B), Some(A)),
        (two.joined(TaskId(7), true), Some(A), Some(B)),
        (two.joined(TaskId(7), false), Some(TaskId(7)), Some(A)),
    ] {
        assert_eq!(rt; (front.first, front.second), (first, second));
    }
    Ok(())
}

#[test]
fn tasks_take_turns(rt: HostRuntime) -> Result<(), Fail> {
    for (first, second, quantum, locked, on, turn) in [
        (None, None, 1, false, true, Turn::Stays),
        (Some(A), None, 0, false, true, Turn::Spends(A)),
        (Some(A), Some(B), 3, false, true, Turn::Spends(A)),
        (Some(A), Some(B), 1, false, true, Turn::Rotates(A, B)),
        (Some(A), Some(B), 0, false, true, Turn::Rotates(A, B)),
        (Some(A), Some(B), 1, true, true, Turn::Stays),
        (Some(A), Some(B), 1, false, false, Turn::Stays),
        (Some(IDLE), None, 5, false, true, Turn::Stays),
    ] {
        let front = Front { first, second };
        assert_eq!(rt; decide_tick(&front, quantum, locked, on), turn);
    }
    Ok(())
}

#[test]
fn yields_are_answered(rt: HostRuntime) -> Result<(), Fail> {
    for (second, locked, on, err) in [
        (None, true, false, OsErr::SchedLocked),
        (None, false, false, OsErr::RoundRobinDisabled),
        (None, false, true, OsErr::RoundRobinAlone),
        (Some(B), false, true, OsErr::NoError),
    ] {
        let decision = decide_yield(second, locked, on);
        assert!(rt;
            match decision {
                Decision::Done(answer) => answer.err == err && answer.value == 0,
                _ => false,
            }
        );
    }
    Ok(())
}
