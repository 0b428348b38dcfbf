// Rows of the services of mutexes, and inherited priorities.

ghost use Rattle.std.specs.Prelude.{◌≡◌};
ghost use Rattle.mutex_inherit.specs.Rows.{IsMutexCall, IsNested};

use crate::{Mutex, inherited};
use kern_base::{Answer, Around, Decision, OsErr, Prio, Request, Service, TaskId, Who};
use std::process::Abort;

const CALLER: TaskId = TaskId(3);

const OTHER: TaskId = TaskId(9);

const FREE: Mutex = Mutex {
    owner: None,
    nesting: 0,
};

fn request(service: Service, args: [u32; 4]) -> Request
    ensures { result.service ≡ service }
{
    Request {
        service,
        args,
        ids: [0; 8],
        n_ids: 0,
        table: false,
    }
}

fn pend(option: u32) -> Request
    ensures { IsMutexCall result }
{
    request(Service::MutexPend, [4, 100, option, 0])
}

fn post() -> Request
    ensures { IsMutexCall result }
{
    request(Service::MutexPost, [4, 0, 0, 0])
}

fn abort(option: u32) -> Request
    ensures { IsMutexCall result }
{
    request(Service::MutexPendAbort, [4, option, 0, 0])
}

fn delete(option: u32) -> Request
    ensures { IsMutexCall result }
{
    request(Service::MutexDel, [4, option, 0, 0])
}

fn around(waits: bool, locked: bool) -> Around {
    Around {
        caller: CALLER,
        locked,
        first: waits.then_some(TaskId(20)),
        prio: Prio(7),
    }
}

fn answered(err: OsErr, value: u32) -> Decision {
    Decision::Done(Answer {
        err,
        value,
        extra: 0,
    })
}

fn held(owner: TaskId, nesting: u8) -> Mutex
    ensures { result ≡ record { owner = Some owner; nesting = nesting } }
{
    Mutex {
        owner: Some(owner),
        nesting,
    }
}

// A call on this mutex comes to this decision and leaves this mutex.
fn check_row(
    rt: &impl Abort,
    before: Mutex,
    request: Request,
    seen: Around,
    decision: Decision,
    after: Mutex,
)
    requires call { IsMutexCall request }
    requires nested { IsNested before }
{
    let mut mutex = before;
    let decided = mutex.decide(&request, &seen);
    assert_eq!(rt; decided, decision);
    mutex.apply(&request, &seen, &decided);
    assert_eq!(rt; mutex, after);
}

#[test]
fn waits_and_releases(rt: HostRuntime) {
    let (alone, waited) = (around(false, false), around(true, false));
    let (mine, deep) = (held(CALLER, 1), held(CALLER, 250));
    let other = held(OTHER, 2);
    let locked = around(true, true);
    check_row(
        &rt,
        FREE,
        pend(0),
        around(false, true),
        answered(OsErr::NoError, 1),
        mine,
    );
    check_row(
        &rt,
        mine,
        pend(0),
        waited,
        answered(OsErr::MutexOwner, 2),
        held(CALLER, 2),
    );
    check_row(
        &rt,
        held(CALLER, 249),
        pend(1),
        alone,
        answered(OsErr::MutexOwner, 250),
        deep,
    );
    check_row(&rt, deep, pend(0), alone, answered(OsErr::Depth, 0), deep);
    check_row(&rt, other, pend(0), alone, Decision::Block, other);
    check_row(
        &rt,
        other,
        pend(0),
        locked,
        answered(OsErr::SchedLocked, 0),
        other,
    );
    check_row(
        &rt,
        other,
        pend(1),
        locked,
        answered(OsErr::WouldBlock, 0),
        other,
    );
    check_row(
        &rt,
        FREE,
        post(),
        alone,
        answered(OsErr::MutexNotOwner, 0),
        FREE,
    );
    check_row(
        &rt,
        other,
        post(),
        waited,
        answered(OsErr::MutexNotOwner, 0),
        other,
    );
    check_row(
        &rt,
        deep,
        post(),
        waited,
        answered(OsErr::MutexNesting, 249),
        held(CALLER, 249),
    );
    check_row(
        &rt,
        mine,
        post(),
        waited,
        Decision::Wake(Who::First),
        held(TaskId(20), 1),
    );
    check_row(&rt, mine, post(), alone, Decision::Wake(Who::First), FREE);
}

#[test]
fn aborts_and_deletions(rt: HostRuntime) {
    let (alone, waited) = (around(false, false), around(true, false));
    let other = held(OTHER, 2);
    check_row(
        &rt,
        other,
        abort(0),
        waited,
        Decision::Wake(Who::First),
        other,
    );
    check_row(
        &rt,
        other,
        abort(1),
        waited,
        Decision::Wake(Who::All),
        other,
    );
    check_row(
        &rt,
        other,
        abort(0),
        alone,
        answered(OsErr::PendAbortNone, 0),
        other,
    );
    check_row(
        &rt,
        other,
        delete(0),
        waited,
        answered(OsErr::TaskWaiting, 0),
        other,
    );
    check_row(
        &rt,
        other,
        delete(1),
        waited,
        Decision::Wake(Who::All),
        other,
    );
    check_row(&rt, FREE, delete(0), alone, Decision::Wake(Who::All), FREE);
}

// Base priorities of tasks 0 up, for whom each waits, and the priorities that they then have.
#[test]
fn priorities_are_inherited_through_chains(rt: HostRuntime) {
    let nobody = 64;
    for (bases, owners, prios) in [
        // Nobody waits.
        ([5, 9, 20, 30], [nobody; 4], [5, 9, 20, 30]),
        // A chain through two mutexes.
        ([5, 9, 20, 30], [1, 2, nobody, nobody], [5, 5, 5, 30]),
        // Two waiters of one owner, and a chain that lowers nobody.
        ([30, 9, 20, 7], [nobody, 0, 0, nobody], [9, 9, 20, 7]),
        ([5, 2, 40, 30], [1, 2, nobody, nobody], [5, 2, 2, 30]),
        // A cycle of three, and a task that waits for one of them.
        ([8, 6, 7, 3], [1, 2, 0, 1], [3, 3, 3, 3]),
    ] {
        let mut base = [Prio(63); 64];
        let mut waits_for = [None; 64];
        for task in 0..4 {
            base[task] = Prio(bases[task]);
            waits_for[task] = Some(TaskId(owners[task]));
        }
        let found = inherited(&base, &waits_for);
        for task in 0..4 {
            assert_eq!(rt; found[task], Prio(prios[task]));
        }
    }
}

#[test]
fn a_chain_of_all_application_tasks(rt: HostRuntime) {
    let mut bases = [Prio(63); 64];
    let mut waits_for = [None; 64];
    for task in 0..59u8 {
        bases[task as usize] = Prio(1 + task);
        waits_for[task as usize] = Some(TaskId(task + 1));
    }
    let prios = inherited(&bases, &waits_for);
    for task in 0..60 {
        assert_eq!(rt; prios[task], Prio(1));
    }
    assert_eq!(rt; prios[60], Prio(63));
}
