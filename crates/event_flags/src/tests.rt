// Rows of the services of event flag groups.

ghost use Rattle.std.specs.Prelude.{◌≡◌};
ghost use Rattle.event_flags.specs.Rows.{IsFlagCall};

use crate::FlagGroup;
use kern_base::{Answer, Around, Decision, OsErr, Prio, Request, Service, TaskId, Who};
use std::process::Abort;

fn request(service: Service, args: [u32; 4]) -> Request
    ensures { result.service ≡ service }
{
    Request {
        service,
        args,
        ids: [0; 8],
        n_ids: 0,
        table: false,
    }
}

fn post(bits: u32, option: u32) -> Request
    ensures { IsFlagCall result }
{
    request(Service::FlagPost, [4, bits, option, 0])
}

fn pend(mask: u32, option: u32) -> Request
    ensures { IsFlagCall result }
{
    request(Service::FlagPend, [4, mask, 100, option])
}

fn abort(option: u32) -> Request
    ensures { IsFlagCall result }
{
    request(Service::FlagPendAbort, [4, option, 0, 0])
}

fn delete(option: u32) -> Request
    ensures { IsFlagCall result }
{
    request(Service::FlagDel, [4, option, 0, 0])
}

fn around(waits: bool, locked: bool) -> Around {
    Around {
        caller: TaskId(3),
        locked,
        first: waits.then_some(TaskId(9)),
        prio: Prio(7),
    }
}

fn answered(err: OsErr, value: u32) -> Decision {
    Decision::Done(Answer {
        err,
        value,
        extra: 0,
    })
}

// A call at these bits comes to this decision and leaves these bits.
fn check_row(
    rt: &impl Abort,
    bits: u32,
    request: Request,
    seen: Around,
    decision: Decision,
    after: u32,
)
    requires { IsFlagCall request }
{
    let mut group = FlagGroup { bits };
    let decided = group.decide(&request, &seen);
    assert_eq!(rt; decided, decision);
    group.apply(&request, &seen, &decided);
    assert_eq!(rt; group.bits, after);
}

#[test]
fn posts_set_and_clear(rt: HostRuntime) {
    let waited = around(true, false);
    check_row(
        &rt,
        0x11,
        post(0x06, 0),
        waited,
        Decision::Wake(Who::Matching),
        0x17,
    );
    check_row(
        &rt,
        0x17,
        post(0x06, 1),
        waited,
        Decision::Wake(Who::Matching),
        0x11,
    );
    check_row(
        &rt,
        0x11,
        post(0xFFFF_FFFF, 1),
        around(false, true),
        Decision::Wake(Who::Matching),
        0,
    );
}

#[test]
fn waits_consume_what_they_are_ready_with(rt: HostRuntime) {
    let (alone, locked) = (around(false, false), around(false, true));
    check_row(
        &rt,
        0x17,
        pend(0x03, 0),
        alone,
        answered(OsErr::NoError, 0x03),
        0x17,
    );
    check_row(
        &rt,
        0x17,
        pend(0x03, 4),
        locked,
        answered(OsErr::NoError, 0x03),
        0x14,
    );
    check_row(&rt, 0x17, pend(0x09, 0), alone, Decision::Block, 0x17);
    check_row(
        &rt,
        0x17,
        pend(0x09, 5),
        alone,
        answered(OsErr::NoError, 0x01),
        0x16,
    );
    check_row(
        &rt,
        0x17,
        pend(0x68, 6),
        alone,
        answered(OsErr::NoError, 0x68),
        0x7F,
    );
    check_row(
        &rt,
        0x17,
        pend(0x09, 7),
        alone,
        answered(OsErr::NoError, 0x08),
        0x1F,
    );
    check_row(
        &rt,
        0x17,
        pend(0x07, 15),
        locked,
        answered(OsErr::WouldBlock, 0),
        0x17,
    );
    check_row(
        &rt,
        0x17,
        pend(0x07, 7),
        locked,
        answered(OsErr::SchedLocked, 0),
        0x17,
    );
}

#[test]
fn aborts_and_deletions(rt: HostRuntime) {
    let (alone, waited) = (around(false, false), around(true, false));
    check_row(&rt, 5, abort(0), waited, Decision::Wake(Who::First), 5);
    check_row(&rt, 5, abort(1), waited, Decision::Wake(Who::All), 5);
    check_row(
        &rt,
        5,
        abort(0),
        alone,
        answered(OsErr::PendAbortNone, 0),
        5,
    );
    check_row(
        &rt,
        5,
        delete(0),
        waited,
        answered(OsErr::TaskWaiting, 0),
        5,
    );
    check_row(&rt, 5, delete(1), waited, Decision::Wake(Who::All), 5);
}

#[test]
fn conditions_of_waits(rt: HostRuntime) {
    for (bits, mask, option, ready) in [
        (0b1010, 0b1000, 0, Some(0b1000)),
        (0b1010, 0b1100, 0, None),
        (0b1010, 0b1100, 1, Some(0b1000)),
        (0b1010, 0b0101, 1, None),
        (0b1010, 0b0101, 2, Some(0b0101)),
        (0b1010, 0b0110, 2, None),
        (0b1010, 0b0110, 3, Some(0b0100)),
        (0b1010, 0b1010, 3, None),
        (0b1010, 0, 0, Some(0)),
        (0b1010, 0, 1, None),
    ] {
        assert_eq!(rt; FlagGroup::ready_bits(bits, mask, option), ready);
    }
}
