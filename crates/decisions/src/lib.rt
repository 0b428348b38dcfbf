//! What calls on kernel objects share: the decisions that are the same for every kind of object, and
//! what a decision comes to. An object decides a call from what it holds and what is seen around it, and
//! then changes itself; the kernel makes the rest: it wakes tasks, or lets the caller wait.
#![tactic(auto)]

ghost use Rattle.std.specs.Prelude.{◌≡◌, slice_index};
ghost use Rattle.decisions.specs.Rows.{refusal, wait_decision, abort_decision, delete_decision};
ghost use Rattle.decisions.specs.Decided.{ended_delay, ending_of, handed, reply};
ghost use Rattle.kern_model.specs.Effect.{answer, fine, message};

use kern_base::{Answer, Around, Decision, OsErr, Request, Service, Who};

/// An answer without an error, with this value.
pub fn success(value: u32) -> Answer
    ensures { result ≡ fine value }
{
    Answer {
        err: OsErr::NoError,
        value,
        extra: 0,
    }
}

/// An answer with this error and the value 0.
pub fn failure(err: OsErr) -> Answer
    ensures { result ≡ answer err 0 }
{
    Answer {
        err,
        value: 0,
        extra: 0,
    }
}

/// A call that is refused: it changes nothing.
pub fn refuse(err: OsErr) -> Decision
    ensures { result ≡ refusal err }
{
    Decision::Done(failure(err))
}

/// A call that can not go on at once: it is refused where it does not block or the scheduler is locked,
/// and else the caller waits.
pub fn wait_unless(non_blocking: bool, locked: bool) -> Decision
    ensures { result ≡ wait_decision non_blocking locked }
{
    if non_blocking {
        refuse(OsErr::WouldBlock)
    } else if locked {
        refuse(OsErr::SchedLocked)
    } else {
        Decision::Block
    }
}

/// `OSSemPendAbort`, `OSQPendAbort`, `OSFlagPendAbort` and `OSMutexPendAbort`: the first waiter, or with
/// option 1 all, wait no more.
pub fn abort(request: &Request, seen: &Around) -> Decision
    ensures { result ≡ abort_decision (slice_index request.now.args 1) seen.now.first }
{
    match seen.first {
        None => refuse(OsErr::PendAbortNone),
        Some(_) if request.args[1] == 1 => Decision::Wake(Who::All),
        Some(_) => Decision::Wake(Who::First),
    }
}

/// `OSSemDel`, `OSQDel`, `OSFlagDel` and `OSMutexDel`: all waiters are woken, and the object is deleted.
/// With option 0 an object for which somebody waits stays.
pub fn delete(request: &Request, seen: &Around) -> Decision
    ensures { result ≡ delete_decision (slice_index request.now.args 1) seen.now.first }
{
    match seen.first {
        Some(_) if request.args[1] != 1 => refuse(OsErr::TaskWaiting),
        _ => Decision::Wake(Who::All),
    }
}

/// The answer that each task gets which this call wakes; not for those that wait for event flags.
pub fn handed(request: &Request) -> Answer
    ensures { result ≡ handed (ending_of request.now.service) request.now.service request.now }
{
    match request.service {
        Service::SemPendAbort
        | Service::QPendAbort
        | Service::FlagPendAbort
        | Service::MutexPendAbort
        | Service::TaskSemPendAbort
        | Service::TaskQPendAbort => failure(OsErr::PendAbort),
        Service::SemDel | Service::QDel | Service::FlagDel | Service::MutexDel => failure(
            OsErr::ObjectDeleted,
        ),
        Service::QPost | Service::TaskQPost => Answer {
            err: OsErr::NoError,
            value: request.args[1],
            extra: request.args[2],
        },
        Service::MutexPost => success(1),
        _ => success(0),
    }
}

/// The answer of the call that ended the delay of a task, which is suspended so often: where it is, it is not ready yet.
pub fn ended_delay(suspended: u8) -> Answer
    ensures { result ≡ ended_delay suspended }
{
    if suspended == 0 {
        success(0)
    } else {
        failure(OsErr::TaskSuspended)
    }
}

/// The answer of a call that woke so many tasks; not that of a post of event flags, nor of one that ended a delay.
pub fn reply(service: Service, woken: u32) -> Answer
    ensures { result ≡ reply (ending_of service) woken }
{
    match service {
        Service::SemPendAbort
        | Service::QPendAbort
        | Service::FlagPendAbort
        | Service::MutexPendAbort
        | Service::TaskSemPendAbort
        | Service::TaskQPendAbort
        | Service::SemDel
        | Service::QDel
        | Service::FlagDel
        | Service::MutexDel => success(woken),
        _ => success(0),
    }
}

#[cfg(test)]
mod tests;
