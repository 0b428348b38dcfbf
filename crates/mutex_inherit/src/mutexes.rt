// A mutual exclusion semaphore.

ghost use Rattle.std.specs.Prelude.{◌≡◌, ◌<◌};
ghost use Rattle.kern_model.specs.Effect.{answer};
ghost use Rattle.decisions.specs.Decided.{IsDecided};
ghost use Rattle.mutex_inherit.specs.Rows.{IsMutexCall, IsNested, content_of, decision_of, pend_decision, post_decision, mutex_after, after_pend, after_post, passed_to};

use decisions::{abort, delete, refuse, success, wait_unless};
use kern_base::{Answer, Around, Decision, OsErr, Request, Service, TaskId, Who};

// A mutex is nested so often at most.
const NESTING_LIMIT: u8 = 250;

/// A mutual exclusion semaphore: its owner, None where it is free, and how often the owner has taken it,
/// 1 to 250.
#[derive(Clone, Copy, Debug, PartialEq, Eq)]
pub struct Mutex {
    pub owner: Option<TaskId>,
    pub nesting: u8,
}

// A call that the owner makes again is answered with an error that tells how deep it is.
fn nested(err: OsErr, nesting: u8) -> Decision
    ensures { result ≡ Decision.Done (answer err nesting) }
{
    Decision::Done(Answer {
        err,
        value: u32::from(nesting),
        extra: 0,
    })
}

impl Mutex {
    /// What a call on this mutex comes to: `OSMutexPend`, `OSMutexPost`, `OSMutexPendAbort` or
    /// `OSMutexDel`, whose checks have passed. Nothing changes yet. A release at nesting 1 wakes the first
    /// waiter, where there is one.
    pub fn decide(&self, request: &Request, seen: &Around) -> Decision
        requires call { IsMutexCall request.now }
        requires nested { IsNested self.now }
        ensures value { result ≡ decision_of self.now request.now seen.now }

        // It is what the service does, in every kernel with this mutex and this around it.
        ensures row { IsDecided result (content_of self.now)
            (content_of (mutex_after request.now.service result seen.now self.now)) request.now seen.now }
    {
        match request.service {
            Service::MutexPend => self.decide_pend(request.args[2], seen.caller, seen.locked),
            Service::MutexPost => self.decide_post(seen.caller),
            Service::MutexPendAbort => abort(request, seen),
            Service::MutexDel => delete(request, seen),
            _ => unreachable!(),
        }
    }

    /// The mutex's own change by a call, where this was decided of it: a task that is woken by a release
    /// owns it. Priorities are renewed by the kernel.
    pub fn apply(&mut self, request: &Request, seen: &Around, decision: &Decision)
        requires call { IsMutexCall request.now }
        requires nested { IsNested self.old }
        requires decided { decision.now ≡ decision_of self.old request.now seen.now }
        ensures changed { self.new ≡ mutex_after request.now.service decision.now seen.now self.old }
        ensures nested { IsNested self.new }
    {
        match request.service {
            Service::MutexPend => {
                if let Decision::Done(answer) = decision {
                    self.apply_pend(answer.err, seen.caller);
                }
            }
            Service::MutexPost => match decision {
                Decision::Done(answer) => self.apply_post(answer.err),
                Decision::Wake(_) => *self = Mutex::passed_to(seen.first),
                Decision::Block => {}
            },
            _ => {}
        }
    }

    fn decide_pend(&self, option: u32, caller: TaskId, locked: bool) -> Decision
        requires { IsNested self.now }
        ensures { result ≡ pend_decision self.now.owner self.now.nesting option caller locked }
    {
        match self.owner {
            None => Decision::Done(success(1)),
            Some(owner) if owner.0 != caller.0 => wait_unless(option == 1, locked),
            Some(_) if self.nesting == NESTING_LIMIT => refuse(OsErr::Depth),
            Some(_) => nested(OsErr::MutexOwner, self.nesting + 1),
        }
    }

    fn decide_post(&self, caller: TaskId) -> Decision
        ensures { result ≡ post_decision self.now.owner self.now.nesting caller }
    {
        match self.owner {
            Some(owner) if owner.0 == caller.0 => {
                if self.nesting > 1 {
                    nested(OsErr::MutexNesting, self.nesting - 1)
                } else {
                    Decision::Wake(Who::First)
                }
            }
            _ => refuse(OsErr::MutexNotOwner),
        }
    }

    // A wait that was answered so.
    fn apply_pend(&mut self, err: OsErr, caller: TaskId)
        requires { err ≡ OsErr.MutexOwner → self.old.nesting < 250 }
        ensures { self.new ≡ after_pend err caller self.old }
    {
        match err {
            OsErr::NoError => {
                *self = Mutex {
                    owner: Some(caller),
                    nesting: 1,
                };
            }
            OsErr::MutexOwner => self.nesting += 1,
            _ => {}
        }
    }

    // A release that was answered so.
    fn apply_post(&mut self, err: OsErr)
        requires { err ≡ OsErr.MutexNesting → 1 < self.old.nesting }
        ensures { self.new ≡ after_post err self.old }
    {
        if err == OsErr::MutexNesting {
            self.nesting -= 1;
        }
    }

    // A mutex that its owner released, with this first waiter.
    fn passed_to(first: Option<TaskId>) -> Mutex
        ensures { result ≡ passed_to first }
    {
        match first {
            Some(owner) => Mutex {
                owner: Some(owner),
                nesting: 1,
            },
            None => Mutex {
                owner: None,
                nesting: 0,
            },
        }
    }
}
