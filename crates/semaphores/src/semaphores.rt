// A counting semaphore.

ghost use Rattle.std.specs.Prelude.{◌≡◌};
ghost use Rattle.kern_model.specs.State.{Count};
ghost use Rattle.decisions.specs.Decided.{IsDecided};
ghost use Rattle.semaphores.specs.Rows.{IsSemaphoreCall, post_decision, pend_decision, decision_of, count_after};

use decisions::{abort, delete, refuse, success, wait_unless};
use kern_base::{Around, Decision, OsErr, Request, Service, TaskId, Who};

/// A counting semaphore: how often it can be taken at once, 0 to 2^32 - 1.
#[derive(Clone, Copy, Debug, PartialEq, Eq)]
pub struct Sem {
    pub count: u32,
}

impl Sem {
    /// What a call on this semaphore comes to: `OSSemPost`, `OSSemPend`, `OSSemPendAbort` or `OSSemDel`,
    /// whose checks have passed. Nothing changes yet.
    pub fn decide(&self, request: &Request, seen: &Around) -> Decision
        requires { IsSemaphoreCall request.now }
        ensures value { result ≡ decision_of self.now.count request.now seen.now }

        // It is what the service does, in every kernel with this semaphore and this around it.
        ensures row { IsDecided result (Count self.now.count)
            (Count (count_after request.now.service result self.now.count)) request.now seen.now }
    {
        match request.service {
            Service::SemPost => self.decide_post(request.args[1], seen.first),
            Service::SemPend => self.decide_pend(request.args[2], seen.locked),
            Service::SemPendAbort => abort(request, seen),
            Service::SemDel => delete(request, seen),
            _ => unreachable!(),
        }
    }

    /// The semaphore's own change by a call, where this was decided of it.
    pub fn apply(&mut self, request: &Request, seen: &Around, decision: &Decision)
        requires call { IsSemaphoreCall request.now }
        requires decided { decision.now ≡ decision_of self.old.count request.now seen.now }
        ensures { self.new.count ≡ count_after request.now.service decision.now self.old.count }
    {
        let _ = seen;
        let Decision::Done(answer) = decision else {
            return;
        };
        if answer.err != OsErr::NoError {
            return;
        }
        match request.service {
            Service::SemPost => self.count += 1,
            Service::SemPend => self.count -= 1,
            _ => {}
        }
    }

    fn decide_post(&self, option: u32, first: Option<TaskId>) -> Decision
        ensures { result ≡ post_decision self.now.count option first }
    {
        match (first, self.count) {
            (Some(_), _) if option == 2 => Decision::Wake(Who::All),
            (Some(_), _) => Decision::Wake(Who::First),
            (None, u32::MAX) => refuse(OsErr::SemOverflow),
            (None, count) => Decision::Done(success(count + 1)),
        }
    }

    fn decide_pend(&self, option: u32, locked: bool) -> Decision
        ensures { result ≡ pend_decision self.now.count option locked }
    {
        match self.count {
            0 => wait_unless(option == 1, locked),
            count => Decision::Done(success(count - 1)),
        }
    }
}
