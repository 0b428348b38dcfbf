// A whole step in hand.

ghost use Rattle.std.specs.Prelude.{◌≡◌, ◌==◌, ◌-◌, ◌<◌, ◌^◌};
ghost use Rattle.kernel_calls.specs.Works.{begun, stepped, unit_begun};

use kern_base::{Prio, Request, Service, TaskId};
use std::marker::Model;

// The handler of deferred posts. A post of interrupt code that acts at once has no caller, and its number stands for one.
pub(crate) const HANDLER: TaskId = TaskId(63);

/// A whole step in hand: a call of a service that was begun, the take of a post or a unit of an internal task, and how many of its
/// micro-steps are done.
#[derive(Drop)]
pub struct Work {
    caller: TaskId,
    request: Request,
    interrupted: Prio,
    compared: Prio,
    unit: bool,
    done: u32,
}

// A unit asks for no service.
const NO_REQUEST: Request = Request {
    service: Service::Unknown(0),
    args: [0; 4],
    ids: [0; 8],
    n_ids: 0,
    table: false,
};

impl Model for Work {
    ghost use Rattle.kernel_calls.specs.Works.{WorkRecord};

    ghost Value = { WorkRecord };

    ghost use Rattle.kernel_calls.specs.WorkView.{work_of};

    ghost view = { work_of };
}

impl Work {
    // No work yet.
    pub(crate) fn none() -> Work {
        Work {
            caller: HANDLER,
            request: NO_REQUEST,
            interrupted: Prio(0),
            compared: Prio(0),
            unit: false,
            done: 0,
        }
    }

    // A work at its beginning, in place of another.
    pub(crate) fn begin(
        &mut self,
        caller: TaskId,
        request: &Request,
        interrupted: Prio,
        compared: Prio,
    )
        ensures { self.new ≡ begun caller.0 request.now interrupted.0 compared.0 }
    {
        self.caller = caller;
        self.request = *request;
        self.interrupted = interrupted;
        self.compared = compared;
        self.unit = false;
        self.done = 0;
    }

    // A unit of this task at its beginning, in place of another work.
    pub(crate) fn begin_unit(&mut self, task: TaskId)
        ensures { self.new ≡ unit_begun task.0 }
    {
        self.caller = task;
        self.request = NO_REQUEST;
        self.interrupted = Prio(0);
        self.compared = Prio(0);
        self.unit = true;
        self.done = 0;
    }

    // One micro-step is done.
    pub(crate) fn count(&mut self)
        requires { self.old.done < 2 ^ 32 - 1 }
        ensures { self.new ≡ stepped self.old }
    {
        self.done += 1;
    }

    /// What is asked.
    pub fn request(&self) -> &Request
        ensures { result.now ≡ self.now.request }
    {
        &self.request
    }

    // Whose work it is.
    pub(crate) fn caller(&self) -> TaskId
        ensures { result.0 ≡ self.now.caller }
    {
        self.caller
    }

    /// The service that is called.
    pub fn service(&self) -> Service
        ensures { result ≡ self.now.request.service }
    {
        self.request.service
    }

    /// The words of its arguments.
    pub fn args(&self) -> [u32; 4]
        ensures { result ≡ self.now.request.args }
    {
        self.request.args
    }

    /// The priority of what it interrupts: of a take, the one that was saved with the post.
    pub fn interrupted(&self) -> Prio
        ensures { result.0 ≡ self.now.interrupted }
    {
        self.interrupted
    }

    /// Whether the handler performs a post.
    pub fn is_take(&self) -> bool
        ensures { result ≡ (self.now.caller == 63) }
    {
        self.caller == HANDLER
    }

    /// Whether it is a unit of work of the tick task or the timer task.
    pub fn is_unit(&self) -> bool
        ensures { result ≡ self.now.unit }
    {
        self.unit
    }
}
