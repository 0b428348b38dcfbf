// A task's own semaphore and message queue.

ghost use Rattle.std.specs.Prelude.{◌≡◌, ◌+◌, ◌==◌, [], IfOk, length};
ghost use Rattle.kern_model.specs.Checks.{named_task};
ghost use Rattle.msg_queues.specs.Stored.{AreStored, Exchanges, messages_under};
ghost use Rattle.task_objects.specs.Rows.{IsTaskCall, IsTaskDecided, decision_of, sem_post_decision, sem_pend_decision, q_post_decision, task_abort_decision, count_after, messages_after, free_after};

use decisions::{refuse, success, wait_unless};
use kern_base::{Around, Decision, NoMemory, OsErr, Request, Service, TaskId, Who};
use msg_queues::{MsgPool, MsgQueue};
use std::alloc::Global;
use std::marker::Model;

// The number that names the calling task.
const CALLER: u32 = u32::MAX;

/// What every task has of its own: a semaphore, whose count is 0 to 2^32 - 1, and a message queue.
#[derive(Drop)]
pub struct TaskBox {
    count: u32,
    queue: MsgQueue,
}

impl Model for TaskBox {
    ghost use Rattle.task_objects.specs.Box.{TaskObjects};
    ghost use Rattle.task_objects.specs.BoxView.{objects_of};

    ghost Value = { TaskObjects };

    ghost view = { objects_of };
}

impl TaskBox {
    /// A semaphore of count 0, and an empty queue for so many messages at most. Fails where memory runs
    /// out.
    pub fn new(alloc: Global, qsize: u32) -> Result<TaskBox, NoMemory>
        ensures { IfOk result (λ own. own ≡ record { count = 0; limit = qsize; keys = [] }) }
    {
        match MsgQueue::new(alloc, qsize) {
            Ok(queue) => Ok(TaskBox { count: 0, queue }),
            Err(_) => Err(NoMemory),
        }
    }

    /// What a call on these objects comes to: `OSTaskSemPost`, `OSTaskQPost`, `OSTaskSemPend`,
    /// `OSTaskQPend`, `OSTaskSemPendAbort` or `OSTaskQPendAbort`, whose checks have passed. A wait is about
    /// the caller's own objects, any other call about those of the task that it names. The first waiter is
    /// that task where it waits for the object, and else there is none. Nothing changes yet.
    pub fn decide(&self, request: &Request, seen: &Around, pool: &MsgPool) -> Decision
        requires call { IsTaskCall request.now }
        requires stored { AreStored self.now.keys pool.now }
        ensures value { result
            ≡ decision_of self.now.count self.now.limit (messages_under self.now.keys pool.now) pool.now.free
            request.now seen.now }

        // It is what the service does, in every kernel with these objects, this pool and this around them.
        ensures row { IsTaskDecided result self.now.count self.now.limit
            (messages_under self.now.keys pool.now) pool.now.free request.now seen.now }
    {
        match request.service {
            Service::TaskSemPost => self.decide_sem_post(seen.first),
            Service::TaskQPost => self.decide_q_post(seen.first, pool),
            Service::TaskSemPend => self.decide_sem_pend(request.args[1], seen.locked),
            Service::TaskQPend => self.queue.decide_pend(request.args[1], seen.locked, pool),
            Service::TaskSemPendAbort | Service::TaskQPendAbort => decide_abort(request, seen),
            _ => unreachable!(),
        }
    }

    /// The change of these objects by a call, and that of the pool, where this was decided of it.
    pub fn apply(
        &mut self,
        request: &Request,
        seen: &Around,
        decision: &Decision,
        pool: &mut MsgPool,
    )
        requires call { IsTaskCall request.now }
        requires stored { AreStored self.old.keys pool.old }
        requires decided { decision.now
            ≡ decision_of self.old.count self.old.limit (messages_under self.old.keys pool.old) pool.old.free
            request.now seen.now }
        ensures limit { self.new.limit ≡ self.old.limit }
        ensures count { self.new.count ≡ count_after request.now.service decision.now self.old.count }
        ensures messages { messages_under self.new.keys pool.new
            ≡ messages_after request.now.service decision.now request.now (messages_under self.old.keys pool.old) }
        ensures free { pool.new.free ≡ free_after request.now.service decision.now pool.old.free }
        ensures stored { AreStored self.new.keys pool.new }
        ensures exchanged { Exchanges self.old.keys self.new.keys pool.old pool.new }
    {
        let _ = seen;
        let Decision::Done(answer) = decision else {
            return;
        };
        if answer.err != OsErr::NoError {
            return;
        }
        let args = &request.args;
        match request.service {
            Service::TaskSemPost => self.count += 1,
            Service::TaskSemPend => self.count -= 1,
            Service::TaskQPost => self.queue.push(args[3] & 1 != 0, (args[1], args[2]), pool),
            Service::TaskQPend => self.queue.pop(pool),
            _ => {}
        }
    }

    /// Gives all messages of the queue back.
    pub fn clear(&mut self, pool: &mut MsgPool)
        requires { AreStored self.old.keys pool.old }
        ensures empty { self.new ≡ record self.old { keys = [] } }
        ensures free { pool.new.free ≡ pool.old.free + length self.old.keys }
        ensures exchanged { Exchanges self.old.keys [] pool.old pool.new }
    {
        self.queue.clear(pool);
    }

    fn decide_sem_post(&self, first: Option<TaskId>) -> Decision
        ensures { result ≡ sem_post_decision self.now.count first }
    {
        match (first, self.count) {
            (Some(_), _) => Decision::Wake(Who::First),
            (None, u32::MAX) => refuse(OsErr::SemOverflow),
            (None, count) => Decision::Done(success(count + 1)),
        }
    }

    fn decide_q_post(&self, first: Option<TaskId>, pool: &MsgPool) -> Decision
        ensures { result ≡ q_post_decision (length self.now.keys) self.now.limit pool.now.free first }
    {
        match first {
            Some(_) => Decision::Wake(Who::First),
            None => self.queue.decide_store(pool),
        }
    }

    fn decide_sem_pend(&self, option: u32, locked: bool) -> Decision
        ensures { result ≡ sem_pend_decision self.now.count option locked }
    {
        match self.count {
            0 => wait_unless(option == 1, locked),
            count => Decision::Done(success(count - 1)),
        }
    }
}

// A task does not abort its own wait.
fn decide_abort(request: &Request, seen: &Around) -> Decision
    ensures { result ≡ task_abort_decision (named_task request.now seen.now.caller.0 == seen.now.caller.0) seen.now.first }
{
    let named = request.args[0];
    if named == CALLER || named == u32::from(seen.caller.0) {
        return refuse(OsErr::PendAbortSelf);
    }
    match seen.first {
        Some(_) => Decision::Wake(Who::First),
        None => refuse(OsErr::PendAbortNone),
    }
}
