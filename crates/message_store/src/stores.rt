// The store of all messages.

ghost use Rattle.std.specs.Prelude.{◌≡◌, ◌<◌, length, IfOk};
ghost use Rattle.msg_queues.specs.Rows as queue_rows;
ghost use Rattle.task_objects.specs.Rows as task_rows;
ghost use Rattle.message_store.specs.Store.{queue_at, own_at, after_call, after_own_call, without_messages};
ghost use Rattle.message_store.specs.Start.{start_store};

use crate::starting::{start_own, start_queues};
use app_image::Image;
use kern_base::{Around, Decision, NoMemory, ObjId, Request, TaskId};
use msg_queues::{MsgPool, MsgQueue};
use std::alloc::Global;
use std::marker::Model;
use task_objects::TaskBox;

/// The messages of all queues, and the pool that they share: a queue for each object number, and a
/// semaphore and a queue for each of the 64 tasks. All memory is taken when it is made, and a call costs
/// the same whatever is stored, but for a queue that gives all of its messages back.
#[derive(Drop)]
pub struct MessageStore {
    pool: MsgPool,
    queues: Vec<MsgQueue>,
    own: Vec<TaskBox>,
}

impl Model for MessageStore {
    ghost use Rattle.message_store.specs.Store.{Store};
    ghost use Rattle.message_store.specs.StoreView.{store_of, IsStore};

    ghost Value = { Store };

    ghost view = { store_of };

    ghost invariant = { IsStore };
}

impl MessageStore {
    /// The store at the start of an image: all messages are free. An object that is no queue, and a number
    /// without an application task, get a queue that holds no message. Fails where memory runs out.
    pub fn new(alloc: Global, image: &Image) -> Result<MessageStore, NoMemory>
        ensures { IfOk result (λ store. store ≡ start_store image.now) }
    {
        let pool = MsgPool::new(alloc, image.config().pool)?;
        let queues = start_queues(alloc, image.objects())?;
        let own = start_own(alloc, image.tasks())?;
        Ok(MessageStore { pool, queues, own })
    }

    /// The number of messages that can still be stored.
    pub fn free(&self) -> u32
        ensures { result ≡ self.now.free }
    {
        self.pool.free()
    }

    /// What a call on the queue of an object comes to: `OSQPost`, `OSQPend`, `OSQPendAbort` or `OSQDel`,
    /// whose checks have passed. Nothing changes yet.
    pub fn decide(&self, obj: ObjId, request: &Request, seen: &Around) -> Decision
        requires call { queue_rows.IsQueueCall request.now }
        requires number { obj.0 < length self.now.queues }
        ensures value { result ≡ queue_rows.decision_of (queue_at self.now obj.0).limit (queue_at self.now obj.0).messages
            self.now.free request.now seen.now }

        // It is what the service does, in every kernel with this queue, so many free messages and this around it.
        ensures row { queue_rows.IsQueueDecided result (queue_at self.now obj.0).limit (queue_at self.now obj.0).messages
            self.now.free request.now seen.now }
    {
        self.queues[obj.0 as usize].decide(request, seen, &self.pool)
    }

    /// The change of the queue of an object by a call, where this was decided of it.
    pub fn apply(&mut self, obj: ObjId, request: &Request, seen: &Around, decision: &Decision)
        requires call { queue_rows.IsQueueCall request.now }
        requires number { obj.0 < length self.old.queues }
        requires decided { decision.now ≡ queue_rows.decision_of (queue_at self.old obj.0).limit (queue_at self.old obj.0).messages
            self.old.free request.now seen.now }
        ensures { self.new ≡ after_call self.old obj.0 request.now decision.now }
    {
        self.queues[obj.0 as usize].apply(request, seen, decision, &mut self.pool);
    }

    /// What a call on a task's own semaphore or queue comes to: `OSTaskSemPost`, `OSTaskQPost`,
    /// `OSTaskSemPend`, `OSTaskQPend`, `OSTaskSemPendAbort` or `OSTaskQPendAbort`, whose checks have passed.
    /// Nothing changes yet.
    pub fn decide_own(&self, task: TaskId, request: &Request, seen: &Around) -> Decision
        requires call { task_rows.IsTaskCall request.now }
        requires number { task.0 < 64 }
        ensures value { result ≡ task_rows.decision_of (own_at self.now task.0).count (own_at self.now task.0).limit
            (own_at self.now task.0).messages self.now.free request.now seen.now }

        // It is what the service does, in every kernel with these objects, so many free messages and this around them.
        ensures row { task_rows.IsTaskDecided result (own_at self.now task.0).count (own_at self.now task.0).limit
            (own_at self.now task.0).messages self.now.free request.now seen.now }
    {
        self.own[task.0 as usize].decide(request, seen, &self.pool)
    }

    /// The change of a task's own objects by a call, where this was decided of it.
    pub fn apply_own(&mut self, task: TaskId, request: &Request, seen: &Around, decision: &Decision)
        requires call { task_rows.IsTaskCall request.now }
        requires number { task.0 < 64 }
        requires decided { decision.now ≡ task_rows.decision_of (own_at self.old task.0).count (own_at self.old task.0).limit
            (own_at self.old task.0).messages self.old.free request.now seen.now }
        ensures { self.new ≡ after_own_call self.old task.0 request.now decision.now }
    {
        self.own[task.0 as usize].apply(request, seen, decision, &mut self.pool);
    }

    /// Gives all messages of a task's own queue back. The count of its semaphore stays.
    pub fn clear_own(&mut self, task: TaskId)
        requires { task.0 < 64 }
        ensures { self.new ≡ without_messages self.old task.0 }
    {
        self.own[task.0 as usize].clear(&mut self.pool);
    }
}
