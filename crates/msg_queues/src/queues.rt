// A message queue.

ghost use Rattle.std.specs.Prelude.{◌≡◌, ◌<◌, ◌+◌, [], ◌∷◌, ℕ, drop, length, IfOk, Some, slice_get};
ghost use Rattle.kern_model.specs.Queues.{store_error, stored};
ghost use Rattle.msg_queues.specs.Stored.{AreStored, Exchanges, messages_under, with_key};
ghost use Rattle.msg_queues.specs.Rows.{IsQueueCall, IsQueueDecided, decision_of, store_decision, post_decision, pend_decision, messages_after, free_after};

use crate::MsgPool;
use circular_buffer::HeapCircularBuffer;
use decisions::{abort, delete, refuse, success, wait_unless};
use kern_base::{Answer, Around, Decision, NoMemory, OsErr, Request, Service, TaskId, Who};
use std::alloc::Global;
use std::marker::Model;

/// A message queue: how many messages it may hold, and the keys of those that it holds, in order. Both
/// ends change in constant time, and its memory is taken when it is made.
#[derive(Drop)]
pub struct MsgQueue {
    limit: u32,
    keys: HeapCircularBuffer<usize>,
}

impl Model for MsgQueue {
    ghost use Rattle.msg_queues.specs.Stored.{Queue};
    ghost use Rattle.msg_queues.specs.QueueView.{queue_of, IsQueue};

    ghost Value = { Queue };

    ghost view = { queue_of };

    ghost invariant = { IsQueue };
}

impl MsgQueue {
    /// An empty queue for so many messages at most. Fails where memory runs out.
    pub fn new(alloc: Global, limit: u32) -> Result<MsgQueue, NoMemory>
        ensures { IfOk result (λ queue. queue ≡ record { limit = limit; keys = [] }) }
    {
        match HeapCircularBuffer::with_capacity(alloc, limit as usize) {
            Ok(keys) => Ok(MsgQueue { limit, keys }),
            Err(_) => Err(NoMemory),
        }
    }

    /// What a call on this queue comes to: `OSQPost`, `OSQPend`, `OSQPendAbort` or `OSQDel`, whose checks
    /// have passed. Nothing changes yet.
    pub fn decide(&self, request: &Request, seen: &Around, pool: &MsgPool) -> Decision
        requires call { IsQueueCall request.now }
        requires stored { AreStored self.now.keys pool.now }
        ensures value { result
            ≡ decision_of self.now.limit (messages_under self.now.keys pool.now) pool.now.free request.now seen.now }

        // It is what the service does, in every kernel with this queue, this pool and this around it.
        ensures row { IsQueueDecided result self.now.limit
            (messages_under self.now.keys pool.now) pool.now.free request.now seen.now }
    {
        match request.service {
            Service::QPost => self.decide_post(request.args[3], seen.first, pool),
            Service::QPend => self.decide_pend(request.args[2], seen.locked, pool),
            Service::QPendAbort => abort(request, seen),
            Service::QDel => delete(request, seen),
            _ => unreachable!(),
        }
    }

    /// The queue's own change by a call, and that of the pool, where this was decided of it.
    pub fn apply(
        &mut self,
        request: &Request,
        seen: &Around,
        decision: &Decision,
        pool: &mut MsgPool,
    )
        requires call { IsQueueCall request.now }
        requires stored { AreStored self.old.keys pool.old }
        requires decided { decision.now
            ≡ decision_of self.old.limit (messages_under self.old.keys pool.old) pool.old.free request.now seen.now }
        ensures limit { self.new.limit ≡ self.old.limit }
        ensures messages { messages_under self.new.keys pool.new
            ≡ messages_after request.now.service decision.now request.now (messages_under self.old.keys pool.old) }
        ensures free { pool.new.free ≡ free_after request.now.service decision.now (length self.old.keys) pool.old.free }
        ensures stored { AreStored self.new.keys pool.new }
        ensures exchanged { Exchanges self.old.keys self.new.keys pool.old pool.new }
    {
        let _ = seen;
        let _ = &self.limit;
        match (request.service, decision) {
            (Service::QPost, Decision::Done(answer)) if answer.err == OsErr::NoError => {
                self.push(
                    request.args[3] & 1 != 0,
                    (request.args[1], request.args[2]),
                    pool,
                );
            }
            (Service::QPend, Decision::Done(answer)) if answer.err == OsErr::NoError => {
                self.pop(pool);
            }
            (Service::QDel, Decision::Wake(_)) => self.clear(pool),
            _ => {}
        }
    }

    /// Gives all messages of this queue back.
    pub fn clear(&mut self, pool: &mut MsgPool)
        requires { AreStored self.old.keys pool.old }
        ensures empty { self.new ≡ record { limit = self.old.limit; keys = [] } }
        ensures free { pool.new.free ≡ pool.old.free + length self.old.keys }
        ensures exchanged { Exchanges self.old.keys [] pool.old pool.new }
    {
        while !self.keys.is_empty() {
            self.pop(pool);
        }
    }

    /// Stores a message, as the first or as the last.
    pub fn push(&mut self, first: bool, message: (u32, u32), pool: &mut MsgPool)
        requires stored { AreStored self.old.keys pool.old }
        requires room { length self.old.keys < self.old.limit }
        requires free { 0 < pool.old.free }
        ensures limit { self.new.limit ≡ self.old.limit }
        ensures messages { messages_under self.new.keys pool.new ≡ stored first message (messages_under self.old.keys pool.old) }
        ensures free { pool.new.free + 1 ≡ pool.old.free }
        ensures stored { AreStored self.new.keys pool.new }
        ensures exchanged { Exchanges self.old.keys self.new.keys pool.old pool.new }
    {
        let key = pool.store(message);
        self.add_key(first, key);
    }

    // Adds a key, as the first or as the last.
    fn add_key(&mut self, first: bool, key: usize)
        requires { length self.old.keys < self.old.limit }
        ensures { self.new ≡ record { limit = self.old.limit; keys = with_key first key self.old.keys } }
    {
        let _ = if first {
            self.keys.try_push_front(key)
        } else {
            self.keys.try_push_back(key)
        };
    }

    /// Takes the first message, which is free then.
    pub fn pop(&mut self, pool: &mut MsgPool)
        requires stored { AreStored self.old.keys pool.old }
        requires some { 0 < length self.old.keys }
        ensures queue { self.new ≡ record { limit = self.old.limit; keys = drop 1 self.old.keys } }
        ensures messages { messages_under self.new.keys pool.new ≡ drop 1 (messages_under self.old.keys pool.old) }
        ensures free { pool.new.free ≡ pool.old.free + 1 }
        ensures stored { AreStored self.new.keys pool.new }
        ensures exchanged { Exchanges self.old.keys self.new.keys pool.old pool.new }
    {
        let key = self.take_key();
        pool.take(key);
    }

    // Takes the first key.
    fn take_key(&mut self) -> usize
        requires { 0 < length self.old.keys }
        ensures key { slice_get self.old.keys 0 ≡ Some result }
        ensures left { self.new ≡ record { limit = self.old.limit; keys = drop 1 self.old.keys } }
    {
        match self.keys.pop_front() {
            Some(key) => key,
            None => unreachable!(),
        }
    }

    fn decide_post(&self, option: u32, first: Option<TaskId>, pool: &MsgPool) -> Decision
        ensures { result ≡ post_decision (length self.now.keys) self.now.limit pool.now.free option first }
    {
        match first {
            Some(_) if option & 2 != 0 => Decision::Wake(Who::All),
            Some(_) => Decision::Wake(Who::First),
            None => self.decide_store(pool),
        }
    }

    /// What it comes to that a message is stored: it is refused where the queue is at its limit, and then
    /// where no message is free.
    pub fn decide_store(&self, pool: &MsgPool) -> Decision
        ensures { result ≡ store_decision (store_error (length self.now.keys) self.now.limit pool.now.free) }
    {
        if self.keys.len() >= self.limit as usize {
            refuse(OsErr::QueueMax)
        } else if pool.free() == 0 {
            refuse(OsErr::PoolEmpty)
        } else {
            Decision::Done(success(0))
        }
    }

    /// What a wait for a message with this option comes to: it gets the first one, or can not go on.
    pub fn decide_pend(&self, option: u32, locked: bool, pool: &MsgPool) -> Decision
        requires { AreStored self.now.keys pool.now }
        ensures { result ≡ pend_decision (messages_under self.now.keys pool.now) option locked }
    {
        match self.first_message(pool) {
            Some((value, extra)) => Decision::Done(Answer {
                err: OsErr::NoError,
                value,
                extra,
            }),
            None => wait_unless(option == 1, locked),
        }
    }

    // The first message.
    fn first_message(&self, pool: &MsgPool) -> Option<(u32, u32)>
        requires { AreStored self.now.keys pool.now }
        ensures { result ≡ slice_get (messages_under self.now.keys pool.now) 0 }
    {
        match self.keys.front() {
            Some(key) => pool.message(*key),
            None => None,
        }
    }
}
