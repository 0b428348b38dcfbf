// The pool of messages.

ghost use Rattle.std.specs.Prelude.{◌≡◌, ◌≢◌, ◌<◌, ◌+◌, ℕ, None, Some, IfOk, IsSome};
ghost use Rattle.msg_queues.specs.Stored.{message_at};

use kern_base::NoMemory;
use slab::Slab;
use std::alloc::Global;
use std::marker::Model;

/// The messages that stand in queues, each an address and a size under a key, and the number of those
/// that can still be stored. Its memory is taken when it is made.
#[derive(Drop)]
pub struct MsgPool {
    slots: Slab<(u32, u32)>,
    free: u32,
}

impl Model for MsgPool {
    ghost use Rattle.msg_queues.specs.Stored.{Pool};
    ghost use Rattle.msg_queues.specs.PoolView.{pool_of, IsPool};

    ghost Value = { Pool };

    ghost view = { pool_of };

    ghost invariant = { IsPool };
}

impl MsgPool {
    /// A pool of so many messages, all of them free. Fails where memory runs out.
    pub fn new(alloc: Global, n: u32) -> Result<MsgPool, NoMemory>
        ensures free { IfOk result (λ pool. pool.free ≡ n) }
        ensures empty { IfOk result (λ pool. (key : ℕ) → message_at pool key ≡ None) }
    {
        match Slab::with_capacity(alloc, n as usize) {
            Ok(slots) => Ok(MsgPool { slots, free: n }),
            Err(_) => Err(NoMemory),
        }
    }

    /// The number of free messages.
    pub fn free(&self) -> u32
        ensures { result ≡ self.now.free }
    {
        self.free
    }

    // The message under a key.
    pub(crate) fn message(&self, key: usize) -> Option<(u32, u32)>
        ensures { result ≡ message_at self.now key }
    {
        self.slots.get(key).copied()
    }

    // Stores a message under a key under which none stood.
    pub(crate) fn store(&mut self, message: (u32, u32)) -> usize
        requires { 0 < self.old.free }
        ensures vacant { message_at self.old result ≡ None }
        ensures stored { message_at self.new result ≡ Some message }
        ensures others { (key : ℕ) → key ≢ result → message_at self.new key ≡ message_at self.old key }
        ensures free { self.new.free + 1 ≡ self.old.free }
    {
        self.free -= 1;
        self.slots.insert_reserved(message)
    }

    // Takes the message under a key, which is free then.
    pub(crate) fn take(&mut self, key: usize) -> (u32, u32)
        requires { IsSome (message_at self.old key) }
        ensures value { message_at self.old key ≡ Some result }
        ensures gone { message_at self.new key ≡ None }
        ensures others { (other : ℕ) → other ≢ key → message_at self.new other ≡ message_at self.old other }
        ensures free { self.new.free ≡ self.old.free + 1 }
    {
        let message = self.slots.remove(key);
        self.free += 1;
        message
    }
}
