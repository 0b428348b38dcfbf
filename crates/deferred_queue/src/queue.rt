// The queue of posts.

ghost use Rattle.std.specs.Prelude.{◌≡◌, [], None, Some, false, IfOk, MatchResult, option_map};
ghost use Rattle.machine_model.specs.Queue.{front, queued, without_front};
ghost use Rattle.machine_model.specs.Settling.{none_waits};
ghost use Rattle.deferred_queue.specs.QueueView.{post_saved, service_of_post, service_of_queued, args_of_post, args_of_queued};

use circular_buffer::HeapCircularBuffer;
use kern_base::{NoMemory, Post, Prio};
use std::alloc::Global;
use std::marker::Model;

/// The queue holds as many posts as it may.
#[derive(Clone, Copy, Debug, PartialEq, Eq)]
pub struct Full;

// A post that waits, with the priority that was saved for it.
#[derive(Clone, Copy)]
pub(crate) struct Waiting {
    pub post: Post,
    pub saved: Prio,
}

/// The posts of interrupt code that wait for the handler, in the order in which they were made, each with the
/// present priority of the task that was current then. All its memory is taken by `new`.
#[derive(Drop)]
pub struct DeferredQueue {
    posts: HeapCircularBuffer<Waiting>,
}

impl Model for DeferredQueue {
    ghost use Rattle.deferred_queue.specs.QueueRecord.{QueueRecord};

    ghost Value = { QueueRecord };

    ghost use Rattle.deferred_queue.specs.QueueView.{queue_of};

    ghost view = { queue_of };
}

impl DeferredQueue {
    /// An empty queue of at most so many posts.
    pub fn new(alloc: Global, size: u16) -> Result<DeferredQueue, NoMemory>
        ensures { IfOk result (λ q. q ≡ record { posts = []; size = size }) }
    {
        match HeapCircularBuffer::with_capacity(alloc, usize::from(size)) {
            Ok(posts) => Ok(DeferredQueue { posts }),
            Err(_) => Err(NoMemory),
        }
    }

    /// Whether no post waits.
    pub fn is_empty(&self) -> bool
        ensures { result ≡ none_waits self.now.posts }
    {
        self.posts.is_empty()
    }

    /// Queues a post, as the last one. A full queue stays as it is, and the post is lost.
    pub fn queue(&mut self, post: Post, saved: Prio) -> Result<(), Full>
        ensures queued { MatchResult result
            (λ _. queued self.old.size (post_saved post saved) self.old.posts ≡ Some self.new.posts)
            (λ _. queued self.old.size (post_saved post saved) self.old.posts ≡ None) }
        ensures full { MatchResult result (λ _. self.new.size ≡ self.old.size) (λ _. self.new ≡ self.old) }
    {
        match self.posts.try_push_back(Waiting { post, saved }) {
            Ok(()) => Ok(()),
            Err(_) => Err(Full),
        }
    }

    /// The post that waits longest, where one waits.
    pub fn front(&self) -> Option<Post>
        ensures service { option_map service_of_post result ≡ option_map service_of_queued (front self.now.posts) }
        ensures arguments { option_map args_of_post result ≡ option_map args_of_queued (front self.now.posts) }
    {
        match self.posts.front() {
            Some(waiting) => Some(waiting.post),
            None => None,
        }
    }

    /// The priority that was saved with that post.
    pub fn saved(&self) -> Option<Prio>
        ensures { option_map (λ p. p.0) result ≡ option_map (λ q. q.saved) (front self.now.posts) }
    {
        match self.posts.front() {
            Some(waiting) => Some(waiting.saved),
            None => None,
        }
    }

    /// The post that waits longest leaves.
    pub fn drop_front(&mut self)
        requires { none_waits self.old.posts ≡ false }
        ensures { self.new ≡ record self.old { posts = without_front self.old.posts } }
    {
        let _ = self.posts.pop_front();
    }
}
