// Where the posts of interrupt code go: into the kernel at once, or into the queue of posts.

ghost use Rattle.std.specs.Prelude.{◌≡◌, ◌&&◌, true, is_none};
ghost use Rattle.machine_core.specs.Posts.{has_room, post_at_once, post_later};

use deferred_queue::DeferredQueue;
use kern_base::{Answer, OsErr, Post, Prio};
use kernel_calls::Kernel;
use links::Links;

// What takes the posts of interrupt code.
pub(crate) trait Posts {
    ghost use Rattle.std.specs.Prelude.{Bool, ℕ, List};
    ghost use Rattle.kern_base.specs.declared.services.Service.{Service};
    ghost use Rattle.kern_base.specs.declared.outcomes.Answer.{Answer};

    // What a post comes to while a task of this priority is current: its answer, and what it leaves.
    ghost posted: { ℕ → Service → List ℕ → Self → Answer × Self };

    // Whether a post may be made now: into the kernel, where nothing is in hand, and there is room to count one more signal.
    ghost may_post: { Self → Bool };

    // A post that passed the static checks, while a task of this priority is current.
    fn post(&mut self, post: Post, prio: Prio) -> Answer
        requires { may_post self.old ≡ true }
        ensures answer { result ≡ (posted prio.0 post.service post.args self.old).0 }
        ensures after { self.new ≡ (posted prio.0 post.service post.args self.old).1 };
}

impl<L: Links> Posts for Kernel<L> {
    ghost posted = { post_at_once };

    ghost may_post = { λ k. is_none k.hand && has_room k.state };

    // The post acts at once, and whole.
    fn post(&mut self, post: Post, prio: Prio) -> Answer {
        self.post_now(post, prio)
    }
}

impl Posts for DeferredQueue {
    ghost posted = { post_later };

    ghost may_post = { λ q. true };

    // The post is queued with that priority, or lost where the queue is full.
    fn post(&mut self, post: Post, prio: Prio) -> Answer {
        let err = match self.queue(post, prio) {
            Ok(()) => OsErr::NoError,
            Err(_) => OsErr::InterruptQueueFull,
        };
        Answer {
            err,
            value: 0,
            extra: 0,
        }
    }
}
