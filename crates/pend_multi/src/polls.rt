// What polls of several objects give.

ghost use Rattle.std.specs.Prelude.{◌≡◌, ◌<◌, ◌≤◌, ◌==◌, ℕ, not, length, map, take, slice_index_or, None, is_some};
ghost use Rattle.kern_model.specs.State.{Kernel, object_at};
ghost use Rattle.kern_model.specs.Several.{polled, polls, taken_from, taken_all, taken_count};
ghost use Rattle.pend_multi.specs.Polls.{PollRecord, IsSeen, AreIds};
ghost use Rattle.pend_multi.specs.Takes.{message_of};

use kern_base::ObjId;

/// What is taken from an object: a message and its size, and of a semaphore 0 and 0.
#[derive(Clone, Copy, Debug, PartialEq, Eq)]
pub struct Taken {
    pub msg: u32,
    pub size: u32,
}

/// Objects that can be polled.
pub trait Pollable {
    // What each object holds, by number, and the number of free messages.
    ghost seen: { Self → PollRecord };

    // What a poll needs, and keeps.
    ghost valid: { Self → Type 0 };

    // All else is the same.
    ghost same_rest: { Self → Self → Type 0 };

    /// Takes one from the object's count, or its first message. None exactly where it has neither, and
    /// then nothing changes.
    fn poll(&mut self, obj: ObjId) -> Option<Taken>
        requires valid { valid self.old }
        requires number { obj.0 < 64 }
        ensures valid { valid self.new }
        ensures rest { same_rest self.old self.new }

        // It is what a poll gives and leaves in every kernel with these objects.
        ensures value { (k : Kernel) → IsSeen k (seen self.old) → message_of result ≡ polled (object_at k obj.0).content }
        ensures left { (k : Kernel) → IsSeen k (seen self.old) → IsSeen (taken_from obj.0 (object_at k obj.0).content k) (seen self.new) };

    /// Whether a poll would take something. Nothing changes.
    fn is_ready(&self, obj: ObjId) -> bool
        requires valid { valid self.now }
        requires number { obj.0 < 64 }
        ensures { (k : Kernel) → IsSeen k (seen self.now) → result ≡ is_some (polled (object_at k obj.0).content) };

    // What is the same stays the same.
    ghost rest_itself: { (a : Self) → same_rest a a };

    ghost rest_later: { (a b c : Self) → same_rest a b → same_rest b c → same_rest a c };
}

/// Whether a poll of one of these objects would take something: `OSPendMulti` then takes, and else its
/// caller waits. Nothing changes yet.
pub fn any_ready<P: Pollable>(p: &P, ids: &[u8]) -> bool
    requires valid { P.valid p.now }
    requires ids { AreIds ids.now }
    ensures { (k : Kernel) → IsSeen k (P.seen p.now) → result ≡ not (taken_count (polls ids.now k) == 0) }
{
    for id in ids {
        if p.is_ready(ObjId(*id)) {
            return true;
        }
    }
    false
}

/// What polls of these objects give, in their order; None in the places past the last.
pub fn poll_all<P: Pollable>(p: &mut P, ids: &[u8]) -> [Option<Taken>; 8]
    requires valid { P.valid p.old }
    requires ids { AreIds ids.now }
    ensures valid { P.valid p.new }
    ensures rest { P.same_rest p.old p.new }
    ensures past { (i : ℕ) → length ids.now ≤ i → slice_index_or result i None ≡ None }

    // It is what `OSPendMulti` finds and takes, in every kernel with these objects.
    ensures values { (k : Kernel) → IsSeen k (P.seen p.old) → map message_of (take (length ids.now) result) ≡ polls ids.now k }
    ensures left { (k : Kernel) → IsSeen k (P.seen p.old) → IsSeen (taken_all ids.now k) (P.seen p.new) }
{
    let mut polled = [None; 8];
    for (index, id) in ids.iter().enumerate() {
        polled[index] = p.poll(ObjId(*id));
    }
    polled
}
