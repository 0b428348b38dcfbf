// The objects of the kernel.

ghost use Rattle.std.specs.Prelude.{◌≡◌};
ghost use Rattle.kern_base.specs.declared.services.Service.TheVariants.{FlagPost};
ghost use Rattle.kern_base.specs.declared.outcomes.Decision.TheVariants.{Wake};
ghost use Rattle.kern_base.specs.declared.outcomes.Who.TheVariants.{Matching};
ghost use Rattle.decisions.specs.Decided.{bits_in};
ghost use Rattle.message_store.specs.Store.{HeldQueue};
ghost use Rattle.kernel_records.specs.Deciding.{content_after};
ghost use Rattle.kernel_records.specs.ObjectView.{content_seen};

use event_flags::FlagGroup;
use kern_base::Request;
use semaphores::Sem;
use tick_timers::Timer;

// What an object holds: a semaphore, a queue, whose messages stand at the object's number in the store of messages, an event flag
// group, a mutex that nobody owns, a timer.
#[derive(Clone, Copy)]
pub(crate) enum Content {
    Semaphore(Sem),
    Messages,
    Flags(FlagGroup),
    Free,
    Timed(Timer),
}

#[derive(Clone, Copy)]
pub(crate) struct Object {
    pub content: Content,
    pub deleted: bool,
}

impl Content {
    // The bits of an event flag group; 0 of any other object.
    pub(crate) fn bits(&self) -> u32
        ensures { (q : HeldQueue) → result ≡ bits_in (content_seen q self.now) }
    {
        match self {
            Content::Flags(group) => group.bits,
            _ => 0,
        }
    }

    // The bits that a post of event flags leaves in it.
    pub(crate) fn bits_left(&self, request: &Request) -> u32
        requires { request.now.service ≡ FlagPost }
        ensures { (q : HeldQueue) → result ≡ bits_in (content_after request.now (Wake Matching) (content_seen q self.now)) }
    {
        match self {
            Content::Flags(group) => group.bits_after(request),
            _ => 0,
        }
    }
}
