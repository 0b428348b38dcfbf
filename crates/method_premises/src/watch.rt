// The premises, while the events of a run are watched.

ghost use Rattle.std.specs.Prelude.{◌≡◌, ◌++◌, List, [], ◌∷◌};
ghost use Rattle.machine_model.specs.Run.{Run};
ghost use Rattle.machine_model.specs.Premises.{premises, is_broken, enters_by_step, enters_locked, loses_post, readies_interrupted};
ghost use Rattle.machine_model.specs.declared.events.Event.{Event as SomeEvent};
ghost use Rattle.method_premises.specs.PremisesView.{first_broken};

use kern_base::OsErr;
use machine_model::{Event, What};
use std::marker::Model;

/// The five premises over the events watched so far: each is held, or broken with the raw steps before the first
/// event that broke it.
#[derive(Drop)]
pub struct Premises {
    step_interrupt: Option<u64>,
    locked_entry: Option<u64>,
    answer_read: Option<u64>,
    post_lost: Option<u64>,
    interrupted_readied: Option<u64>,
}

impl Model for Premises {
    ghost use Rattle.machine_model.specs.Premises as defined;

    ghost Value = { defined.Premises };

    ghost use Rattle.method_premises.specs.PremisesView.{premises_of};

    ghost view = { premises_of };
}

impl Premises {
    /// No event was watched, and all premises are held.
    pub fn new() -> Premises
        ensures { result ≡ premises [] }
    {
        Premises {
            step_interrupt: None,
            locked_entry: None,
            answer_read: None,
            post_lost: None,
            interrupted_readied: None,
        }
    }

    /// Watches the next event of a run.
    pub fn watch(&mut self, event: &Event)
        ensures { (events : List SomeEvent) → self.old ≡ premises events → self.new ≡ premises (events ++ event.now ∷ []) }
    {
        let s = event.s;
        keep(&mut self.step_interrupt, enters_by_step(&event.what), s);
        keep(&mut self.locked_entry, enters_locked(&event.what), s);
        keep(&mut self.answer_read, event.marked, s);
        keep(&mut self.post_lost, loses_post(&event.what), s);
        keep(
            &mut self.interrupted_readied,
            readies_interrupted(&event.what),
            s,
        );
    }

    /// Whether some premise is broken.
    pub fn is_broken(&self) -> bool
        ensures { (r : Run) → self.now ≡ premises r.events → result ≡ is_broken r }
    {
        self.step_interrupt.is_some()
            || self.locked_entry.is_some()
            || self.answer_read.is_some()
            || self.post_lost.is_some()
            || self.interrupted_readied.is_some()
    }

    /// Where an interrupt first entered whose moment is in raw steps.
    pub fn step_interrupt(&self) -> Option<u64>
        ensures { result ≡ self.now.p1 }
    {
        self.step_interrupt
    }

    /// Where an interrupt first entered while the scheduler was locked.
    pub fn locked_entry(&self) -> Option<u64>
        ensures { result ≡ self.now.p2 }
    {
        self.locked_entry
    }

    /// Where an instruction of interrupt code first read the answer of a post.
    pub fn answer_read(&self) -> Option<u64>
        ensures { result ≡ self.now.p3 }
    {
        self.answer_read
    }

    /// Where a post was first lost, since the queue was full.
    pub fn post_lost(&self) -> Option<u64>
        ensures { result ≡ self.now.p4 }
    {
        self.post_lost
    }

    /// Where, with the literal insertion rule, a take first readied a task of the interrupted priority.
    pub fn interrupted_readied(&self) -> Option<u64>
        ensures { result ≡ self.now.p5 }
    {
        self.interrupted_readied
    }
}

// Keeps where a premise is broken first, at an event that may break it.
fn keep(first: &mut Option<u64>, breaks: bool, s: u64)
    ensures { first.new ≡ first_broken first.old breaks s }
{
    if breaks && first.is_none() {
        *first = Some(s);
    }
}

// Whether an interrupt enters whose moment is in raw steps.
fn enters_by_step(what: &What) -> bool
    ensures { result ≡ enters_by_step what.now }
{
    matches!(what, What::Irq { by_step: true, .. })
}

// Whether an interrupt enters while the scheduler is locked.
fn enters_locked(what: &What) -> bool
    ensures { result ≡ enters_locked what.now }
{
    matches!(what, What::Irq { locked: true, .. })
}

// Whether a post is lost, since the queue is full.
fn loses_post(what: &What) -> bool
    ensures { result ≡ loses_post what.now }
{
    matches!(
        what,
        What::Post {
            err: OsErr::InterruptQueueFull,
            ..
        }
    )
}

// Whether, with the literal insertion rule, a take readies a task of the interrupted priority.
fn readies_interrupted(what: &What) -> bool
    ensures { result ≡ readies_interrupted what.now }
{
    matches!(what, What::Take { same: true, .. })
}
