// Interrupts and looks, each with its moment.

use kern_base::{ObjId, Prio};
use std::marker::Model;

/// When an interrupt enters. One that may not enter at its moment waits until it may.
#[derive(Clone, Copy, Debug, PartialEq, Eq)]
pub enum Moment {
    /// When so many task steps are done, 0 to 1,000,000: between two actions of tasks, in the list's order.
    Task(u32),
    /// When so many raw steps are done: also in the middle of a service, and over interrupts of a lower level.
    Step(u64),
}

/// A recorded interrupt.
#[derive(Clone, Copy, Debug, PartialEq, Eq)]
pub struct Injection {
    pub moment: Moment,
    /// The number of a declared vector, 0 to 31.
    pub vector: u8,
    /// What its handler finds in `a0` to `a3`; words past the count are 0.
    pub words: [u32; 4],
    /// How many words were given, 0 to 4.
    pub count: u8,
}

/// The list that a look prints: the waiters of an object, or the ready list of a priority, 0 to 63.
#[derive(Clone, Copy, Debug, PartialEq, Eq)]
pub enum Seen {
    Obj(ObjId),
    Ready(Prio),
}

/// A look at a list, when so many raw steps are done.
#[derive(Clone, Copy, Debug, PartialEq, Eq)]
pub struct Look {
    pub at: u64,
    pub what: Seen,
}

/// The interrupts and the looks of a case, each in the order of their lines.
#[derive(Drop)]
pub struct InjectList {
    pub injections: Vec<Injection>,
    pub looks: Vec<Look>,
}

impl Model for InjectList {
    ghost use Rattle.inject_list.specs.Lists.{ListRecord};

    ghost Value = { ListRecord };

    ghost view = { λ l. record { injections = l.injections.items; looks = l.looks.items } };
}
