// The kinds of objects, and the two ways of posting from interrupt code.

ghost use Rattle.std.specs.Prelude.{◌≡◌, ◌<◌, ◌≤◌, length, slice_get};
ghost use Rattle.kern_base.specs.Tables.{KindTable};

use crate::ObjId;
use arrayvec::ArrayVec;
use std::marker::Model;

/// The kind of a kernel object.
#[derive(Clone, Copy, Debug, Default, PartialEq, Eq)]
pub enum Kind {
    /// A counting semaphore.
    #[default]
    Sem,
    /// A message queue.
    Queue,
    /// An event flag group.
    Flags,
    /// A mutual exclusion semaphore.
    Mutex,
    /// A timer that fires once a start.
    OneShot,
    /// A timer that fires again and again.
    Periodic,
}

/// How interrupt code posts: at once, or through a queue that a handler empties later. These are the
/// two settings of `OS_CFG_ISR_POST_DEFERRED_EN`.
#[derive(Clone, Copy, Debug, PartialEq, Eq)]
pub enum Method {
    Direct,
    Deferred,
}

/// What an application declares, as far as the static checks of a call look at it: the kinds of its
/// objects by number, and how many application tasks it has.
#[derive(Drop)]
pub struct Kinds {
    objects: ArrayVec<Kind, 64>,
    tasks: u8,
}

impl Model for Kinds {
    ghost use Rattle.kern_base.specs.Tables.{KindTable};
    ghost use Rattle.kern_base.specs.KindsView.{kinds_of};

    ghost Value = { KindTable };

    ghost view = { kinds_of };
}

impl Kinds {
    /// The declarations of an application with these objects and so many tasks.
    pub fn new(objects: ArrayVec<Kind, 64>, tasks: u8) -> Self
        ensures objects { result.objects ≡ objects.items }
        ensures tasks { result.tasks ≡ tasks }
    {
        Kinds { objects, tasks }
    }

    /// The kind of an object, or None where there is none of that number.
    pub fn object(&self, number: u32) -> Option<Kind>
        ensures { result ≡ slice_get self.now.objects number }
    {
        self.objects.get(number as usize).copied()
    }

    /// The number of application tasks.
    pub fn tasks(&self) -> u8
        ensures { result ≡ self.now.tasks }
    {
        self.tasks
    }
}
