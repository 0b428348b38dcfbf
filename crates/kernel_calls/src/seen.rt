// What was seen when the whole step in hand began.

use kern_base::{Around, Prio, TaskId};
use round_robin::Turn;

// What stood around what a call is about; and of `OSTimeTick` the turn that the tasks of the interrupted priority take.
#[derive(Clone, Copy)]
pub(crate) struct Seen {
    pub around: Around,
    pub turn: Turn,
}

impl Seen {
    // Nothing was seen yet.
    pub(crate) fn nothing() -> Seen {
        Seen {
            around: Around {
                caller: TaskId(0),
                locked: false,
                first: None,
                prio: Prio(0),
            },
            turn: Turn::Stays,
        }
    }
}
