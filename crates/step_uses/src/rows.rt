// What two lists are after a micro-step, in both chains.

ghost use Rattle.std.specs.Prelude.{◌<◌};

use arrayvec::ArrayVec;
use kern_base::{ObjId, Prio};
use links::Links;
use micro_steps::Chains;
use std::process::Abort;

/// The tasks of one ready list and of one list of waiters, by the forward and by the backward chain.
#[derive(Clone, Copy)]
pub struct Row {
    ready: &'static [u8],
    ready_back: &'static [u8],
    pend: &'static [u8],
    pend_back: &'static [u8],
}

/// The lists after a micro-step.
pub fn after(
    ready: &'static [u8],
    ready_back: &'static [u8],
    pend: &'static [u8],
    pend_back: &'static [u8],
) -> Row {
    Row {
        ready,
        ready_back,
        pend,
        pend_back,
    }
}

/// Reads the ready list of a priority, below 64, and the waiters of object 0.
pub fn reads<L: Links>(rt: &impl Abort, chains: &Chains<L>, prio: Prio, row: &Row)
    requires { prio.0 < 64 }
{
    let ready = chains.ready();
    let pend = chains.pend();
    let mut out = ArrayVec::new();
    ready.forward(prio, &mut out);
    assert_eq!(rt; out.as_slice(), row.ready);
    let mut back = ArrayVec::new();
    ready.backward(prio, &mut back);
    assert_eq!(rt; back.as_slice(), row.ready_back);
    let mut waiters = ArrayVec::new();
    pend.forward(ObjId(0), &mut waiters);
    assert_eq!(rt; waiters.as_slice(), row.pend);
    let mut turned = ArrayVec::new();
    pend.backward(ObjId(0), &mut turned);
    assert_eq!(rt; turned.as_slice(), row.pend_back);
}
