// Joins and leaves of ready lists, with what is read after each. The expected lists are those of a scheduler with a list for each
// priority: a task joins at the tail where its priority is the compared one, and else at the head.

ghost use Rattle.std.specs.Prelude.{◌≡◌, ◌<◌};
ghost use Rattle.links.specs.Nodes.{AreOwn};

use arrayvec::ArrayVec;
use kern_base::{Prio, TaskId};
use link_pool::RawLinks;
use links::{IndexLinks, Links};
use ready_list::ReadyList;
use std::process::Abort;
use std::test::Fail;

// Reads a list in both directions.
fn reads<L: Links>(rt: &impl Abort, ready: &ReadyList<L>, prio: Prio, forward: &[u8], back: &[u8])
    requires { prio.0 < 64 }
{
    let mut out = ArrayVec::new();
    ready.forward(prio, &mut out);
    assert_eq!(rt; out.as_slice(), forward);
    let mut turned = ArrayVec::new();
    ready.backward(prio, &mut turned);
    assert_eq!(rt; turned.as_slice(), back);
}

fn joins_and_leaves<L: Links>(rt: &impl Abort, links: L)
    requires { AreOwn 128 (L.nexts links) × AreOwn 128 (L.prevs links) }
{
    let mut ready = ReadyList::new(links);
    assert_eq!(rt; ready.highest(), None);
    ready.insert(TaskId(3), Prio(7), Prio(7));
    ready.insert(TaskId(63), Prio(7), Prio(7));
    ready.insert(TaskId(0), Prio(7), Prio(1));
    reads(rt, &ready, Prio(7), &[0, 3, 63], &[0, 3, 63]);
    ready.insert(TaskId(5), Prio(63), Prio(63));
    reads(rt, &ready, Prio(63), &[5], &[5]);
    assert_eq!(rt;
        (ready.highest(), ready.head(Prio(7))),
        (Some(Prio(7)), Some(TaskId(0)))
    );
    ready.remove(TaskId(3), Prio(7));
    reads(rt, &ready, Prio(7), &[0, 63], &[0, 63]);
    ready.remove(TaskId(0), Prio(7));
    ready.remove(TaskId(63), Prio(7));
    reads(rt, &ready, Prio(7), &[], &[]);
    assert_eq!(rt;
        (ready.highest(), ready.head(Prio(7))),
        (Some(Prio(63)), None)
    );
}

// One link after the other: between the two the chains differ.
fn link_by_link<L: Links>(rt: &impl Abort, links: L)
    requires { AreOwn 128 (L.nexts links) × AreOwn 128 (L.prevs links) }
{
    let mut ready = ReadyList::new(links);
    ready.insert(TaskId(3), Prio(0), Prio(0));
    ready.link_forward(TaskId(9), Prio(0), false);
    reads(rt, &ready, Prio(0), &[9, 3], &[3]);
    assert_eq!(rt; (ready.successor(9), ready.predecessor(3)), (3, 64));
    ready.link_back(TaskId(9), Prio(0), false);
    reads(rt, &ready, Prio(0), &[9, 3], &[9, 3]);
    ready.unlink_forward(TaskId(9));
    reads(rt, &ready, Prio(0), &[3], &[9, 3]);
    ready.unlink_back(TaskId(9), Prio(0));
    reads(rt, &ready, Prio(0), &[3], &[3]);
}

fn first_to_the_tail<L: Links>(rt: &impl Abort, links: L)
    requires { AreOwn 128 (L.nexts links) × AreOwn 128 (L.prevs links) }
{
    let mut ready = ReadyList::new(links);
    ready.insert(TaskId(3), Prio(7), Prio(7));
    ready.insert(TaskId(9), Prio(7), Prio(7));
    ready.rotate(Prio(7));
    reads(rt, &ready, Prio(7), &[9, 3], &[9, 3]);
    let mut nexts = [0u16; 128];
    ready.successors(&mut nexts);
    assert_eq!(rt; (nexts[71], nexts[9], nexts[3]), (9, 3, 71));
    assert_eq!(rt; ready.highest(), Some(Prio(7)));
}

#[test]
fn ready_lists_by_index(rt: HostRuntime) -> Result<(), Fail> {
    joins_and_leaves(&rt, IndexLinks::new(rt.alloc(), 128)?);
    link_by_link(&rt, IndexLinks::new(rt.alloc(), 128)?);
    first_to_the_tail(&rt, IndexLinks::new(rt.alloc(), 128)?);
    Ok(())
}

#[test]
fn ready_lists_by_pointer(rt: HostRuntime) -> Result<(), Fail> {
    joins_and_leaves(&rt, RawLinks::new(rt.alloc(), 128)?);
    link_by_link(&rt, RawLinks::new(rt.alloc(), 128)?);
    first_to_the_tail(&rt, RawLinks::new(rt.alloc(), 128)?);
    Ok(())
}
