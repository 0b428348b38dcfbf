// Joins and leaves of lists of waiters, with what is read after each. The expected lists rise in priority number, with equals in
// the order in which they came.

ghost use Rattle.std.specs.Prelude.{◌≡◌, ◌<◌};
ghost use Rattle.links.specs.Nodes.{AreOwn};

use arrayvec::ArrayVec;
use kern_base::{ObjId, Prio, TaskId};
use link_pool::RawLinks;
use links::{IndexLinks, Links};
use pend_lists::{PendLists, node_of};
use std::process::Abort;
use std::test::Fail;

// The priority of a task is ten times its number.
fn prios_of_tasks() -> [Prio; 64] {
    let mut prios = [Prio(60); 64];
    for task in 0..6u8 {
        prios[task as usize] = Prio(10 * task);
    }
    prios
}

// Reads a list in both directions.
fn reads<L: Links>(rt: &impl Abort, pend: &PendLists<L>, obj: ObjId, forward: &[u8], back: &[u8])
    requires { obj.0 < 64 }
{
    let mut out = ArrayVec::new();
    pend.forward(obj, &mut out);
    assert_eq!(rt; out.as_slice(), forward);
    let mut turned = ArrayVec::new();
    pend.backward(obj, &mut turned);
    assert_eq!(rt; turned.as_slice(), back);
}

fn joins_and_leaves<L: Links>(rt: &impl Abort, links: L)
    requires { AreOwn 576 (L.nexts links) × AreOwn 576 (L.prevs links) }
{
    let prios = prios_of_tasks();
    let mut pend = PendLists::new(links);
    assert_eq!(rt; pend.first(ObjId(0)), None);
    pend.join(node_of(TaskId(3), 0), ObjId(0), Prio(30), &prios);
    pend.join(node_of(TaskId(1), 7), ObjId(0), Prio(10), &prios);
    reads(rt, &pend, ObjId(0), &[1, 3], &[1, 3]);
    pend.join(node_of(TaskId(2), 0), ObjId(0), Prio(30), &prios);
    reads(rt, &pend, ObjId(0), &[1, 3, 2], &[1, 3, 2]);
    assert_eq!(rt;
        (pend.first(ObjId(0)), pend.first_node(ObjId(0))),
        (Some(TaskId(1)), Some(15))
    );
    pend.leave(node_of(TaskId(3), 0));
    reads(rt, &pend, ObjId(0), &[1, 2], &[1, 2]);
}

// One link after the other: between the two the chains differ.
fn link_by_link<L: Links>(rt: &impl Abort, links: L)
    requires { AreOwn 576 (L.nexts links) × AreOwn 576 (L.prevs links) }
{
    let prios = prios_of_tasks();
    let mut pend = PendLists::new(links);
    let node = node_of(TaskId(4), 1);
    let after = pend.search(ObjId(63), Prio(40), &prios);
    assert_eq!(rt;
        (node, after, pend.search_step(after, Prio(40), &prios)),
        (33, 575, None)
    );
    pend.link_forward(node, after);
    reads(rt, &pend, ObjId(63), &[4], &[]);
    assert_eq!(rt; (pend.successor(575), pend.predecessor(575)), (33, 575));
    pend.link_back(node);
    reads(rt, &pend, ObjId(63), &[4], &[4]);
    assert_eq!(rt; pend.object_of(node), ObjId(63));
    pend.move_prio(node, Prio(0), &prios);
    reads(rt, &pend, ObjId(63), &[4], &[4]);
    let mut nexts = [0u16; 576];
    pend.successors(&mut nexts);
    assert_eq!(rt; (nexts[575], nexts[33]), (33, 575));
    pend.unlink_forward(node);
    reads(rt, &pend, ObjId(63), &[], &[4]);
    pend.unlink_back(node);
    reads(rt, &pend, ObjId(63), &[], &[]);
}

#[test]
fn waiters_by_index(rt: HostRuntime) -> Result<(), Fail> {
    joins_and_leaves(&rt, IndexLinks::new(rt.alloc(), 576)?);
    link_by_link(&rt, IndexLinks::new(rt.alloc(), 576)?);
    Ok(())
}

#[test]
fn waiters_by_pointer(rt: HostRuntime) -> Result<(), Fail> {
    joins_and_leaves(&rt, RawLinks::new(rt.alloc(), 576)?);
    link_by_link(&rt, RawLinks::new(rt.alloc(), 576)?);
    Ok(())
}
