// A table of links, made one micro-step at a time, with both chains of the two lists that they change after each micro-step.
// Waiters stand by priority number, equals in the order in which they came; a task becomes ready at the tail or at the head.

ghost use Rattle.std.specs.Prelude.{◌≡◌, ◌+◌, ℕ, List, ◌∷◌};
ghost use Rattle.kern_model.specs.Micro.{Micro, Lists};
ghost use Rattle.links.specs.Nodes.{AreOwn};
ghost use Rattle.micro_steps.specs.declared.link.Link.{Link as ALink};
ghost use Rattle.micro_steps.specs.Whole.{HasNode, IsPaused};

use crate::counted_links::CountedLinks;
use crate::rows::{Row, after, reads};
use kern_base::{ObjId, Prio, TaskId};
use link_pool::RawLinks;
use links::{IndexLinks, Links};
use micro_steps::{Link, Steps};
use std::cell::Cell;
use std::process::Abort;
use std::test::Fail;

// Makes one link: a micro-step for each row, and no more.
fn made<L: Links>(rt: &impl Abort, steps: &mut Steps<L>, link: Link, rows: &[Row])
    requires node { HasNode link }
    requires paused { (ms : List Micro) × (l : Lists) × (i : ℕ) × (ks : List ALink) × (end : Lists) × IsPaused ms l i (link ∷ ks) end steps.old }
    ensures { (ms : List Micro) (l : Lists) (i : ℕ) (ks : List ALink) (end : Lists) → IsPaused ms l i (link ∷ ks) end steps.old → (j : ℕ) × IsPaused ms l j ks end steps.new }
{
    steps.take(link);
    for k in 0..rows.len() {
        let last = steps.step();
        reads(rt, steps.chains(), Prio(7), &rows[k]);
        if last {
            assert_eq!(rt; k + 1, rows.len());
            return;
        }
    }
    panic!(rt; "a link has more micro-steps than rows");
}

fn links_one_by_one<L: Links>(rt: &impl Abort, ready: L, pend: L)
    requires ready { AreOwn 128 (L.nexts ready) × AreOwn 128 (L.prevs ready) }
    requires pend { AreOwn 576 (L.nexts pend) × AreOwn 576 (L.prevs pend) }
{
    let mut steps = Steps::new(ready, pend, &[Prio(63); 64]);
    let joins = [
        after(&[3], &[], &[], &[]),
        after(&[3], &[3], &[], &[]),
        after(&[3], &[3], &[], &[]),
    ];
    made(
        rt,
        &mut steps,
        Link::Ready(TaskId(3), Prio(7), true),
        &joins,
    );
    let heads = [
        after(&[1, 3], &[3], &[], &[]),
        after(&[1, 3], &[1, 3], &[], &[]),
        after(&[1, 3], &[1, 3], &[], &[]),
    ];
    made(
        rt,
        &mut steps,
        Link::Ready(TaskId(1), Prio(7), false),
        &heads,
    );
    let leaves = [after(&[1], &[1, 3], &[], &[]), after(&[1], &[1], &[], &[])];
    made(rt, &mut steps, Link::Unready(TaskId(3), Prio(7)), &leaves);
    let first = [after(&[1], &[1], &[3], &[]), after(&[1], &[1], &[3], &[3])];
    made(rt, &mut steps, Link::Wait(24, Prio(30), ObjId(0)), &first);
    let before = [
        after(&[1], &[1], &[1, 3], &[3]),
        after(&[1], &[1], &[1, 3], &[1, 3]),
    ];
    made(rt, &mut steps, Link::Wait(15, Prio(10), ObjId(0)), &before);
    let passes = [
        after(&[1], &[1], &[1, 3], &[1, 3]),
        after(&[1], &[1], &[1, 3], &[1, 3]),
        after(&[1], &[1], &[1, 3, 2], &[1, 3]),
        after(&[1], &[1], &[1, 3, 2], &[1, 3, 2]),
    ];
    made(rt, &mut steps, Link::Wait(16, Prio(30), ObjId(0)), &passes);
    let gone = [
        after(&[1], &[1], &[1, 2], &[1, 3, 2]),
        after(&[1], &[1], &[1, 2], &[1, 2]),
    ];
    made(rt, &mut steps, Link::Leave(24, ObjId(0)), &gone);
    let renewed = [
        after(&[1], &[1], &[3, 1, 2], &[1, 2]),
        after(&[1], &[1], &[3, 1, 2], &[3, 1, 2]),
    ];
    made(rt, &mut steps, Link::Wait(24, Prio(5), ObjId(0)), &renewed);
    made(
        rt,
        &mut steps,
        Link::Plain,
        &[after(&[1], &[1], &[3, 1, 2], &[3, 1, 2])],
    );
    steps.close();
    assert_eq!(rt; steps.chains().ready().highest(), Some(Prio(7)));
}

#[test]
fn links_by_index(rt: HostRuntime) -> Result<(), Fail> {
    links_one_by_one(
        &rt,
        IndexLinks::new(rt.alloc(), 128)?,
        IndexLinks::new(rt.alloc(), 576)?,
    );
    Ok(())
}

#[test]
fn links_by_pointer(rt: HostRuntime) -> Result<(), Fail> {
    links_one_by_one(
        &rt,
        RawLinks::new(rt.alloc(), 128)?,
        RawLinks::new(rt.alloc(), 576)?,
    );
    Ok(())
}

// A whole step reads a waiter for each that it passes, and its end reads the two successors that its link changed and no other. A
// step without a link reads nothing.
fn reads_counted<L: Links>(rt: &impl Abort, ready: L, pend: L, reads: &Cell<u32>)
    requires ready { AreOwn 128 (L.nexts ready) × AreOwn 128 (L.prevs ready) }
    requires pend { AreOwn 576 (L.nexts pend) × AreOwn 576 (L.prevs pend) }
{
    let mut steps = Steps::new(ready, pend, &[Prio(63); 64]);
    reads.set(0);
    whole(rt, &mut steps, Link::Wait(24, Prio(30), ObjId(0)), 2);
    steps.close();
    whole(rt, &mut steps, Link::Wait(15, Prio(10), ObjId(0)), 2);
    steps.close();
    reads.set(0);
    whole(rt, &mut steps, Link::Wait(16, Prio(30), ObjId(0)), 4);
    assert!(rt; reads.get() >= 2 && reads.get() <= 6);
    reads.set(0);
    steps.close();
    assert_eq!(rt; reads.get(), 2);
    whole(rt, &mut steps, Link::Plain, 1);
    steps.close();
    assert_eq!(rt; reads.get(), 2);
}

// Makes one link, in so many micro-steps.
fn whole<L: Links>(rt: &impl Abort, steps: &mut Steps<L>, link: Link, most: u32)
    requires node { HasNode link }
    requires paused { (ms : List Micro) × (l : Lists) × (i : ℕ) × (ks : List ALink) × (end : Lists) × IsPaused ms l i (link ∷ ks) end steps.old }
    ensures { (ms : List Micro) (l : Lists) (i : ℕ) (ks : List ALink) (end : Lists) → IsPaused ms l i (link ∷ ks) end steps.old → (j : ℕ) × IsPaused ms l j ks end steps.new }
{
    steps.take(link);
    for k in 0..most {
        let last = steps.step();
        if last {
            assert_eq!(rt; k + 1, most);
            return;
        }
    }
    panic!(rt; "a link has more micro-steps than were told");
}

#[test]
fn reads_of_neighbours(rt: HostRuntime) -> Result<(), Fail> {
    let reads = Cell::new(0);
    let ready = CountedLinks {
        links: IndexLinks::new(rt.alloc(), 128)?,
        reads: &reads,
    };
    let pend = CountedLinks {
        links: IndexLinks::new(rt.alloc(), 576)?,
        reads: &reads,
    };
    reads_counted(&rt, ready, pend, &reads);
    Ok(())
}
