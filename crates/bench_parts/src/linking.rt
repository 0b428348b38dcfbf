// Links of a ready list made and removed, by number and by raw pointer.

ghost use Rattle.std.specs.Prelude.{◌≤◌};
ghost use Rattle.links.specs.Nodes.{AreOwn};

use anyhow::Result;
use kern_base::{Prio, TaskId};
use link_pool::RawLinks;
use links::{IndexLinks, Links};
use ready_list::ReadyList;
use std::alloc::Global;

// One of four tasks joins the list of so many others and leaves it, so often: the sum of the nodes that stood behind it.
fn join_and_leave<L: Links>(links: L, others: u8, count: usize) -> usize
    requires fresh { AreOwn 128 (L.nexts links) × AreOwn 128 (L.prevs links) }
    requires few { others ≤ 60 }
{
    let mut ready = ReadyList::new(links);
    let prio = Prio((count % 64) as u8);
    for task in 0..others {
        ready.insert(TaskId(task), prio, prio);
    }
    let mut sum: usize = 0;
    for turn in 0..count {
        let task = TaskId(60 + (turn % 4) as u8);
        ready.insert(task, prio, prio);
        sum = sum.wrapping_add(usize::from(ready.successor(u16::from(task.0))));
        ready.remove(task, prio);
    }
    sum
}

/// So many joins and leaves among so many others, linked by numbers.
pub fn by_number(alloc: Global, others: u8, count: usize) -> Result<usize>
    requires { others ≤ 60 }
{
    let Ok(links) = IndexLinks::new(alloc, 128) else {
        anyhow::bail!("no memory for the links");
    };
    Ok(join_and_leave(links, others, count))
}

/// The same, linked by raw pointers.
pub fn by_pointer(alloc: Global, others: u8, count: usize) -> Result<usize>
    requires { others ≤ 60 }
{
    let Ok(links) = RawLinks::new(alloc, 128) else {
        anyhow::bail!("no memory for the links");
    };
    Ok(join_and_leave(links, others, count))
}
