// Links that are kept as two lists of numbers.

ghost use Rattle.std.specs.Prelude.{◌≡◌, length, IfOk};
ghost use Rattle.links.specs.Nodes.{AreNodes, AreOwn};

use crate::{Links, NoMemory};
use std::alloc::Global;

/// Links that are kept as two lists of numbers.
#[derive(Drop)]
pub struct IndexLinks {
    next: Vec<u16>,
    prev: Vec<u16>,
    ghost same_count: { length prev.items ≡ length next.items },
    ghost next_below: { AreNodes (length next.items) next.items },
    ghost prev_below: { AreNodes (length next.items) prev.items },
}

// The numbers below `n`, in order.
fn numbers(alloc: Global, n: u16) -> Result<Vec<u16>, NoMemory>
    ensures { IfOk result (λ v. AreOwn n v.items) }
{
    let mut v = match Vec::with_capacity(alloc, n as usize) {
        Ok(v) => v,
        Err(_) => return Err(NoMemory),
    };
    for i in 0..n {
        if v.push(i).is_err() {
            return Err(NoMemory);
        }
    }
    Ok(v)
}

impl IndexLinks {
    /// Links in which each of the `n` nodes is its own next and previous node.
    pub fn new(alloc: Global, n: u16) -> Result<IndexLinks, NoMemory>
        ensures nexts { IfOk result (λ links. AreOwn n (⟦<IndexLinks as Links>⟧.nexts links)) }
        ensures prevs { IfOk result (λ links. AreOwn n (⟦<IndexLinks as Links>⟧.prevs links)) }
    {
        let next = numbers(alloc, n)?;
        let prev = numbers(alloc, n)?;
        Ok(IndexLinks { next, prev })
    }
}

impl Links for IndexLinks {
    ghost nexts = { λ links. links.next.items };

    ghost prevs = { λ links. links.prev.items };

    fn next(&self, node: u16) -> u16 {
        self.next[node as usize]
    }

    fn prev(&self, node: u16) -> u16 {
        self.prev[node as usize]
    }

    fn set_next(&mut self, node: u16, to: u16) {
        self.next[node as usize] = to;
    }

    fn set_prev(&mut self, node: u16, to: u16) {
        self.prev[node as usize] = to;
    }

    ghost same_count = { λ links. links.same_count };

    ghost next_below = { λ links. links.next_below };

    ghost prev_below = { λ links. links.prev_below };
}
