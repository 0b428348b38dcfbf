// Links that count how often a neighbour is read.

use links::{IndexLinks, Links};
use std::cell::Cell;

/// Links that count the calls of `next` and `prev`.
#[derive(Drop)]
pub struct CountedLinks<'a> {
    /// The links that are read and set.
    pub links: IndexLinks,
    /// How many neighbours were read, modulo 2^32.
    pub reads: &'a Cell<u32>,
}

impl<'a> Links for CountedLinks<'a> {
    ghost nexts = { λ a. ⟦<IndexLinks as Links>⟧.nexts a.links };

    ghost prevs = { λ a. ⟦<IndexLinks as Links>⟧.prevs a.links };

    fn next(&self, node: u16) -> u16 {
        self.reads.set(self.reads.get().wrapping_add(1));
        self.links.next(node)
    }

    fn prev(&self, node: u16) -> u16 {
        self.reads.set(self.reads.get().wrapping_add(1));
        self.links.prev(node)
    }

    fn set_next(&mut self, node: u16, to: u16) {
        self.links.set_next(node, to);
    }

    fn set_prev(&mut self, node: u16, to: u16) {
        self.links.set_prev(node, to);
    }

    ghost same_count = { λ a. a.links.same_count };

    ghost next_below = { λ a. a.links.next_below };

    ghost prev_below = { λ a. a.links.prev_below };
}
