// The order in which matches were given.

ghost use Rattle.std.specs.Prelude.{◌≡◌, ◌<◌, ℕ, [], ◌∷◌, ◌++◌, length};
ghost use Rattle.kern_model.specs.State.{count_of, without};
ghost use Rattle.links.specs.Nodes.{AreNodes, AreOwn};

use links::{Links, link_next, link_prev, unlink_next, unlink_prev};
use std::marker::Model;

// The node at which the chain of numbers begins and ends.
const HEAD: u16 = 64;

// Links of the numbers 0 to 63 and of the head, in arrays.
#[derive(Drop)]
struct Nodes {
    next: [u16; 65],
    prev: [u16; 65],
    ghost count: { length next ≡ 65 },
    ghost same_count: { length prev ≡ length next },
    ghost next_below: { AreNodes (length next) next },
    ghost prev_below: { AreNodes (length next) prev },
}

impl Links for Nodes {
    ghost nexts = { λ links. links.next };

    ghost prevs = { λ links. links.prev };

    fn next(&self, node: u16) -> u16 {
        self.next[node as usize]
    }

    fn prev(&self, node: u16) -> u16 {
        self.prev[node as usize]
    }

    fn set_next(&mut self, node: u16, to: u16) {
        self.next[node as usize] = to;
    }

    fn set_prev(&mut self, node: u16, to: u16) {
        self.prev[node as usize] = to;
    }

    ghost same_count = { λ links. links.same_count };

    ghost next_below = { λ links. links.next_below };

    ghost prev_below = { λ links. links.prev_below };
}

// Numbers below 64, each at most once, in the order in which they were given: a chain, so that each is
// given and taken back at the same cost.
#[derive(Drop)]
pub(crate) struct Giving {
    nodes: Nodes,
}

impl Model for Giving {
    ghost use Rattle.std.specs.Prelude.{ℕ, List};

    ghost Value = { List ℕ };

    ghost use Rattle.tick_timers.specs.GivingView.{given_by, IsGiven};

    ghost view = { λ a. given_by a.nodes.next };

    ghost invariant = { λ a. IsGiven a.nodes.next a.nodes.prev };
}

impl Giving {
    pub(crate) fn new() -> Giving
        ensures { result ≡ [] }
    {
        Giving {
            nodes: Nodes {
                next: own_numbers(),
                prev: own_numbers(),
            },
        }
    }

    // A number that was not given is given now, as the last.
    pub(crate) fn give(&mut self, number: u8)
        requires number { number < 64 }
        requires fresh { count_of number self.old ≡ 0 }
        ensures { self.new ≡ self.old ++ number ∷ [] }
    {
        let node = number as u16;
        let last = self.nodes.prev(HEAD);
        link_next(&mut self.nodes, last, node);
        let behind = self.nodes.next(node);
        link_prev(&mut self.nodes, behind, node);
    }

    // A number that was given is given no more.
    pub(crate) fn take_back(&mut self, number: u8)
        requires { 0 < count_of number self.old }
        ensures { self.new ≡ without number self.old }
    {
        let node = number as u16;
        let before = self.nodes.prev(node);
        unlink_next(&mut self.nodes, before, node);
        let behind = self.nodes.next(before);
        unlink_prev(&mut self.nodes, behind, node);
    }
}

// For each node its own number.
fn own_numbers() -> [u16; 65]
    ensures { AreOwn 65 result }
{
    let mut numbers = [0; 65];
    for node in 0..65u16 {
        numbers[node as usize] = node;
    }
    numbers
}
