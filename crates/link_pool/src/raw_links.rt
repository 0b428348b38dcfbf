// Links by raw pointers.

ghost use Rattle.std.specs.Prelude.{◌≡◌, ◌≤◌, length, IfOk};
ghost use Rattle.links.specs.Nodes.{AreOwn};
ghost use Rattle.link_pool.specs.Linked.{IsLinked, AreOwnNodes, next_places, prev_places};

use crate::node::Node;
use crate::row::{Lease, Row, release, reserve};
use links::{Links, NoMemory};
use std::alloc::Global;

/// Links by raw pointers between nodes that lie in one block of memory.
pub struct RawLinks {
    nodes: Row<Node>,
    lease: Lease<Node, Global>,
    alloc: Global,
    ghost leased: { (lease.ptr ≡ nodes.ptr) × (lease.len ≡ nodes.len) × (lease.alloc ≡ alloc) },
    ghost linked: { IsLinked nodes.ptr nodes.len nodes.items nodes.filled },
}

// Writes the first `n` nodes, each its own next and previous node.
fn link_own(nodes: &mut Row<Node>, n: u16)
    requires { nodes.old.len ≡ n }
    ensures own { AreOwnNodes n nodes.new.ptr nodes.new.items nodes.new.filled }
    ensures places { (nodes.new.ptr ≡ nodes.old.ptr) × (nodes.new.len ≡ nodes.old.len) }
{
    for number in 0..n {
        let own = nodes.address(number as usize);
        nodes.put(
            number as usize,
            Node {
                number,
                next: own,
                prev: own,
            },
        );
    }
}

impl RawLinks {
    /// Links in which each of the `n` nodes is its own next and previous node.
    pub fn new(alloc: Global, n: u16) -> Result<RawLinks, NoMemory>
        ensures nexts { IfOk result (λ links. AreOwn n (⟦<RawLinks as Links>⟧.nexts links)) }
        ensures prevs { IfOk result (λ links. AreOwn n (⟦<RawLinks as Links>⟧.prevs links)) }
    {
        match reserve(&alloc, n as usize) {
            Ok((mut nodes, lease)) => {
                link_own(&mut nodes, n);
                Ok(RawLinks {
                    nodes,
                    lease,
                    alloc,
                })
            }
            Err(_) => Err(NoMemory),
        }
    }
}

impl Links for RawLinks {
    ghost nexts = { λ links. next_places links.nodes.ptr links.nodes.items };

    ghost prevs = { λ links. prev_places links.nodes.ptr links.nodes.items };

    fn next(&self, node: u16) -> u16 {
        let to = self.nodes.get(node as usize).next;
        self.nodes.follow(to).number
    }

    fn prev(&self, node: u16) -> u16 {
        let to = self.nodes.get(node as usize).prev;
        self.nodes.follow(to).number
    }

    fn set_next(&mut self, node: u16, to: u16) {
        let next = self.nodes.address(to as usize);
        let old = *self.nodes.get(node as usize);
        self.nodes.put(node as usize, Node { next, ..old });
    }

    fn set_prev(&mut self, node: u16, to: u16) {
        let prev = self.nodes.address(to as usize);
        let old = *self.nodes.get(node as usize);
        self.nodes.put(node as usize, Node { prev, ..old });
    }

    ghost use Rattle.link_pool.specs.LinkedFacts.{prev_count, next_below, prev_below};

    ghost same_count = { λ links. prev_count links.nodes.ptr links.nodes.items };

    ghost next_below = { λ links. next_below links.nodes.ptr links.nodes.len links.nodes.items links.nodes.filled links.nodes.ok.0 links.linked };

    ghost prev_below = { λ links. prev_below links.nodes.ptr links.nodes.len links.nodes.items links.nodes.filled links.nodes.ok.0 links.linked };
}

impl Drop for RawLinks {
    fn drop(self) {
        let RawLinks {
            nodes,
            lease,
            alloc,
        } = self;
        release(&alloc, nodes, lease);
    }
}
