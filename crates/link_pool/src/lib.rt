//! Nodes that are linked by raw pointers, all in one block of memory.
//!
//! A node keeps its own number and two pointers to nodes of the block. To read a link is to follow a
//! pointer and tell the number of the node behind it, to set one is to write the address of a node; no
//! pointer becomes a number. The block is taken by `new` and given back once, when the links are dropped.
#![tactic(auto)]

mod node;
mod raw_links;
mod row;

pub use raw_links::RawLinks;
