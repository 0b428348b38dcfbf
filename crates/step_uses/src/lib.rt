//! Whole steps, made on the lists and by the kernel one micro-step at a time, over both kinds of links and over links that count
//! what is read.
#![tactic(auto)]

mod counted_links;
#[cfg(test)]
mod kernel_tests;
#[cfg(test)]
mod rows;
#[cfg(test)]
mod tests;

pub use counted_links::CountedLinks;
