//! The law of the listing: it assembles back.
#![tactic(auto)]

mod laws;

pub use laws::listing_assembles_back;
