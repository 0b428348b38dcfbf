//! The listing of an image that assembles back: a case text whose case is the same image.
#![tactic(auto)]

mod declarations;
mod forms;
mod listing;
mod pieces;
mod words;

pub use listing::write_listing;
pub use pieces::hex_digits;
pub use words::line_of_word;

#[cfg(test)]
mod tests;
