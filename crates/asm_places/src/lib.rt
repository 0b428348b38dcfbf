//! What the names of a case text stand for, and the places where its lines begin.
#![tactic(auto)]

mod line_places;
mod names;
mod operands;
mod places;
mod symbols;

pub use line_places::LinePlaces;
pub use names::{Names, counted, definition_of, meaning, names_of};
pub use operands::{
    constant_in, constant_of, fits_low, fits_shift, fits_upper, offset_of, target_in, value_of,
    word_of,
};
pub use places::{Counts, Definition, Meaning, NO_COUNTS, NO_PLACE, Place};
pub use symbols::define_symbols;
