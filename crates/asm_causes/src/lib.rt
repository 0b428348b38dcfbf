//! Why a line of a case text is refused, and where each line begins.
#![tactic(auto)]

mod causes;
mod checks;
mod placing;
mod refusal;

pub use causes::AsmCause;
pub use checks::distance;
pub use placing::{Placed, place_behind, places_of, size_of, space_size};
pub use refusal::cause_of;
