//! The lines of a case text: what each begins with, and the statement that it is.
#![tactic(auto)]

mod fields;
mod forms;
mod lines;
mod mnemonics;
mod pieces;
mod placing;
mod registers;
mod statements;
mod tables;
mod words;

pub use fields::Fields;
pub use lines::{Reading, read};
pub use mnemonics::Section;
pub use pieces::{Operand, Piece, Span, make_piece, spelling};
pub use placing::placing_lines;
pub use statements::{Line, Statement};
pub use words::settings;
