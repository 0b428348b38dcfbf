//! The reader of ELF32 executables for RISC-V: the code, the initial RAM and the symbols that one
//! gives, and where the text behind it begins; or the first cause of its refusal.
#![tactic(auto, using(app_image::proofs::RowLaws::rows_push, app_image::proofs::RowLaws::rows_next, app_image::proofs::RowLaws::rows_end))]

mod causes;
mod executables;
mod loading;
mod numbers;
mod segments;
mod strings;
mod symbols;
mod tables;

pub use causes::{ElfCause, ElfError};
pub use executables::{ElfApp, read_elf};

#[cfg(test)]
mod tests;
