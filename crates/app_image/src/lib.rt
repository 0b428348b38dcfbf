//! The image of an application: what it declares, its code and its initial RAM; the check of a raw
//! image; and the binary format that an image is written in and read from.
#![tactic(auto)]

mod causes;
mod checking;
mod header;
mod images;
mod names;
mod naming;
mod parts;
mod reading;
mod records;
mod refusals;
mod settings;
mod writing;

pub use causes::{ImageCause, ImageError};
pub use checking::check;
pub use images::{Image, RawImage, kinds_in};
pub use names::Name;
pub use naming::is_free_name;
pub use parts::read_image;
pub use records::{ObjDef, Symbol, TaskDef, VectorDef};
pub use settings::{Config, ConfigKey, ConfigLine};
pub use writing::write_image;

#[cfg(test)]
mod tests;
