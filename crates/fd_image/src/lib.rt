//! The machine image: what a machine's memory held, with its page tables, ranges and texts, valid
//! by its type. Physical memory is read as words and pages at physical addresses.
//! The image and its fifteen rules are this project's own format.
#![tactic(auto)]

mod image;
mod memory;
mod parts;
mod rules;
mod sequence;
mod typed;

pub use image::Image;
pub use memory::Memory;
pub use parts::{Parts, Seg, Texts, Windows};
pub use rules::BadImage;
pub use sequence::Sequence;
