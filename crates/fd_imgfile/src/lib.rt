//! The file of a machine image: the image's one spelling, written, and read back with a named refusal of every other
//! file. Stands on `fd_image` for the image, on `fd_raw` for its memory and on `fd_site` for the file. The format is this project's own.
#![tactic(auto)]

mod fault;
mod front;
pub mod laws;
mod read;
mod tables;
mod write;

pub use fault::ImageFault;
pub use read::read_image;
pub use write::write_image;
