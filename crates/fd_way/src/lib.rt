//! The whole way of a dump: what reading and walking an image's minidump give is what the image gives, the texts in which
//! bytes and pages are printed, and one call that writes a dump or its first sectors, saves it and reads it back. Stands on
//! the definitions of `fd_dump` and of `fd_kvm`, on the writer of `fd_part` and on `fd_save`; reads as kvm(3) does.
#![tactic(auto)]

mod drilling;
mod first_sectors;
pub mod laws;
mod pages;
mod print;
mod print_fault;
mod savecore;
mod saved_file;
mod text;
mod way_fault;

pub use drilling::drill;
pub use pages::{PagesFault, print_pages};
pub use print::print_read;
pub use print_fault::PrintFault;
pub use saved_file::saved_line;
pub use text::read_text;
pub use way_fault::{Drilled, WayFault};
