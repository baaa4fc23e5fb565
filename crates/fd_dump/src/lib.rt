//! The minidump of a machine image: which pages are dumped, the six sections, and the header of the dump. Stands on the
//! walks of `fd_walk`, the bits of `fd_bitmap` and the header pages of `fd_mini`; follows FreeBSD's `minidump.h`.
#![tactic(auto)]

mod dumped;
mod header_page;
mod memory;
mod pages;
mod plan;
mod sections;
mod stream;

pub use plan::Plan;
pub use stream::Stream;
