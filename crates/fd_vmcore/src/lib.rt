//! The sections of a saved minidump: its header page, its ranges, its bitmap, and where the page of a physical address
//! stands in the file. Stands on `fd_site` for the file, `fd_mini` and `fd_bitmap`; follows FreeBSD's `minidump.h`.
#![tactic(auto)]

mod open;
mod parts;
mod sections;

pub use open::OpenFault;
pub use sections::Core;
