//! The header page of a minidump, and the places of the sections that follow it: `struct minidumphdr` of `minidump.h`, of
//! amd64 and arm64 in versions 1 to 3 and of riscv in versions 1 and 2. Each is read, and the current one is written. What
//! a read of kernel addresses gives is defined here too, for images and for files alike. Stands on `fd_bytes`.
#![tactic(auto)]

mod address_fault;
mod header;
mod law;
mod layout;
mod mini_fault;
mod places;
mod read;
mod write;

pub use address_fault::AddressFault;
pub use header::MiniHeader;
pub use law::each_header_is_read_back;
pub use layout::{entry_height_of, has_version, is_current, unit_of};
pub use mini_fault::{MiniFault, MiniField};
pub use places::{Places, places_of, rounded_up};
pub use read::read_header;
pub use write::write_header;
