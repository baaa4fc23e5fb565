//! Page table entries of AMD64 long mode, of Arm's 4 KiB granule and of RISC-V: what an entry
//! stands for at its height, which accesses it allows, and a large leaf as entries of a page
//! directory. Stands on `fd_bytes` for the names of the architectures; follows their manuals.
#![tactic(auto)]

mod amd64;
mod architecture;
mod arm64;
mod bits;
mod entry;
mod riscv;
#[cfg(test)]
mod tests;

pub use amd64::Amd64;
pub use architecture::{directory_height, entry_kind};
pub use arm64::Arm64;
pub use entry::{Entry, Kind};
pub use riscv::Riscv;
