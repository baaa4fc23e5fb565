//! The header of a FreeBSD kernel dump, version 4: 512 bytes that stand before and after a dump and
//! say what it is. `encode` writes them and `decode` reads them or names the first fault, and the
//! law in `laws` says that each header is read back as it was written.
//!
//! It stands on the fields and labels of `fd_bytes`, and follows `sys/kerneldump.h`.
#![tactic(auto)]

mod decoding;
mod encoding;
mod header;
pub mod laws;
mod layout;
mod parity;
#[cfg(test)]
mod tests;

pub use decoding::decode;
pub use encoding::encode;
pub use header::{CLEARED_MAGIC, Header, HeaderFault, LIVE_MAGIC, TEXT_MAGIC};
