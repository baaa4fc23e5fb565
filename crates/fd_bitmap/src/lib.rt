//! The pages of a minidump: ranges of physical memory give each of their pages a bit, in order, a bitmap
//! says which of them are dumped, and a counter of steps bounds how often a call looks at its bits.
//! Stands on std alone. Follows FreeBSD's `dump_avail` and its bits (`sys/vm/vm_dumpset.h`).
#![tactic(auto)]

mod avail;
mod bitmap;
pub mod laws;
mod rank;
mod steps;
mod words;

pub use avail::{Avail, AvailFault};
pub use bitmap::Bitmap;
pub use rank::RankIndex;
pub use steps::{Counted, Steps};
pub use words::Words;
