//! Memory that is lent: a block of bytes on the heap, which a reader fills and a writer takes from without a
//! copy between them.
//!
//! A `Region` is a list of bytes. A `Filling` is a region in the making: it takes its memory once, and then
//! grows by zeros, so that each part can be filled while it is still in the processor's cache.
//!
//! All raw pointers are in `cells`.
#![tactic(auto)]

mod cells;
mod filling;
mod region;
#[cfg(test)]
mod tests;

pub use filling::Filling;
pub use region::Region;
