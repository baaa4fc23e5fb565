//! Walks of page tables: what an address is mapped to, the pages of a minidump's directory, and the
//! leaves and last-level tables of a range. One body serves every architecture of `fd_pte`, over any
//! `Memory` of `fd_image`; no call takes memory. The walk follows the architectures' manuals, the
//! directory FreeBSD's `minidump.h`.
#![tactic(auto)]

mod address;
mod directory;
mod leaf;
mod leaves;
mod range_walk;
mod rest;
mod step;
mod tables;
#[cfg(test)]
mod tests;
mod walker;

pub use leaf::Leaf;
pub use leaves::Leaves;
pub use range_walk::RangeWalk;
pub use step::Step;
pub use tables::Tables;
pub use walker::Walker;
