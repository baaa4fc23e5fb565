//! How a dump is to be saved, and what was.

use fd_kdh::Header;

/// How a dump is to be saved.
#[derive(Clone, Copy, Debug, PartialEq, Eq)]
pub struct Options {
    /// Whether a dump that was cleared counts as one to be saved.
    pub force: bool,
    /// How many numbers are used in turn, from 1 to 65536. With None all are, and no file of a dump is written over.
    pub max: Option<u32>,
}

/// A dump that was saved.
#[derive(Drop)]
pub struct Saved {
    /// The number of its files.
    pub number: u32,
    /// Where it begins on the partition, in bytes.
    pub at: u64,
    /// Its header.
    pub header: Header,
    /// The first 512 bytes of the trailing block, as they were read.
    pub sector: [u8; 512],
}
