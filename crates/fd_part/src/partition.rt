//! Whether a partition can have a dump, and how many bytes a dump needs.

ghost use Rattle.std.specs.Prelude.{◌≡◌, Some};
ghost use Rattle.fd_part.specs.Partition.{is_good, need_of};
ghost use Rattle.fd_part.specs.Printed.{bad_partition_number, bad_partition_text};

use std::fmt;

/// The bytes at the partition's start that no dump touches (`SIZEOF_METADATA` of `kern_shutdown.c`).
const UNTOUCHED: u128 = 65536;

/// No dump can be written to a partition of `size` bytes with blocks of `block` bytes. It is printed as
/// `partition SIZE block BLOCK`.
#[derive(Clone, Copy, Debug, PartialEq, Eq)]
pub struct BadPartition {
    pub size: u64,
    pub block: u32,
}

impl BadPartition {
    /// The number of the refusal.
    pub fn number(&self) -> u8
        ensures { result ≡ bad_partition_number }
    {
        45
    }
}

impl fmt::Display for BadPartition {
    ghost output = { λ bad. Some (bad_partition_text bad) };

    fn fmt<W: fmt::Write>(&self, f: &mut fmt::Formatter<W>) -> fmt::Result {
        let BadPartition { size, block } = self;
        write!(f, "partition {size} block {block}")
    }
}

/// Whether a dump can be written to a partition of `size` bytes with blocks of `block` bytes: the block is 512,
/// 1024, 2048 or 4096, and the size is a positive multiple of it.
pub fn good_partition(size: u64, block: u32) -> bool
    ensures { result ≡ is_good size block }
{
    matches!(block, 512 | 1024 | 2048 | 4096) && size > 0 && size % u64::from(block) == 0
}

/// How many bytes of a partition a dump of `extent` bytes needs: the untouched ones, itself, and two blocks of `block`
/// bytes for its headers.
pub fn need_of(block: u32, extent: u64) -> u128
    ensures { result ≡ need_of block extent }
{
    UNTOUCHED + u128::from(extent) + 2 * u128::from(block)
}
