//! Partitions in memory, and the header of a dump on them.

ghost use Rattle.std.specs.Prelude.{◌≡◌, [], length, IfOk};
ghost use Rattle.fd_kdh.specs.Header.{FitsFields};

use fd_bytes::{Arch, Label};
use fd_fake::MemSite;
use fd_kdh::Header;
use std::alloc::{AllocError, Global};

// The header of a dump of so many bytes of a riscv machine.
pub(crate) fn header(block: u32, extent: u64) -> Header
    ensures labels { FitsFields result }
    ensures dumplength { result.dumplength ≡ extent }
    ensures dumpextent { result.dumpextent ≡ extent }
    ensures block { result.blocksize ≡ block }
{
    Header {
        architecture: Label::cut(Arch::Riscv.name()),
        architectureversion: Arch::Riscv.header_version(),
        dumplength: extent,
        dumptime: 1_700_000_000,
        dumpkeysize: 0,
        blocksize: block,
        hostname: Label::cut(b"rv"),
        versionstring: Label::cut_version(b"FreeBSD 14"),
        panicstring: Label::cut(b"test"),
        compression: 0,
        dumpextent: extent,
    }
}

// The header of a dump of 32768 bytes on a partition with blocks of 512.
pub(crate) fn small() -> Header
    ensures { FitsFields result }
{
    header(512, 32768)
}

// A zero partition of which the calls of these numbers fail.
pub(crate) fn failing_partition(
    alloc: Global,
    size: u64,
    block: u32,
    fails: Vec<u64>,
) -> Result<MemSite, AllocError>
    ensures fresh { IfOk result (λ site. site.disk.journal ≡ []) }
    ensures size { IfOk result (λ site. length site.disk.base_part ≡ size) }
{
    MemSite::new(alloc, size, block, fails)
}

// A zero partition.
pub(crate) fn partition(alloc: Global, size: u64, block: u32) -> Result<MemSite, AllocError>
    ensures fresh { IfOk result (λ site. site.disk.journal ≡ []) }
    ensures size { IfOk result (λ site. length site.disk.base_part ≡ size) }
{
    failing_partition(alloc, size, block, Vec::new(alloc))
}
