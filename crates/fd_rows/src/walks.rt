//! Lists of the pages of saved minidumps, over files in memory.

use crate::partitions::check;
use crate::reads::{amd64_vmcore, riscv_vmcore, with_u32, with_vmcore};
use std::alloc::Global;
use std::process::Abort;
use std::test::Fail;

// The pages of the minidump of amd64's image.
pub(crate) const OF_AMD64: &str = "\
00000000401ff000 fffffe00001ff000 fffff800401ff000 rwx 36864
0000000040200000 fffffe0000200000 fffff80040200000 rwx 40960
0000000000104000 fffffe0040000000 fffff80000104000 rwx 28672
0000000000105000 fffffe0040001000 fffff80000105000 r-- 32768
0000000000100000 - fffff80000100000 rw- 20480
0000000000103000 - fffff80000103000 rw- 24576
6 pages
";

// The pages of the minidump of riscv's image, where its ranges are read as the bitmap.
const WITHOUT_RANGES: &str = "\
000000000001f000 - - rw- 16384
000000000004d000 - - rw- 20480
000000000004e000 - - rw- 24576
000000000005f000 - - rw- 28672
4 pages
";

fn lists(rt: &impl Abort, alloc: Global, vmcore: Vec<u8>, text: &str) -> Result<(), Fail> {
    let mut site = with_vmcore(alloc, vmcore)?;
    check(rt, alloc, &mut site, &["pages", "vmcore.0"], 0, text)
}

#[test]
fn the_pages_of_amd64_are_listed(rt: HostRuntime) -> Result<(), Fail> {
    let alloc = rt.alloc();
    lists(&rt, alloc, amd64_vmcore(&rt, alloc)?, OF_AMD64)
}

#[test]
fn pages_of_a_file_without_ranges_are_listed(rt: HostRuntime) -> Result<(), Fail> {
    let alloc = rt.alloc();
    let vmcore = riscv_vmcore(&rt, alloc)?;
    lists(&rt, alloc, with_u32(alloc, &vmcore, 72, 0)?, WITHOUT_RANGES)
}
