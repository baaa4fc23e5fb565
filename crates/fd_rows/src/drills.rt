//! Drills: the whole way of a dump in one call.

use crate::image_files::{riscv_image, smaller_image};
use crate::partitions::{check_line, partition, read_sectors};
use fd_fake::MemSite;
use std::alloc::Global;
use std::process::Abort;
use std::test::Fail;

const SAVED: &str = "\
saved vmcore.0 32768
ffffffd000001000 00 10 00 80 00 00 00 00
";

const OUTSIDE: &str = "\
saved vmcore.0 32768
refused 24: outside at 0x0000000000000000
";

const NONE: &str = "refused 1: no dump\n";

const OF_AMD64: &str = "\
saved vmcore.0 90112
fffffe0000000000 00 00 00 90 00 07 00 00 08 00 00 90 00 07 00 00
";

const OF_ARM64: &str = "\
saved vmcore.0 90112
ffff000000000000 00 00 00 90 00 07 00 00 08 00 00 90 00 07 00 00
";

const OF_RISCV: &str = "\
saved vmcore.0 90112
ffffffc000000000 00 00 00 90 00 07 00 00 08 00 00 90 00 07 00 00
";

const NOT_MAPPED: &str = "\
saved vmcore.0 90112
refused 21: not mapped at 0xffff000000002000
";

// Of a zero partition: its size and block. The words, the status and the text.
static CASES: [(u64, u32, &str, u8, &str); 16] = [
    (
        106496,
        4096,
        "drill a.img 73 0xffffffd000001000 8",
        0,
        SAVED,
    ),
    (106496, 4096, "drill a.img 73 0 8", 1, OUTSIDE),
    (106496, 4096, "drill a.img 72 0xffffffd000001000 8", 1, NONE),
    (131072, 512, "drill a.img 0 0xffffffd000001000 8", 1, NONE),
    (131072, 512, "drill a.img 65 0xffffffd000001000 8", 1, NONE),
    (131072, 512, "drill a.img 66 0xffffffd000001000 8", 0, SAVED),
    (
        131072,
        512,
        "drill a.img 9223372036854775808 0xffffffd000001000 8",
        0,
        SAVED,
    ),
    (
        98816,
        512,
        "drill a.img 66 0 8",
        65,
        "refused 44: needs 99328 of 98816\n",
    ),
    (
        1000,
        512,
        "drill a.img 66 0 8",
        65,
        "refused 45: partition 1000 block 512\n",
    ),
    (
        262144,
        512,
        "drill @amd64:7 177 0xfffffe0000000000 16",
        1,
        NONE,
    ),
    (
        262144,
        512,
        "drill @amd64:7 178 0xfffffe0000000000 16",
        0,
        OF_AMD64,
    ),
    (
        262144,
        512,
        "drill @arm64:7 177 0xffff000000000000 16",
        1,
        NONE,
    ),
    (
        262144,
        512,
        "drill @arm64:7 178 0xffff000000000000 16",
        0,
        OF_ARM64,
    ),
    (
        262144,
        512,
        "drill @arm64:7 178 0xffff000000002000 16",
        1,
        NOT_MAPPED,
    ),
    (
        262144,
        512,
        "drill @riscv:7 177 0xffffffc000000000 16",
        1,
        NONE,
    ),
    (
        262144,
        512,
        "drill @riscv:7 178 0xffffffc000000000 16",
        0,
        OF_RISCV,
    ),
];

// A zero partition with the files of two images.
fn with_images(alloc: Global, size: u64, block: u32) -> Result<MemSite, Fail> {
    let mut site = partition(alloc, size, block)?;
    site.preset_file("a.img", riscv_image(alloc)?)?;
    site.preset_file("b.img", smaller_image(alloc)?)?;
    Ok(site)
}

fn drills(
    rt: &impl Abort,
    alloc: Global,
    size: u64,
    block: u32,
    words: &str,
    status: u8,
    text: &str,
) -> Result<(), Fail> {
    let mut site = with_images(alloc, size, block)?;
    check_line(rt, alloc, &mut site, words, status, text)
}

#[test]
fn a_drill_reads_what_it_saved(rt: HostRuntime) -> Result<(), Fail> {
    let alloc = rt.alloc();
    for (size, block, words, status, text) in CASES.as_slice() {
        drills(&rt, alloc, *size, *block, *words, *status, *text)?;
    }
    Ok(())
}

// A drill of a smaller dump over one that was saved and cleared, whose leading header stays where it was.
fn drills_over_a_cleared(
    rt: &impl Abort,
    alloc: Global,
    words: &str,
    status: u8,
    text: &str,
) -> Result<(), Fail> {
    let mut site = with_images(alloc, 131072, 512)?;
    check_line(rt, alloc, &mut site, "dump a.img", 0, "dumped 32768\n")?;
    check_line(
        rt,
        alloc,
        &mut site,
        "savecore",
        0,
        "saved vmcore.0 32768\n",
    )?;
    check_line(rt, alloc, &mut site, words, status, text)?;
    let mut leading = [0; 512];
    read_sectors(rt, &mut site, 97280, &mut leading);
    assert!(rt; leading.starts_with(b"FreeBSD Kernel Dump\0"));
    Ok(())
}

#[test]
fn a_drill_over_a_cleared_dump_saves_its_own_or_none(rt: HostRuntime) -> Result<(), Fail> {
    let alloc = rt.alloc();
    for (words, status, text) in [
        (
            "drill b.img 0 0xffffffd000001000 8",
            1,
            "refused 3: cleared dump\n",
        ),
        (
            "drill b.img 57 0xffffffd000001000 8",
            1,
            "refused 3: cleared dump\n",
        ),
        (
            "drill b.img 58 0xffffffd000001000 8",
            0,
            "saved vmcore.1 28672\nffffffd000001000 00 10 00 80 00 00 00 00\n",
        ),
    ]
    .as_slice()
    {
        drills_over_a_cleared(&rt, alloc, *words, *status, *text)?;
    }
    Ok(())
}
