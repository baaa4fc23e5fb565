//! Older minidumps, and page tables of four levels of riscv, over partitions and files in memory.

use crate::dumps::refuses;
use crate::image_files::{put_at, sv48_image};
use crate::reads::{minidump, reads, riscv_vmcore, with_vmcore};
use std::alloc::Global;
use std::process::Abort;
use std::test::Fail;

// Some bytes of the minidump of the image with four levels.
fn is_of_sv48(rt: &impl Abort, vmcore: &[u8]) {
    assert_eq!(rt; vmcore.len(), 45056);
    assert_eq!(rt;
        &vmcore[16384..16400],
        b"\xcf\0\0\x20\0\0\0\0\xcf\x04\0\x20\0\0\0\0".as_slice()
    );
}

// The minidump of the image with four levels, in which all six pages are mapped.
fn sv48_vmcore(rt: &impl Abort, alloc: Global) -> Result<Vec<u8>, Fail> {
    let vmcore = minidump(rt, alloc, sv48_image(alloc)?, 85504, 45056)?;
    is_of_sv48(rt, &vmcore);
    Ok(vmcore)
}

#[test]
fn four_levels_of_riscv_are_dumped_and_read(rt: HostRuntime) -> Result<(), Fail> {
    let alloc = rt.alloc();
    let mut site = with_vmcore(alloc, sv48_vmcore(&rt, alloc)?)?;
    reads(
        &rt,
        alloc,
        &mut site,
        &[(
            "0xffff800080000800",
            "8",
            0,
            "ffff800080000800 cf 00 00 00 00 00 00 00\n",
        )],
    )
}

#[test]
fn a_kernel_below_its_levels_breaks_a_rule(rt: HostRuntime) -> Result<(), Fail> {
    let alloc = rt.alloc();
    let mut image = sv48_image(alloc)?;
    put_at(&mut image, 20, &[3]);
    refuses(&rt, alloc, 131072, image, "refused 43: rule 12 at 0\n")
}

// Reads of a file.
fn answers(
    rt: &impl Abort,
    alloc: Global,
    vmcore: Vec<u8>,
    case: (&str, &str, u8, &str),
) -> Result<(), Fail> {
    let mut site = with_vmcore(alloc, vmcore)?;
    reads(rt, alloc, &mut site, &[case])
}

// The header page and the messages, the bitmap and the pages.
fn put_first(first: &mut [u8], vmcore: &[u8]) -> Result<(), Fail> {
    let front = vmcore.get(..8192).ok_or("a front")?;
    let pages = vmcore.get(20480..).ok_or("dumped pages")?;
    put_at(first, 0, front);
    put_at(first, 24, &1_u32.to_le_bytes());
    put_at(first, 32, &69632_u32.to_le_bytes());
    put_at(first, 8192 + 65536, &[0x16]);
    put_at(first, 81920, pages);
    Ok(())
}

// The minidump of riscv's image as version 1 has it: without ranges, and with a bit for each page of memory.
fn first_riscv(rt: &impl Abort, alloc: Global, length: usize) -> Result<Vec<u8>, Fail> {
    let vmcore = riscv_vmcore(rt, alloc)?;
    let mut first = vec![in alloc; 0u8; length]?;
    put_first(&mut first, &vmcore)?;
    Ok(first)
}

#[test]
fn the_first_version_of_riscv_has_no_ranges(rt: HostRuntime) -> Result<(), Fail> {
    let alloc = rt.alloc();
    let line = "ffffffd000002008 08 20 00 80 00 00 00 00\n";
    let case = ("0xffffffd000002008", "8", 0, line);
    answers(&rt, alloc, first_riscv(&rt, alloc, 94208)?, case)
}

#[test]
fn a_file_of_the_first_version_may_be_short(rt: HostRuntime) -> Result<(), Fail> {
    let alloc = rt.alloc();
    let line = "refused 50: short, needs 94208 of 94207\n";
    let case = ("0xffffffd000002008", "8", 65, line);
    answers(&rt, alloc, first_riscv(&rt, alloc, 94207)?, case)
}

// A header page, a bit, an entry and a page.
fn put_older(file: &mut [u8], version: u8) {
    put_at(file, 0, b"minidump FreeBSD/amd64");
    put_at(file, 24, &[version]);
    put_at(file, 32, &4096_u32.to_le_bytes());
    put_at(file, 36, &4096_u32.to_le_bytes());
    put_at(file, 40, &0xfffffe0000000000_u64.to_le_bytes());
    put_at(file, 4096, &[2]);
    put_at(file, 8216, &0x1003_u64.to_le_bytes());
    put_at(file, 12304, &[0xab, 0xcd]);
}

// A minidump of amd64 of an older version, whose directory has at its fourth place an entry of a page.
fn older_amd64(alloc: Global, version: u8) -> Result<Vec<u8>, Fail> {
    let mut file = vec![in alloc; 0u8; 16384]?;
    put_older(&mut file, version);
    Ok(file)
}

#[test]
fn the_first_version_of_amd64_has_entries_of_pages(rt: HostRuntime) -> Result<(), Fail> {
    let alloc = rt.alloc();
    let line = "fffffe0000003010 ab cd\n";
    let case = ("0xfffffe0000003010", "2", 0, line);
    answers(&rt, alloc, older_amd64(alloc, 1)?, case)
}

#[test]
fn the_second_version_of_amd64_has_entries_of_2_mib(rt: HostRuntime) -> Result<(), Fail> {
    let alloc = rt.alloc();
    let line = "refused 21: not mapped at 0xfffffe0000003010\n";
    let case = ("0xfffffe0000003010", "2", 1, line);
    answers(&rt, alloc, older_amd64(alloc, 2)?, case)
}
