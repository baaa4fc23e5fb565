//! Images that are made of a number, written to files and dumped, over partitions and files in memory.

use crate::partitions::{check, partition, read_sectors};
use fd_fake::MemSite;
use std::alloc::Global;
use std::process::Abort;
use std::test::Fail;

// The dump of 90112 bytes on a partition of 262144.
fn dumps(rt: &impl Abort, alloc: Global, site: &mut MemSite, image: &str) -> Result<Vec<u8>, Fail> {
    check(rt, alloc, site, &["dump", image], 0, "dumped 90112\n")?;
    let mut bytes = vec![in alloc; 0u8; 90112]?;
    read_sectors(rt, site, 171520, &mut bytes);
    Ok(bytes)
}

// An image of the number 7 is written to a file, and the file is dumped.
fn writes_and_dumps(
    rt: &impl Abort,
    alloc: Global,
    site: &mut MemSite,
    arch: &str,
    line: &str,
) -> Result<Vec<u8>, Fail> {
    check(rt, alloc, site, &["image", arch, "7", "a.img"], 0, line)?;
    dumps(rt, alloc, site, "a.img")
}

fn dump_of_file(rt: &impl Abort, alloc: Global, arch: &str, line: &str) -> Result<Vec<u8>, Fail> {
    let mut site = partition(alloc, 262144, 512)?;
    writes_and_dumps(rt, alloc, &mut site, arch, line)
}

fn dump_of_number(rt: &impl Abort, alloc: Global, image: &str) -> Result<Vec<u8>, Fail> {
    let mut site = partition(alloc, 262144, 512)?;
    dumps(rt, alloc, &mut site, image)
}

// The dump of an image that is made, and of its file, is one.
fn are_one(
    rt: &impl Abort,
    alloc: Global,
    arch: &str,
    image: &str,
    line: &str,
) -> Result<(), Fail> {
    let of_file = dump_of_file(rt, alloc, arch, line)?;
    let of_number = dump_of_number(rt, alloc, image)?;
    assert!(rt; of_file.as_slice() == of_number.as_slice());
    Ok(())
}

#[test]
fn an_image_that_is_made_is_dumped_as_its_file_is(rt: HostRuntime) -> Result<(), Fail> {
    let alloc = rt.alloc();
    for (arch, image, line) in [
        ("amd64", "@amd64:7", "image a.img 86098\n"),
        ("arm64", "@arm64:0x7", "image a.img 86098\n"),
        ("riscv", "@riscv:7", "image a.img 82002\n"),
    ]
    .as_slice()
    {
        are_one(&rt, alloc, *arch, *image, *line)?;
    }
    Ok(())
}

// Words that are no command ask nothing of the site.
fn asks_nothing(
    rt: &impl Abort,
    alloc: Global,
    site: &mut MemSite,
    words: &[&str],
) -> Result<(), Fail> {
    check(rt, alloc, site, words, 64, "refused 60: not a command\n")?;
    assert_eq!(rt; site.calls(), 0);
    Ok(())
}

fn is_no_command(rt: &impl Abort, alloc: Global, words: &[&str]) -> Result<(), Fail> {
    let mut site = partition(alloc, 262144, 512)?;
    asks_nothing(rt, alloc, &mut site, words)
}

#[test]
fn an_image_is_named_by_a_file_or_a_number(rt: HostRuntime) -> Result<(), Fail> {
    let alloc = rt.alloc();
    for image in [
        "@",
        "@amd64",
        "@amd64:",
        "@amd64:-1",
        "@amd64:x",
        "@amd64: 1",
        "@amd65:1",
        "@i386:1",
        "amd64:1",
        "@aarch64:1",
        "@@amd64:1",
        "@amd64:1:1",
        "@amd64:18446744073709551616",
        "dumpdev",
        "",
    ]
    .as_slice()
    {
        is_no_command(&rt, alloc, &["dump", *image])?;
    }
    Ok(())
}

#[test]
fn an_image_is_made_of_an_architecture_and_a_number(rt: HostRuntime) -> Result<(), Fail> {
    let alloc = rt.alloc();
    for (arch, number, file) in [
        ("x", "1", "a.img"),
        ("amd64", "one", "a.img"),
        ("amd64", "1", "dumpdev"),
        ("amd64", "1", "@amd64:1"),
    ]
    .as_slice()
    {
        is_no_command(&rt, alloc, &["image", *arch, *number, *file])?;
    }
    Ok(())
}
