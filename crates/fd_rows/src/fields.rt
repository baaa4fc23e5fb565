//! Files that are cut at each section's first and last byte, and with the greatest number in each field: the image of
//! riscv and its minidump.

use crate::dumps::{refuses, with_image};
use crate::image_files::riscv_image;
use crate::partitions::check;
use crate::reads::{reads_one_byte, refuses_cut, riscv_vmcore};
use std::alloc::Global;
use std::process::Abort;
use std::test::Fail;

// An image of which only the first bytes are there is refused at its end.
fn is_cut(rt: &impl Abort, alloc: Global, length: usize) -> Result<(), Fail> {
    let mut image = riscv_image(alloc)?;
    image.truncate(length);
    let line = format!(in alloc; "refused 42: not an image at {length}\n")?;
    refuses(rt, alloc, 131072, image, line.as_str())
}

#[test]
fn an_image_that_is_cut_anywhere_is_refused_at_its_end(rt: HostRuntime) -> Result<(), Fail> {
    let alloc = rt.alloc();
    // The fields, the segment, the pair, the wanted pages, the four texts, the segment's bytes.
    for length in [
        0, 111, 112, 127, 128, 143, 144, 167, 168, 169, 170, 179, 180, 183, 184, 195, 196, 24771,
    ]
    .as_slice()
    {
        is_cut(&rt, alloc, *length)?;
    }
    Ok(())
}

// Fills the bytes from a place on with ones.
fn fill(bytes: &mut [u8], at: usize, count: usize) {
    for byte in bytes.iter_mut().skip(at).take(count) {
        *byte = 255;
    }
}

// `dump` of the image with the greatest number in a field.
fn with_greatest(
    rt: &impl Abort,
    alloc: Global,
    field: (usize, usize),
    status: u8,
    line: &str,
) -> Result<(), Fail> {
    let (at, count) = field;
    let mut image = riscv_image(alloc)?;
    fill(&mut image, at, count);
    let mut site = with_image(alloc, 131072, Vec::new(alloc), image)?;
    check(rt, alloc, &mut site, &["dump", "a.img"], status, line)
}

// Such a field of four bytes is named by its place.
fn is_no_image_with_greatest(rt: &impl Abort, alloc: Global, at: usize) -> Result<(), Fail> {
    let line = format!(in alloc; "refused 42: not an image at {at}\n")?;
    with_greatest(rt, alloc, (at, 4), 65, line.as_str())
}

#[test]
fn each_field_of_an_image_has_its_refusal(rt: HostRuntime) -> Result<(), Fail> {
    let alloc = rt.alloc();
    for at in [16, 20, 24, 28, 32, 36, 40, 44, 48, 52].as_slice() {
        is_no_image_with_greatest(&rt, alloc, *at)?;
    }
    for (at, status, line) in [
        (56, 65, "refused 43: rule 10 at 0\n"),
        (64, 65, "refused 43: rule 11 at 0\n"),
        (72, 65, "refused 43: rule 11 at 0\n"),
        (80, 65, "refused 43: rule 13 at 0\n"),
        (88, 65, "refused 43: rule 13 at 0\n"),
        (96, 65, "refused 43: rule 13 at 0\n"),
        (104, 0, "dumped 32768\n"),
        (112, 65, "refused 43: rule 2 at 0\n"),
        (120, 65, "refused 42: not an image at 24772\n"),
        (128, 65, "refused 43: rule 6 at 0\n"),
        (136, 65, "refused 43: rule 6 at 0\n"),
        (144, 65, "refused 43: rule 9 at 0\n"),
        (152, 65, "refused 43: rule 9 at 1\n"),
        (160, 65, "refused 43: rule 9 at 2\n"),
    ]
    .as_slice()
    {
        with_greatest(&rt, alloc, (*at, 8), *status, *line)?;
    }
    Ok(())
}

// The header page; then the messages, the ranges, the bitmap and the directory; then the pages.
fn is_short_anywhere(rt: &impl Abort, alloc: Global, vmcore: &[u8]) -> Result<(), Fail> {
    let in_header = [0, 1, 4094, 4095];
    each_length_is_short(rt, alloc, vmcore, 4096, &in_header)?;
    let in_sections = [4096, 8191, 8192, 12287, 12288, 16383, 16384, 20479];
    each_length_is_short(rt, alloc, vmcore, 20480, &in_sections)?;
    let in_pages = [20480, 24575, 24576, 28671, 28672, 32767];
    each_length_is_short(rt, alloc, vmcore, 32768, &in_pages)
}

#[test]
fn a_vmcore_that_is_cut_anywhere_is_short(rt: HostRuntime) -> Result<(), Fail> {
    let alloc = rt.alloc();
    is_short_anywhere(&rt, alloc, &riscv_vmcore(&rt, alloc)?)
}

fn each_length_is_short(
    rt: &impl Abort,
    alloc: Global,
    vmcore: &[u8],
    need: usize,
    lengths: &[usize],
) -> Result<(), Fail> {
    for have in lengths {
        let line = format!(in alloc; "refused 50: short, needs {need} of {have}\n")?;
        refuses_cut(rt, alloc, vmcore, *have, line.as_str())?;
    }
    Ok(())
}

// A read of one byte of a vmcore with the greatest number in a field.
fn reads_with_greatest(
    rt: &impl Abort,
    alloc: Global,
    vmcore: &[u8],
    field: (usize, usize),
    status: u8,
    line: &str,
) -> Result<(), Fail> {
    let (at, count) = field;
    let mut changed = vmcore.to_vec(alloc)?;
    fill(&mut changed, at, count);
    reads_one_byte(rt, alloc, changed, status, line)
}

fn each_field_has_its_answer(rt: &impl Abort, alloc: Global, vmcore: &[u8]) -> Result<(), Fail> {
    for (at, count, status, line) in [
        (24, 4, 65, "refused 47: minidump version 4294967295\n"),
        (28, 4, 65, "refused 50: short, needs 4294983680 of 32768\n"),
        (32, 4, 65, "refused 49: bitmapsize 4294967295\n"),
        (36, 4, 65, "refused 50: short, needs 4294983680 of 32768\n"),
        (40, 8, 0, "ffffffd000001000 00\n"),
        (48, 8, 1, "refused 23: not dumped at 0xffffffd000001000\n"),
        (56, 8, 1, "refused 24: outside at 0xffffffd000001000\n"),
        (64, 8, 0, "ffffffd000001000 00\n"),
        (72, 4, 65, "refused 49: dumpavailsize 4294967295\n"),
        (8192, 8, 65, "refused 51: range 0\n"),
        (8200, 8, 0, "ffffffd000001000 00\n"),
        (8208, 8, 0, "ffffffd000001000 00\n"),
        (8216, 8, 65, "refused 51: range 1\n"),
    ]
    .as_slice()
    {
        reads_with_greatest(rt, alloc, vmcore, (*at, *count), *status, *line)?;
    }
    Ok(())
}

#[test]
fn each_field_of_a_vmcore_has_its_answer(rt: HostRuntime) -> Result<(), Fail> {
    let alloc = rt.alloc();
    each_field_has_its_answer(&rt, alloc, &riscv_vmcore(&rt, alloc)?)
}
