//! A small image's file, written and read, and files that are almost one.
ghost use Rattle.std.specs.Prelude.{◌+◌, ◌*◌, ◌≤◌, length};

use fd_bytes::Arch;
use fd_fake::MemSite;
use fd_image::{BadImage, Image, Windows};
use fd_imgfile::{ImageFault, read_image, write_image};
use fd_site::{Failed, Site, good_name};
use std::alloc::{AllocError, Global};
use std::process::Abort;
use std::test::Fail;

const START: u64 = 0x8000_0000;

const LEN: usize = 196 + 0x6000;

fn put_u32s(file: &mut [u8], at: usize, numbers: &[u32])
    requires { at + 4 * length numbers.now ≤ length file.old }
{
    for (i, number) in numbers.iter().enumerate() {
        file[at + 4 * i..at + 4 * i + 4].copy_from_slice(&number.to_le_bytes());
    }
}

fn put_u64s(file: &mut [u8], at: usize, numbers: &[u64])
    requires { at + 8 * length numbers.now ≤ length file.old }
{
    for (i, number) in numbers.iter().enumerate() {
        file[at + 8 * i..at + 8 * i + 8].copy_from_slice(&number.to_le_bytes());
    }
}

// The byte at this place of the segment: three pages hold their own addresses, eight bytes each.
fn byte_at(at: u64) -> u8 {
    let word = START.wrapping_add(at - at % 8);
    match at / 4096 {
        1 | 2 | 4 => (word >> (8 * (at % 8)) & 0xff) as u8,
        _ => 0,
    }
}

fn fill(segment: &mut [u8]) {
    for (at, byte) in segment.iter_mut().enumerate() {
        *byte = byte_at(at as u64);
    }
}

// A RISC-V machine with six pages, all available, of which three are wanted.
fn spell(file: &mut [u8; LEN]) {
    file[..16].copy_from_slice(b"FD MACHINE IMAGE");
    put_u32s(file, 16, &[1, 3, 1, 1, 3, 2, 10, 4, 12, 0]);
    put_u64s(file, 56, &[START, 0xffff_ffc0_0000_0000, 0x20_0000]);
    put_u64s(
        file,
        80,
        &[0xffff_ffd0_0000_0000, 0xffff_ffd0_0000_6000, START],
    );
    put_u64s(
        file,
        104,
        &[1_700_000_000, START, 0x6000, START, START + 0x6000],
    );
    put_u64s(file, 144, &[START + 0x1000, START + 0x2000, START + 0x4000]);
    file[168..196].copy_from_slice(b"rvFreeBSD 14testpanic: test\n");
    fill(&mut file[196..]);
}

// The small image's file, with other bytes at these places.
fn image_file(alloc: Global, changes: &[(usize, u8)]) -> Result<Vec<u8>, AllocError> {
    let mut bytes = [0; LEN];
    spell(&mut bytes);
    for (at, byte) in changes {
        if let Some(old) = bytes.get_mut(*at) {
            *old = *byte;
        }
    }
    Vec::from_slice(alloc, &bytes)
}

// What reading this file gives.
fn read(alloc: Global, file: Vec<u8>) -> Result<Result<Image, ImageFault>, Fail> {
    let mut site = MemSite::new(alloc, 0, 512, Vec::new(alloc))?;
    site.preset_file("a.img", file)?;
    Ok(read_image(alloc, &mut site, "a.img"))
}

// Why a file is refused that differs from the small image's at these places.
fn refusal_with(alloc: Global, changes: &[(usize, u8)]) -> Result<Option<ImageFault>, Fail> {
    Ok(read(alloc, image_file(alloc, changes)?)?.err())
}

// Why the small image's file is refused where it has another length.
fn refusal_of_length(alloc: Global, len: usize) -> Result<Option<ImageFault>, Fail> {
    let mut file = image_file(alloc, &[])?;
    file.truncate(len);
    if file.len() < len {
        file.push(0)?;
    }
    Ok(read(alloc, file)?.err())
}

fn small_image(alloc: Global) -> Result<Image, Fail> {
    let file = image_file(alloc, &[])?;
    Ok(read(alloc, file)?.ok().ok_or("an image")?)
}

fn has_numbers(rt: &impl Abort, image: &Image) {
    let windows = Windows {
        kernbase: 0xffff_ffc0_0000_0000,
        kernspan: 0x20_0000,
        dmapbase: 0xffff_ffd0_0000_0000,
        dmapend: 0xffff_ffd0_0000_6000,
        dmapphys: START,
    };
    assert!(rt; image.arch() == Arch::Riscv && !image.sv48());
    assert_eq!(rt; image.avail(), [(START, START + 0x6000)].as_slice());
    assert_eq!(rt;
        image.wanted(),
        [START + 0x1000, START + 0x2000, START + 0x4000].as_slice()
    );
    assert_eq!(rt; image.root(), START);
    assert_eq!(rt; image.windows(), windows);
}

fn has_texts(rt: &impl Abort, image: &Image) {
    let texts = image.texts();
    assert_eq!(rt; texts.host.as_slice(), b"rv".as_slice());
    assert_eq!(rt; texts.version.as_slice(), b"FreeBSD 14".as_slice());
    assert_eq!(rt; texts.panic.as_slice(), b"test".as_slice());
    assert_eq!(rt; texts.msgbuf.as_slice(), b"panic: test\n".as_slice());
    assert_eq!(rt; texts.time, 1_700_000_000);
}

fn has_page(rt: &impl Abort, image: &Image) {
    let pages = image.pages(START, u64::MAX);
    assert_eq!(rt; pages.len(), 0x6000);
    assert_eq!(rt;
        &pages[0x2ff8..0x3000],
        [0xf8, 0x2f, 0, 0x80, 0, 0, 0, 0].as_slice()
    );
}

fn is_the_small_image(rt: &impl Abort, image: &Image) {
    has_numbers(rt, image);
    has_texts(rt, image);
    has_page(rt, image);
}

#[test]
fn a_small_image_is_read(rt: HostRuntime) -> Result<(), Fail> {
    let image = small_image(rt.alloc())?;
    is_the_small_image(&rt, &image);
    Ok(())
}

// The file's bytes, where it has as many.
fn bytes_of<S: Site>(
    rt: &impl Abort,
    site: &mut S,
    name: &str,
    out: &mut [u8],
) -> Result<(), Failed> {
    assert!(rt; good_name(name));
    match site.file_len(name)? {
        Some(len) => {
            assert_eq!(rt; len, out.len() as u64);
            site.read_file(name, 0, out)
        }
        None => Err(Failed),
    }
}

fn is_written<S: Site>(rt: &impl Abort, site: &mut S, image: &Image) -> Result<(), Failed> {
    let mut expected = [0; LEN];
    spell(&mut expected);
    let mut written = [0; LEN];
    assert_eq!(rt; write_image(site, "b.img", image), Ok(LEN as u64));
    bytes_of(rt, site, "b.img", &mut written)?;
    assert!(rt; written == expected);
    Ok(())
}

fn writes(rt: &impl Abort, alloc: Global, image: &Image) -> Result<(), Fail> {
    let mut site = MemSite::new(alloc, 0, 512, Vec::new(alloc))?;
    is_written(rt, &mut site, image)?;
    Ok(())
}

#[test]
fn an_image_is_written_as_its_file(rt: HostRuntime) -> Result<(), Fail> {
    let alloc = rt.alloc();
    writes(&rt, alloc, &small_image(alloc)?)
}

// A byte that no image has in the field at this place: where it stands, and what it is.
fn wrong_byte(place: u64) -> (usize, u8) {
    match place {
        16 => (16, 2),
        20 => (20, 5),
        24 => (24, 65),
        28 => (29, 5),
        32 => (34, 5),
        36 => (37, 1),
        40 => (41, 4),
        44 => (45, 4),
        48 => (50, 17),
        52 => (52, 1),
        _ => (15, b'e'),
    }
}

fn is_no_image(rt: &impl Abort, fault: Option<ImageFault>, place: u64) {
    assert_eq!(rt; fault, Some(ImageFault::NotImage(place)));
}

#[test]
fn a_field_that_no_image_has_is_named_by_its_place(rt: HostRuntime) -> Result<(), Fail> {
    for place in [0, 16, 20, 24, 28, 32, 36, 40, 44, 48, 52].as_slice() {
        let fault = refusal_with(rt.alloc(), &[wrong_byte(*place)])?;
        is_no_image(&rt, fault, *place);
    }
    Ok(())
}

#[test]
fn another_length_is_refused(rt: HostRuntime) -> Result<(), Fail> {
    for len in [0, 111, 112, 167, 168, 24771, 24773].as_slice() {
        let fault = refusal_of_length(rt.alloc(), *len)?;
        is_no_image(&rt, fault, (*len as u64).min(24772));
    }
    Ok(())
}

fn is_broken(
    rt: &impl Abort,
    alloc: Global,
    changes: &[(usize, u8)],
    rule: u8,
) -> Result<(), Fail> {
    let fault = refusal_with(alloc, changes)?;
    let bad = BadImage { rule, place: 0 };
    assert_eq!(rt; fault, Some(ImageFault::BadImage(bad)));
    Ok(())
}

// A range of available memory past the segment; and a kernel window at 0xffff800080000000 with tables of three levels,
// and with four.
#[test]
fn a_broken_rule_is_named(rt: HostRuntime) -> Result<(), Fail> {
    let low = [(67, 0x80), (68, 0), (69, 0x80)];
    let low_in_sv48 = [(20, 4), (67, 0x80), (68, 0), (69, 0x80)];
    is_broken(&rt, rt.alloc(), &[(137, 0x70)], 8)?;
    is_broken(&rt, rt.alloc(), &low, 12)?;
    assert_eq!(rt; refusal_with(rt.alloc(), &low_in_sv48)?, None);
    assert_eq!(rt; refusal_with(rt.alloc(), &[(20, 4)])?, None);
    Ok(())
}

// Why nothing is read of a site without files.
fn refusal_without_file(alloc: Global) -> Result<Option<ImageFault>, Fail> {
    let mut site = MemSite::new(alloc, 0, 512, Vec::new(alloc))?;
    Ok(read_image(alloc, &mut site, "a.img").err())
}

// Why the small image isn't read from a site whose third call fails.
fn refusal_of_site(alloc: Global) -> Result<Option<ImageFault>, Fail> {
    let file = image_file(alloc, &[])?;
    let mut site = MemSite::new(alloc, 0, 512, vec![in alloc; 3]?)?;
    site.preset_file("a.img", file)?;
    Ok(read_image(alloc, &mut site, "a.img").err())
}

#[test]
fn a_file_must_be_there_and_the_site_may_fail(rt: HostRuntime) -> Result<(), Fail> {
    let missing = refusal_without_file(rt.alloc())?;
    assert_eq!(rt; missing, Some(ImageFault::NoFile));
    let failed = refusal_of_site(rt.alloc())?;
    assert_eq!(rt; failed, Some(ImageFault::SiteFault));
    Ok(())
}

// Whether this number and this text are printed of a refusal.
fn is_printed(alloc: Global, fault: ImageFault, number: u8, text: &str) -> Result<bool, Fail> {
    let printed = format!(in alloc; "{fault}")?;
    Ok(fault.number() == number && printed.as_str() == text)
}

#[test]
fn refusals_have_numbers_and_texts(rt: HostRuntime) -> Result<(), Fail> {
    let alloc = rt.alloc();
    let bad = BadImage { rule: 8, place: 0 };
    assert!(rt; is_printed(alloc, ImageFault::NoFile, 41, "no file")?);
    assert!(rt; is_printed(alloc, ImageFault::NotImage(52), 42, "not an image at 52")?);
    assert!(rt; is_printed(alloc, ImageFault::BadImage(bad), 43, "rule 8 at 0")?);
    Ok(())
}
