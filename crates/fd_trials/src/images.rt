//! A small valid image, and what breaks each rule.
use fd_bytes::Arch;
use fd_image::{BadImage, Image, Memory, Parts, Seg, Sequence, Texts, Windows};
use fd_raw::Region;
use std::alloc::{AllocError, Global};
use std::process::Abort;
use std::test::Fail;

const START: u64 = 0x8000_0000;

// The byte at this place of the segment: three pages hold their own addresses, eight bytes each.
fn byte_at(at: u64) -> u8 {
    let word = START.wrapping_add(at - at % 8);
    match at / 4096 {
        1 | 2 | 4 => (word >> (8 * (at % 8)) & 0xff) as u8,
        _ => 0,
    }
}

fn fill(bytes: &mut [u8]) {
    for (at, byte) in bytes.iter_mut().enumerate() {
        *byte = byte_at(at as u64);
    }
}

fn segment(alloc: Global, start: u64, len: usize) -> Result<Seg, AllocError> {
    let mut bytes = Region::new(alloc, len)?;
    fill(bytes.view_mut(0, len));
    Ok(Seg { start, bytes })
}

// The parts of a small valid image, or, for a rule's number, those that break this rule and no earlier one.
fn image_breaking(alloc: Global, rule: u8) -> Result<Parts, AllocError> {
    Ok(Parts {
        arch: if rule == 15 { Arch::Arm64 } else { Arch::Riscv },
        sv48: rule == 15,
        segs: segs_breaking(alloc, rule)?,
        avail: avail_breaking(alloc, rule)?,
        wanted: wanted_breaking(alloc, rule)?,
        root: if rule == 10 { START + 8 } else { START },
        windows: windows_breaking(rule),
        texts: no_texts(alloc),
    })
}

fn segs_breaking(alloc: Global, rule: u8) -> Result<Sequence<Seg>, AllocError> {
    let mut segs = Vec::new(alloc);
    if rule != 1 {
        segs.push(segment(alloc, START, 0x6000)?)?;
    }
    let second = match rule {
        2 => START + 0x6001,
        3 => START + 0x5000,
        4 => 1 << 56,
        _ => 0,
    };
    if second != 0 {
        segs.push(segment(alloc, second, 0x1000)?)?;
    }
    Ok(Sequence::new(segs))
}

fn too_many_pairs(alloc: Global) -> Result<Sequence<(u64, u64)>, AllocError> {
    Ok(Sequence::new(vec![in alloc; (START, START + 0x3000); 1025]?))
}

fn second_pair(rule: u8) -> (u64, u64) {
    match rule {
        6 => (START + 0x4000, START + 0x4000),
        7 => (START + 0x2000, START + 0x6000),
        8 => (START + 0x4000, START + 0x7000),
        _ => (START + 0x3000, START + 0x6000),
    }
}

fn avail_breaking(alloc: Global, rule: u8) -> Result<Sequence<(u64, u64)>, AllocError> {
    if rule == 5 {
        return too_many_pairs(alloc);
    }
    Ok(Sequence::new(vec![in alloc; (START, START + 0x3000), second_pair(rule)]?))
}

fn wanted_breaking(alloc: Global, rule: u8) -> Result<Sequence<u64>, AllocError> {
    let last = if rule == 9 {
        START + 0x2000
    } else {
        START + 0x4000
    };
    Ok(Sequence::new(vec![in alloc; START + 0x1000, START + 0x2000, last]?))
}

fn windows_breaking(rule: u8) -> Windows {
    let (kernbase, kernspan) = match rule {
        11 => (0xffff_ffc0_0000_0000, 0x1000),
        12 => (0xffff_ffbf_ffe0_0000, 0x20_0000),
        14 => (0xffff_ffcf_ffe0_0000, 0x40_0000),
        _ => (0xffff_ffc0_0000_0000, 0x20_0000),
    };
    Windows {
        kernbase,
        kernspan,
        dmapbase: 0xffff_ffd0_0000_0000,
        dmapend: 0xffff_ffd0_0000_6000,
        dmapphys: if rule == 13 {
            (1 << 56) - 0x5000
        } else {
            START
        },
    }
}

fn no_texts(alloc: Global) -> Texts {
    Texts {
        host: Sequence::new(Vec::new(alloc)),
        version: Sequence::new(Vec::new(alloc)),
        panic: Sequence::new(Vec::new(alloc)),
        msgbuf: Sequence::new(Vec::new(alloc)),
        time: 1_700_000_000,
    }
}

fn small_image(alloc: Global) -> Result<Image, Fail> {
    Ok(
        Image::new(image_breaking(alloc, 0)?)
            .ok()
            .ok_or("a valid image")?,
    )
}

// What the image is refused for that breaks this rule.
fn refusal(alloc: Global, rule: u8) -> Result<Option<BadImage>, AllocError> {
    let parts = image_breaking(alloc, rule)?;
    Ok(Image::new(parts).err())
}

#[test]
fn each_rule_is_refused_at_its_least_place(rt: HostRuntime) -> Result<(), Fail> {
    for (rule, place) in [
        (1, 0),
        (2, 1),
        (3, 1),
        (4, 1),
        (5, 0),
        (6, 1),
        (7, 1),
        (8, 1),
        (9, 2),
        (10, 0),
        (11, 0),
        (12, 0),
        (13, 0),
        (14, 0),
        (15, 0),
    ] {
        let bad = refusal(rt.alloc(), rule)?;
        assert_eq!(rt; bad, Some(BadImage { rule, place }), "rule {rule}");
    }
    Ok(())
}

fn lends_its_words(rt: &impl Abort, image: &Image) {
    let words = [
        (START, Some(0)),
        (START + 0x1008, Some(START + 0x1008)),
        (START + 0x5ff8, Some(0)),
        (START + 0x1004, None),
        (START + 0x6000, None),
        (START - 8, None),
    ];
    for (pa, word) in words {
        assert_eq!(rt; image.word(pa), word, "at {pa:x}");
    }
}

// Wherever it is looked for first, a page of zeros has words alike, and so has one that lies in no segment.
fn tells_words_that_are_alike(rt: &impl Abort, image: &Image) {
    for near in [0, 7] {
        assert_eq!(rt; image.alike(START + 8, 511, &mut { near }), 511);
        assert_eq!(rt; image.alike(START + 0x1000, 512, &mut { near }), 1);
        assert_eq!(rt; image.alike(START + 0x6000, 512, &mut { near }), 512);
    }
}

fn lends_its_pages(rt: &impl Abort, image: &Image) -> Result<(), Fail> {
    let page = image.page(START + 0x2fff).ok_or("a page")?;
    assert_eq!(rt; page.len(), 4096);
    assert_eq!(rt; &page[..8], [0, 0x20, 0, 0x80, 0, 0, 0, 0].as_slice());
    assert_eq!(rt; &page[4088..], [0xf8, 0x2f, 0, 0x80, 0, 0, 0, 0].as_slice());
    assert!(rt; image.page(START + 0x6000).is_none());
    assert!(rt; image.page(START - 1).is_none());
    Ok(())
}

fn lends_its_runs(rt: &impl Abort, image: &Image) {
    let pages = image.pages(START + 0x2fff, 3);
    assert_eq!(rt; pages.len(), 0x3000);
    assert_eq!(rt;
        &pages[0x2000..0x2008],
        [0, 0x40, 0, 0x80, 0, 0, 0, 0].as_slice()
    );
    assert_eq!(rt; image.pages(START + 0x4000, u64::MAX).len(), 0x2000);
    assert_eq!(rt; image.pages(START, 0).len(), 0);
    assert_eq!(rt; image.pages(START + 0x6000, 1).len(), 0);
}

fn lends_its_memory(rt: &impl Abort, image: &Image) -> Result<(), Fail> {
    lends_its_words(rt, image);
    tells_words_that_are_alike(rt, image);
    lends_its_runs(rt, image);
    lends_its_pages(rt, image)
}

#[test]
fn a_valid_image_lends_its_words_and_pages(rt: HostRuntime) -> Result<(), Fail> {
    let image = small_image(rt.alloc())?;
    lends_its_memory(&rt, &image)
}

fn has_its_ranges(rt: &impl Abort, image: &Image) {
    assert_eq!(rt; image.segs().len(), 1);
    assert_eq!(rt;
        image.avail(),
        [(START, START + 0x3000), (START + 0x3000, START + 0x6000)].as_slice()
    );
    assert_eq!(rt; image.wanted().len(), 3);
}

fn has_its_numbers(rt: &impl Abort, image: &Image) {
    assert_eq!(rt; image.arch(), Arch::Riscv);
    assert!(rt; image.levels() == 3 && !image.sv48());
    assert_eq!(rt; image.root(), START);
    assert_eq!(rt; image.windows().dmapphys, START);
    assert_eq!(rt; image.texts().time, 1_700_000_000);
}

fn has_its_parts(rt: &impl Abort, image: &Image) {
    has_its_ranges(rt, image);
    has_its_numbers(rt, image);
}

#[test]
fn a_valid_image_gives_its_parts(rt: HostRuntime) -> Result<(), Fail> {
    let image = small_image(rt.alloc())?;
    has_its_parts(&rt, &image);
    Ok(())
}

// What the levels of a RISC-V image with this kernel window are, or what it is refused for.
fn levels_of(
    alloc: Global,
    sv48: bool,
    kernbase: u64,
) -> Result<Result<u32, BadImage>, AllocError> {
    let mut parts = image_breaking(alloc, 0)?;
    parts.sv48 = sv48;
    parts.windows.kernbase = kernbase;
    Ok(Image::new(parts).map(|image| image.levels()))
}

#[test]
fn sv48_has_four_levels_and_begins_lower(rt: HostRuntime) -> Result<(), Fail> {
    let (sv48, sv39) = (0xffff_8000_8000_0000, 0xffff_ffc0_8000_0000);
    let too_low = BadImage { rule: 12, place: 0 };
    assert_eq!(rt; levels_of(rt.alloc(), true, sv48)?, Ok(4));
    assert_eq!(rt; levels_of(rt.alloc(), true, sv39)?, Ok(4));
    assert_eq!(rt; levels_of(rt.alloc(), false, sv39)?, Ok(3));
    assert_eq!(rt; levels_of(rt.alloc(), false, sv48)?, Err(too_low));
    Ok(())
}
