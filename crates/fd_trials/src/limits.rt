//! The plan of a machine at the limits: as many segments, ranges, wanted pages and bytes of texts as an image may have, and
//! the largest kernel window.

use fd_bytes::Arch;
use fd_dump::Plan;
use fd_image::{Image, Parts, Seg, Sequence, Texts, Windows};
use fd_raw::Region;
use std::alloc::{AllocError, Global};
use std::process::Abort;
use std::test::Fail;

const START: u64 = 0x10_0000;

// 64 segments of 16 pages, with as many bytes between one and the next.
fn segments(alloc: Global) -> Result<Sequence<Seg>, AllocError> {
    let mut segs = Vec::new(alloc);
    for index in 0..64 {
        segs.push(Seg {
            start: START + 0x2_0000 * index,
            bytes: Region::new(alloc, 0x1_0000)?,
        })?;
    }
    Ok(Sequence::new(segs))
}

// 1024 ranges: each page of the segments by itself.
fn ranges(alloc: Global) -> Result<Sequence<(u64, u64)>, AllocError> {
    let mut pairs = Vec::new(alloc);
    for page in 0..1024 {
        let start = START + 0x2_0000 * (page / 16) + 0x1000 * (page % 16);
        pairs.push((start, start + 0x1000))?;
    }
    Ok(Sequence::new(pairs))
}

// The first 262,144 pages of the physical addresses.
fn wanted(alloc: Global) -> Result<Sequence<u64>, AllocError> {
    let mut pages = Vec::new(alloc);
    for page in 0..262_144 {
        pages.push(0x1000 * page)?;
    }
    Ok(Sequence::new(pages))
}

fn texts(alloc: Global) -> Result<Texts, AllocError> {
    Ok(Texts {
        host: Sequence::new(vec![in alloc; b'h'; 255]?),
        version: Sequence::new(vec![in alloc; b'v'; 1023]?),
        panic: Sequence::new(vec![in alloc; b'p'; 1023]?),
        msgbuf: Sequence::new(vec![in alloc; b'm'; 1 << 20]?),
        time: u64::MAX,
    })
}

fn parts(alloc: Global) -> Result<Parts, AllocError> {
    Ok(Parts {
        arch: Arch::Amd64,
        sv48: false,
        segs: segments(alloc)?,
        avail: ranges(alloc)?,
        wanted: wanted(alloc)?,
        root: START,
        windows: Windows {
            kernbase: 0xffff_fe00_0000_0000,
            kernspan: 1 << 41,
            dmapbase: 0xffff_f800_0000_0000,
            dmapend: 0xffff_f800_0090_0000,
            dmapphys: 0,
        },
        texts: texts(alloc)?,
    })
}

fn is_planned(rt: &impl Abort, alloc: Global, image: &Image) -> Result<(), Fail> {
    let plan = Plan::prepare(alloc, image)?;
    // The header page, the messages, the ranges, the bitmap, the directory and 1024 pages.
    let length = 0x1000 + 0x10_0000 + 0x5000 + 0x1000 + 0x80_0000 + 0x40_0000;
    assert_eq!(rt; plan.length(), length);
    Ok(())
}

#[test]
fn an_image_at_the_limits_is_planned(rt: HostRuntime) -> Result<(), Fail> {
    let image = Image::new(parts(rt.alloc())?).ok().ok_or("a valid image")?;
    is_planned(&rt, rt.alloc(), &image)
}
