//! Minidumps of small machines, byte by byte where it tells.
ghost use Rattle.fd_dump.specs.Plan.{IsPlanOf};

use fd_bytes::Arch;
use fd_dump::Plan;
use fd_image::{Image, Parts, Seg, Sequence, Texts, Windows};
use fd_kdh::Header;
use fd_raw::Region;
use fd_site::Pieces;
use std::alloc::{AllocError, Global};
use std::process::Abort;
use std::test::Fail;

// The entries of the machines' page tables that aren't 0.
const ENTRIES: [(u64, u64); 11] = [
    (0x10_0fe0, 0x10_1003),
    (0x10_1000, 0x4000_0083),
    (0x10_1008, 0x10_2003),
    (0x10_2000, 0x10_3003),
    (0x10_2008, 0x6000_0003),
    (0x10_3000, 0x10_4003),
    (0x10_3008, 0x8000_0000_0010_5001),
    (0x10_3010, 0x6000_0003),
    (0xc000_0800, 0x3000_0007),
    (0x1_0000_0800, 0x4000_0401),
    (0x1_0000_1000, 0x4000_0007),
];

// The pages whose words are their own addresses.
const PAGES: [u64; 8] = [
    0x104, 0x105, 0x401ff, 0x40200, 0x60000, 0x80001, 0x80002, 0x80004,
];

fn word_at(pa: u64) -> u64 {
    for (place, entry) in ENTRIES {
        if place == pa {
            return entry;
        }
    }
    for page in PAGES {
        if page == pa / 4096 {
            return pa;
        }
    }
    0
}

fn fill(words: &mut [u8], start: u64) {
    for (index, word) in words.chunks_exact_mut(8).enumerate() {
        word.copy_from_slice(&word_at(start.wrapping_add(8 * index as u64)).to_le_bytes());
    }
}

fn segment(alloc: Global, start: u64, pages: u64) -> Result<Seg, AllocError> {
    let len = 4096 * pages.min(512) as usize;
    let mut bytes = Region::new(alloc, len)?;
    fill(bytes.view_mut(0, len), start);
    Ok(Seg { start, bytes })
}

fn segments(alloc: Global, places: &[(u64, u64)]) -> Result<Vec<Seg>, AllocError> {
    let mut segs = Vec::new(alloc);
    for (start, pages) in places {
        segs.push(segment(alloc, *start, *pages)?)?;
    }
    Ok(segs)
}

fn texts(alloc: Global, msgbuf: &[u8]) -> Result<Texts, AllocError> {
    Ok(Texts {
        host: Sequence::new(b"rv".to_vec(alloc)?),
        version: Sequence::new(b"FreeBSD 14".to_vec(alloc)?),
        panic: Sequence::new(b"test".to_vec(alloc)?),
        msgbuf: Sequence::new(msgbuf.to_vec(alloc)?),
        time: 1_700_000_000,
    })
}

// What the machines differ in. A segment has its first address and its pages.
#[derive(Clone, Copy)]
struct Machine<'a> {
    arch: Arch,
    sv48: bool,
    segs: &'a [(u64, u64)],
    avail: &'a [(u64, u64)],
    wanted: &'a [u64],
    root: u64,
    windows: Windows,
    msgbuf: &'a [u8],
}

fn image_of(alloc: Global, machine: &Machine) -> Result<Image, Fail> {
    let parts = Parts {
        arch: machine.arch,
        sv48: machine.sv48,
        segs: Sequence::new(segments(alloc, machine.segs)?),
        avail: Sequence::new(machine.avail.to_vec(alloc)?),
        wanted: Sequence::new(machine.wanted.to_vec(alloc)?),
        root: machine.root,
        windows: machine.windows,
        texts: texts(alloc, machine.msgbuf)?,
    };
    Ok(Image::new(parts).ok().ok_or("a valid image")?)
}

// One segment, whose page tables are empty, and three wanted pages.
fn riscv(alloc: Global) -> Result<Image, Fail> {
    let start = 0x8000_0000;
    image_of(
        alloc,
        &Machine {
            arch: Arch::Riscv,
            sv48: false,
            segs: &[(start, 6)],
            avail: &[(start, start + 0x6000)],
            wanted: &[start + 0x1000, start + 0x2000, start + 0x4000],
            root: start,
            windows: Windows {
                kernbase: 0xffff_ffc0_0000_0000,
                kernspan: 0x20_0000,
                dmapbase: 0xffff_ffd0_0000_0000,
                dmapend: 0xffff_ffd0_0000_6000,
                dmapphys: start,
            },
            msgbuf: b"panic: test\n",
        },
    )
}

// A leaf of 1 GiB, a last-level table, and a page that is mapped and not available.
fn amd64(alloc: Global) -> Result<Image, Fail> {
    image_of(
        alloc,
        &Machine {
            arch: Arch::Amd64,
            sv48: false,
            segs: &[(0x10_0000, 6), (0x401f_f000, 2), (0x6000_0000, 1)],
            avail: &[(0x10_0000, 0x10_6000), (0x401f_f000, 0x4020_1000)],
            wanted: &[0x10_0000],
            root: 0x10_0000,
            windows: Windows {
                kernbase: 0xffff_fe00_0000_0000,
                kernspan: 0x8000_0000,
                dmapbase: 0xffff_f800_0000_0000,
                dmapend: 0xffff_f800_8000_0000,
                dmapphys: 0,
            },
            msgbuf: b"",
        },
    )
}

// Two wanted pages, of which the direct map reaches one.
fn arm64(alloc: Global) -> Result<Image, Fail> {
    let start = 0x8000_0000;
    image_of(
        alloc,
        &Machine {
            arch: Arch::Arm64,
            sv48: false,
            segs: &[(start, 3)],
            avail: &[(start, start + 0x3000)],
            wanted: &[start + 0x1000, start + 0x2000],
            root: start,
            windows: Windows {
                kernbase: 0xffff_0000_0000_0000,
                kernspan: 0x40_0000,
                dmapbase: 0xffff_a000_0000_0000,
                dmapend: 0xffff_a000_0000_2000,
                dmapphys: start,
            },
            msgbuf: b"",
        },
    )
}

// Two segments that touch, all of whose pages a leaf maps.
fn touching(alloc: Global) -> Result<Image, Fail> {
    let start = 0xc000_0000;
    let middle = start + 300 * 4096;
    image_of(
        alloc,
        &Machine {
            arch: Arch::Riscv,
            sv48: false,
            segs: &[(start, 300), (middle, 2)],
            avail: &[(start, middle), (middle, middle + 0x2000)],
            wanted: &[],
            root: start,
            windows: Windows {
                kernbase: 0xffff_ffc0_0000_0000,
                kernspan: 0x20_0000,
                dmapbase: 0xffff_ffd0_0000_0000,
                dmapend: 0xffff_ffd0_0020_0000,
                dmapphys: start,
            },
            msgbuf: b"",
        },
    )
}

// Page tables of four levels, with a leaf of 1 GiB.
fn sv48(alloc: Global) -> Result<Image, Fail> {
    let start = 0x1_0000_0000;
    image_of(
        alloc,
        &Machine {
            arch: Arch::Riscv,
            sv48: true,
            segs: &[(start, 2)],
            avail: &[(start, start + 0x2000)],
            wanted: &[],
            root: start,
            windows: Windows {
                kernbase: 0xffff_8000_0000_0000,
                kernspan: 0x20_0000,
                dmapbase: 0xffff_9000_0000_0000,
                dmapend: 0xffff_9000_0000_2000,
                dmapphys: start,
            },
            msgbuf: b"",
        },
    )
}

// The minidump, put together from its pieces.
fn dump_of(alloc: Global, image: &Image) -> Result<Vec<u8>, AllocError> {
    let plan = Plan::prepare(alloc, image)?;
    let mut bytes = Vec::new(alloc);
    let mut pieces = plan.pieces(image);
    for _ in 0..plan.length() / 4096 {
        pieces.advance();
        bytes.extend_from_slice(pieces.piece())?;
    }
    Ok(bytes)
}

// The bytes at a place, or none where the place isn't in the dump.
fn bytes_at(dump: &[u8], at: usize, count: usize) -> &[u8] {
    if at > dump.len() || count > dump.len() - at {
        return &[];
    }
    &dump[at..at + count]
}

// The words of a minidump at some places, and its length.
fn check_words(
    rt: &impl Abort,
    alloc: Global,
    image: &Image,
    length: usize,
    words: &[(usize, u64)],
) -> Result<(), Fail> {
    let dump = dump_of(alloc, image)?;
    assert_eq!(rt; dump.len(), length);
    for (at, word) in words {
        assert_eq!(rt;
            bytes_at(dump.as_slice(), *at, 8),
            word.to_le_bytes().as_slice(),
            "at {at}"
        );
    }
    Ok(())
}

// The sizes in the header page, and the message buffer.
fn check_front(rt: &impl Abort, alloc: Global, image: &Image) -> Result<(), Fail> {
    let dump = dump_of(alloc, image)?;
    let sizes: [u8; 16] = [2, 0, 0, 0, 12, 0, 0, 0, 0, 16, 0, 0, 0, 16, 0, 0];
    assert_eq!(rt; bytes_at(dump.as_slice(), 24, 16), sizes.as_slice());
    assert_eq!(rt;
        bytes_at(dump.as_slice(), 4096, 13),
        b"panic: test\n\0".as_slice()
    );
    Ok(())
}

const RISCV_WORDS: [(usize, u64); 10] = [
    (8192, 0x8000_0000),
    (8200, 0x8000_6000),
    (8208, 0),
    (8216, 0),
    (12288, 0x16),
    (16384, 0),
    (20480, 0x8000_1000),
    (24576, 0x8000_2000),
    (28672, 0x8000_4000),
    (32760, 0x8000_4ff8),
];

#[test]
fn sections_stand_in_order(rt: HostRuntime) -> Result<(), Fail> {
    let image = riscv(rt.alloc())?;
    check_front(&rt, rt.alloc(), &image)?;
    check_words(&rt, rt.alloc(), &image, 32768, &RISCV_WORDS)
}

const AMD64_WORDS: [(usize, u64); 11] = [
    (4096, 0x10_0000),
    (8192, 0xf9),
    (12288, 0x4000_0083),
    (12296, 0x4020_0083),
    (16376, 0x7fe0_0083),
    (16384, 0x10_3003),
    (16392, 0x6000_0003),
    (24576, 0x10_4003),
    (32768, 0x10_5000),
    (36864, 0x401f_f000),
    (40960, 0x4020_0000),
];

#[test]
fn leaves_and_last_level_tables_are_dumped(rt: HostRuntime) -> Result<(), Fail> {
    let image = amd64(rt.alloc())?;
    check_words(&rt, rt.alloc(), &image, 45056, &AMD64_WORDS)
}

#[test]
fn pages_outside_the_direct_map_are_left_out(rt: HostRuntime) -> Result<(), Fail> {
    let image = arm64(rt.alloc())?;
    let words = [(8192, 2), (20480, 0x8000_1000)];
    check_words(&rt, rt.alloc(), &image, 24576, &words)
}

fn check_fields(rt: &impl Abort, header: &Header) {
    assert_eq!(rt; (header.dumplength, header.dumpextent), (32768, 32768));
    assert_eq!(rt; (header.dumptime, header.blocksize), (1_700_000_000, 512));
    assert_eq!(rt; header.architecture.bytes(), b"riscv64".as_slice());
    assert_eq!(rt; header.hostname.bytes(), b"rv".as_slice());
    assert_eq!(rt; header.versionstring.bytes(), b"FreeBSD 14".as_slice());
    assert_eq!(rt; header.panicstring.bytes(), b"test".as_slice());
}

fn check_header(rt: &impl Abort, alloc: Global, image: &Image) -> Result<(), Fail> {
    let plan = Plan::prepare(alloc, image)?;
    check_fields(rt, &plan.header(image, 512));
    Ok(())
}

#[test]
fn the_header_tells_of_the_dump(rt: HostRuntime) -> Result<(), Fail> {
    let image = riscv(rt.alloc())?;
    check_header(&rt, rt.alloc(), &image)
}

const SV48_WORDS: [(usize, u64); 6] = [
    (8192, 3),
    (12288, 0x4000_0007),
    (12296, 0x4000_0407),
    (16384, 0),
    (18432, 0x4000_0401),
    (20480, 0x4000_0007),
];

#[test]
fn tables_of_four_levels_are_walked(rt: HostRuntime) -> Result<(), Fail> {
    let image = sv48(rt.alloc())?;
    check_words(&rt, rt.alloc(), &image, 24576, &SV48_WORDS)
}

fn check_pages(rt: &impl Abort, plan: &Plan, image: &Image, dump: &[u8])
    requires { IsPlanOf plan.now image.now }
{
    let mut page = [0; 4096];
    for index in 0..plan.length() / 4096 {
        plan.page_at(image, index, &mut page);
        assert!(rt;
            bytes_at(dump, 4096 * index as usize, 4096) == page.as_slice(),
            "page {index}"
        );
    }
}

fn check_pieces(rt: &impl Abort, alloc: Global, image: &Image) -> Result<(), Fail> {
    let dump = dump_of(alloc, image)?;
    let plan = Plan::prepare(alloc, image)?;
    check_pages(rt, &plan, image, dump.as_slice());
    Ok(())
}

#[test]
fn pieces_are_the_pages_one_after_another(rt: HostRuntime) -> Result<(), Fail> {
    let image = touching(rt.alloc())?;
    check_pieces(&rt, rt.alloc(), &image)
}

// How long the pieces are, to the first that is empty.
fn lengths(alloc: Global, image: &Image) -> Result<Vec<usize>, AllocError> {
    let plan = Plan::prepare(alloc, image)?;
    let mut lengths = Vec::new(alloc);
    let mut pieces = plan.pieces(image);
    for _ in 0..plan.length() / 4096 {
        if !pieces.advance() {
            return Ok(lengths);
        }
        lengths.push(pieces.piece().len())?;
    }
    Ok(lengths)
}

fn check_lengths(rt: &impl Abort, alloc: Global, image: &Image) -> Result<(), Fail> {
    let lengths = lengths(alloc, image)?;
    // After 1 MiB a run is cut, and it ends with its segment.
    let want = [4096, 4096, 4096, 4096, 256 * 4096, 44 * 4096, 2 * 4096];
    assert_eq!(rt; lengths.as_slice(), want.as_slice());
    Ok(())
}

#[test]
fn dumped_pages_are_lent_as_runs(rt: HostRuntime) -> Result<(), Fail> {
    let image = touching(rt.alloc())?;
    check_lengths(&rt, rt.alloc(), &image)
}
