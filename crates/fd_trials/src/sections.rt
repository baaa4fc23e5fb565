//! Opening files in memory: each refusal with its numbers, and where pages stand.
ghost use Rattle.std.specs.Prelude.{IsTrue};
ghost use Rattle.fd_mini.specs.Layout.{is_current};

use fd_bitmap::{Counted, Steps};
use fd_bytes::Arch;
use fd_fake::MemSite;
use fd_mini::{MiniFault, MiniField, MiniHeader, write_header};
use fd_site::{Site, good_name};
use fd_vmcore::{Core, OpenFault};
use std::alloc::{AllocError, Global};
use std::process::Abort;
use std::test::Fail;

// A machine with six pages: its ranges are at 8192, the bitmap at 12288, the directory at 16384 and the dumped pages at
// 20480.
const RISCV: MiniHeader = MiniHeader {
    arch: Arch::Riscv,
    version: 2,
    msgbufsize: 12,
    bitmapsize: 4096,
    pmapsize: 4096,
    kernbase: 0xffffffc000000000,
    dmapphys: 0x80000000,
    dmapbase: 0xffffffd000000000,
    dmapend: 0xffffffd000006000,
    dumpavailsize: 4096,
    flags: 0,
};

// The same machine with a larger bitmap, which in riscv's first version follows the message buffer: at byte 65536 it has
// the bits of the six pages.
const LARGE_BITMAP: MiniHeader = MiniHeader {
    bitmapsize: 69632,
    ..RISCV
};

const FIRST_VERSION: [(usize, u8); 2] = [(24, 1), (8192 + 65536, 0x16)];

const ARM64: MiniHeader = MiniHeader {
    arch: Arch::Arm64,
    version: 3,
    flags: 1,
    ..RISCV
};

// A machine whose bitmap is at 4096, the directory behind it, and behind that the dumped pages.
const AMD64: MiniHeader = MiniHeader {
    arch: Arch::Amd64,
    version: 3,
    msgbufsize: 0,
    kernbase: 0xfffffe0000000000,
    dmapphys: 0,
    dmapbase: 0,
    dmapend: 0,
    dumpavailsize: 0,
    ..RISCV
};

// The range from 0x80000000 to 0x80006000, and the bits 1, 2 and 4.
const SIX_PAGES: [(usize, u8); 4] = [(8195, 0x80), (8201, 0x60), (8203, 0x80), (12288, 0x16)];

// Writes a header page before everything else.
fn write_page(bytes: &mut [u8], header: &MiniHeader)
    requires { IsTrue (is_current header.now.arch header.now.version) }
{
    if let Some(page) = bytes.first_chunk_mut::<4096>() {
        write_header(header, page);
    }
}

// Writes each byte at its place.
fn mark(bytes: &mut [u8], marks: &[(usize, u8)]) {
    for (at, byte) in marks {
        if let Some(place) = bytes.get_mut(*at) {
            *place = *byte;
        }
    }
}

// A file of this header page with these bytes at their places, and zeros.
fn file(
    alloc: Global,
    header: &MiniHeader,
    marks: &[(usize, u8)],
    len: usize,
) -> Result<Vec<u8>, AllocError>
    requires { IsTrue (is_current header.now.arch header.now.version) }
{
    let mut bytes = vec![in alloc; 0u8; len]?;
    write_page(bytes.as_mut_slice(), header);
    mark(bytes.as_mut_slice(), marks);
    Ok(bytes)
}

// Opens the site's file, which is refused.
fn is_refused<S: Site>(rt: &impl Abort, alloc: Global, site: &mut S, fault: OpenFault) {
    assert!(rt; good_name("vmcore.0"));
    assert_eq!(rt; Core::open(alloc, site, "vmcore.0").err(), Some(fault));
}

// Opens a file of this header page with these bytes at their places, which is refused.
fn refuses(
    rt: &impl Abort,
    alloc: Global,
    header: &MiniHeader,
    marks: &[(usize, u8)],
    len: usize,
    fault: OpenFault,
) -> Result<(), Fail>
    requires { IsTrue (is_current header.now.arch header.now.version) }
{
    let mut site = MemSite::new(alloc, 512, 512, Vec::new(alloc))?;
    site.preset_file("vmcore.0", file(alloc, header, marks, len)?)?;
    is_refused(rt, alloc, &mut site, fault);
    Ok(())
}

#[test]
fn a_missing_file_is_refused(rt: HostRuntime) -> Result<(), Fail> {
    let alloc = rt.alloc();
    let mut site = MemSite::new(alloc, 512, 512, Vec::new(alloc))?;
    is_refused(&rt, alloc, &mut site, OpenFault::NoFile);
    Ok(())
}

// Opens the riscv machine's file with another byte at this place, and no more than its first bytes.
fn refuses_changed(
    rt: &impl Abort,
    alloc: Global,
    at: usize,
    byte: u8,
    len: usize,
    fault: OpenFault,
) -> Result<(), Fail> {
    let [start, end, high_end, bits] = SIX_PAGES;
    let marks = [start, end, high_end, bits, (at, byte)];
    refuses(rt, alloc, &RISCV, &marks, len, fault)
}

#[test]
fn a_file_is_refused_for_its_first_fault(rt: HostRuntime) -> Result<(), Fail> {
    let alloc = rt.alloc();
    for (at, byte, len, fault) in [
        (0, b'm', 4095, OpenFault::Short(4096, 4095)),
        (0, b'M', 4096, OpenFault::Mini(MiniFault::BadMagic)),
        (24, 0, 4096, OpenFault::Mini(MiniFault::UnknownVersion(0))),
        (24, 3, 4096, OpenFault::Mini(MiniFault::UnknownVersion(3))),
        (24, 2, 20479, OpenFault::Short(20480, 20479)),
        (8201, 0, 32767, OpenFault::BadAvail(0)),
        (24, 2, 32767, OpenFault::Short(32768, 32767)),
    ] {
        refuses_changed(&rt, alloc, at, byte, len, fault)?;
    }
    Ok(())
}

#[test]
fn a_section_over_its_limit_is_refused(rt: HostRuntime) -> Result<(), Fail> {
    let alloc = rt.alloc();
    for (at, byte, field, size) in [
        (74, 0x10, MiniField::DumpAvail, 1052672),
        (35, 4, MiniField::Bitmap, 67112960),
    ] {
        let fault = OpenFault::Mini(MiniFault::TooLarge(field, size));
        refuses_changed(&rt, alloc, at, byte, 32768, fault)?;
    }
    Ok(())
}

#[test]
fn a_large_granule_is_refused(rt: HostRuntime) -> Result<(), Fail> {
    let fault = OpenFault::Mini(MiniFault::BigGranule(1));
    refuses(&rt, rt.alloc(), &ARM64, &[], 4096, fault)
}

#[test]
fn a_file_of_the_first_version_may_be_short(rt: HostRuntime) -> Result<(), Fail> {
    let fault = OpenFault::Short(94208, 94207);
    refuses(&rt, rt.alloc(), &LARGE_BITMAP, &FIRST_VERSION, 94207, fault)
}

// Looks at words of bits.
struct Looks;

impl Counted for Looks {}

// Opens the site's file.
fn opens<S: Site>(rt: &impl Abort, alloc: Global, site: &mut S) -> Core {
    assert!(rt; good_name("vmcore.0"));
    Core::open(alloc, site, "vmcore.0").expect(rt, "a good file")
}

// An open file of this header page with these bytes at their places.
fn open(
    rt: &impl Abort,
    alloc: Global,
    header: &MiniHeader,
    marks: &[(usize, u8)],
    len: usize,
) -> Result<Core, Fail>
    requires { IsTrue (is_current header.now.arch header.now.version) }
{
    let mut site = MemSite::new(alloc, 512, 512, Vec::new(alloc))?;
    site.preset_file("vmcore.0", file(alloc, header, marks, len)?)?;
    Ok(opens(rt, alloc, &mut site))
}

// The pages of these addresses stand at these places.
fn finds(rt: &impl Abort, core: &Core, places: &[(u64, Option<u64>)]) {
    let mut steps = Steps::<Looks>::new();
    for (pa, place) in places {
        assert_eq!(rt; core.find(*pa, &mut steps), *place, "the page of {pa}");
    }
}

// In a file of this header page with these bytes at their places.
fn finds_in(
    rt: &impl Abort,
    alloc: Global,
    header: &MiniHeader,
    marks: &[(usize, u8)],
    len: usize,
    places: &[(u64, Option<u64>)],
) -> Result<(), Fail>
    requires { IsTrue (is_current header.now.arch header.now.version) }
{
    let core = open(rt, alloc, header, marks, len)?;
    finds(rt, &core, places);
    Ok(())
}

#[test]
fn pages_stand_in_the_order_of_their_bits(rt: HostRuntime) -> Result<(), Fail> {
    let places = [
        (0x80000000, None),
        (0x80001fff, Some(20480)),
        (0x80002000, Some(24576)),
        (0x80003000, None),
        (0x80004000, Some(28672)),
        (0x1000, None),
    ];
    finds_in(&rt, rt.alloc(), &RISCV, &SIX_PAGES, 32768, &places)
}

fn has_the_riscv_machines_bits(rt: &impl Abort, core: &Core) {
    assert_eq!(rt;
        (core.header().msgbufsize, core.places().pages),
        (12, 20480)
    );
    assert_eq!(rt; (core.map().count(), core.map().byte(0)), (3, 0x16));
    assert_eq!(rt;
        (core.bit_page(0), core.bit_page(6)),
        (Some(0x80000000), None)
    );
}

#[test]
fn each_bit_has_a_page_of_the_range(rt: HostRuntime) -> Result<(), Fail> {
    let core = open(&rt, rt.alloc(), &RISCV, &SIX_PAGES, 32768)?;
    has_the_riscv_machines_bits(&rt, &core);
    Ok(())
}

// The section of ranges is then read as the bitmap.
#[test]
fn without_ranges_each_page_has_a_bit(rt: HostRuntime) -> Result<(), Fail> {
    let header = MiniHeader {
        dumpavailsize: 0,
        ..RISCV
    };
    let places = [
        (0x1f000, Some(16384)),
        (0x4d000, Some(20480)),
        (0x4e000, Some(24576)),
        (0x5f000, Some(28672)),
        (0x80001000, None),
    ];
    finds_in(&rt, rt.alloc(), &header, &SIX_PAGES, 32768, &places)
}

#[test]
fn the_first_version_of_riscv_has_no_ranges(rt: HostRuntime) -> Result<(), Fail> {
    let places = [
        (0x80001000, Some(81920)),
        (0x80002000, Some(86016)),
        (0x80003000, None),
        (0x80004000, Some(90112)),
    ];
    finds_in(
        &rt,
        rt.alloc(),
        &LARGE_BITMAP,
        &FIRST_VERSION,
        94208,
        &places,
    )
}

// A field of ranges where a later version has it says nothing.
#[test]
fn amd64_has_ranges_from_its_third_version_on(rt: HostRuntime) -> Result<(), Fail> {
    let places = [(0x1000, Some(12288)), (0x2000, None)];
    for version in [1, 2] {
        let marks = [(24, version), (65, 16), (4096, 2)];
        finds_in(&rt, rt.alloc(), &AMD64, &marks, 16384, &places)?;
    }
    Ok(())
}

// The second version of arm64 has no flags, and its field of ranges counts.
#[test]
fn arm64_has_ranges_from_its_second_version_on(rt: HostRuntime) -> Result<(), Fail> {
    let [start, end, high_end, bits] = SIX_PAGES;
    let marks = [start, end, high_end, bits, (24, 2)];
    let places = [(0x80001000, Some(20480)), (0x1000, None)];
    finds_in(&rt, rt.alloc(), &ARM64, &marks, 32768, &places)
}

// The last bit of the largest bitmap alone is set.
#[test]
fn the_largest_bitmap_is_taken(rt: HostRuntime) -> Result<(), Fail> {
    let header = MiniHeader {
        bitmapsize: 1 << 26,
        pmapsize: 0,
        ..AMD64
    };
    let marks = [((1 << 26) + 4095, 0x80)];
    let places = [(4096 * ((1 << 29) - 1), Some((1 << 26) + 4096)), (0, None)];
    finds_in(&rt, rt.alloc(), &header, &marks, (1 << 26) + 8192, &places)
}

// Opens the riscv machine's file where the call of this number fails.
fn opens_where_a_call_fails(rt: &impl Abort, alloc: Global, number: u64) -> Result<(), Fail> {
    let mut site = MemSite::new(alloc, 512, 512, vec![in alloc; number]?)?;
    site.preset_file("vmcore.0", file(alloc, &RISCV, &SIX_PAGES, 32768)?)?;
    is_refused(rt, alloc, &mut site, OpenFault::SiteFault);
    Ok(())
}

#[test]
fn each_failing_call_is_a_fault_of_the_site(rt: HostRuntime) -> Result<(), Fail> {
    for number in 1..=4 {
        opens_where_a_call_fails(&rt, rt.alloc(), number)?;
    }
    Ok(())
}
