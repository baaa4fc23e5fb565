//! Walking the pages of a file in memory.
ghost use Rattle.fd_site.specs.Contents.{Told};
ghost use Rattle.fd_kvm.specs.Reader.{StandsFor};

use crate::vmcores::{AMD64_DMAPBASE, AMD64_KERNBASE, header_page, riscv_file, site_of};
use fd_bytes::{Arch, put_u32_le, put_u64_le};
use fd_kvm::{Kvm, Page, Visit};
use fd_site::{Site, SiteFault, good_name};
use std::alloc::{AllocError, Global};
use std::process::Abort;
use std::test::Fail;

// A visitor that compares the pages that it is given with some, and wants so many.
#[derive(Drop)]
struct Compare<'a> {
    wanted: &'a [Page],
    most: usize,
    given: usize,
    same: bool,
}

impl Visit for Compare<'_> {
    ghost took = { λ _ _ _ _. Unit {0} };

    fn visit(&mut self, page: &Page) -> bool {
        self.same = self.same && self.wanted.get(self.given).copied() == Some(*page);
        self.given = self.given.saturating_add(1);
        self.given < self.most
    }
}

// The file of an amd64 machine with the pages from 0x100000 up to 0x106000, 0x401ff000 and 0x40200000, of which the second and
// the third aren't dumped. Its kernel window begins with large pages at 0x40000000 and 0x40200000, and has
// at 1 GiB a table at 0x103000 and one that isn't dumped.
fn kernel_file(alloc: Global) -> Result<Vec<u8>, AllocError> {
    let mut bytes = vec![in alloc; 0u8; 45056]?;
    let file = bytes.as_mut_slice();
    file[..4096].copy_from_slice(&header_page(Arch::Amd64));
    put_u32_le(file, 36, 8192);
    put_u32_le(file, 64, 4096);
    file[8192] = 0xf9;
    let words = [
        (56, 0xfffff80080000000),
        (4096, 0x100000),
        (4104, 0x106000),
        (4112, 0x401ff000),
        (4120, 0x40201000),
        (12288, 0x40000083),
        (12296, 0x40200083),
        (16384, 0x103003),
        (16392, 0x60000003),
        (24576, 0x104003),
        (24584, 0x8000000000105001),
        (24592, 0x60000003),
    ];
    put_words(file, &words);
    Ok(bytes)
}

// Writes words at places of a file that has them.
fn put_words(file: &mut [u8], words: &[(usize, u64)]) {
    for (place, word) in words {
        if *place < file.len().saturating_sub(8) {
            put_u64_le(file, *place, *word);
        }
    }
}

// A page of that machine: its physical address, its address in the kernel window, its protection and its place in the file.
fn kernel_page(pa: u32, kva: Option<u64>, prot: u8, offset: u64) -> Page {
    Page {
        pa: u64::from(pa),
        kva,
        dva: Some(AMD64_DMAPBASE + u64::from(pa)),
        prot,
        offset,
        len: 4096,
    }
}

fn kernel_pages() -> [Page; 6] {
    [
        kernel_page(0x401ff000, Some(AMD64_KERNBASE + 0x1ff000), 7, 36864),
        kernel_page(0x40200000, Some(AMD64_KERNBASE + 0x200000), 7, 40960),
        kernel_page(0x104000, Some(AMD64_KERNBASE + 0x40000000), 7, 28672),
        kernel_page(0x105000, Some(AMD64_KERNBASE + 0x40001000), 1, 32768),
        kernel_page(0x100000, None, 3, 20480),
        kernel_page(0x103000, None, 3, 24576),
    ]
}

// Walks the pages of the site's file, of which so many are wanted and so many are given.
fn walk_pages<S: Site>(
    rt: &impl Abort,
    kvm: &mut Kvm,
    site: &mut S,
    wanted: &[Page],
    most: usize,
) -> (Result<(), SiteFault>, usize)
    requires { Told (S.seen site.old).told (StandsFor kvm.old) }
    ensures { Told (S.seen site.new).told (StandsFor kvm.new) }
{
    let mut visit = Compare {
        wanted,
        most,
        given: 0,
        same: true,
    };
    let answer = kvm.walk_pages(site, &mut visit);
    assert!(rt; visit.same);
    (answer, visit.given)
}

fn walk_file<S: Site>(rt: &impl Abort, alloc: Global, site: &mut S, wanted: &[Page], most: usize) {
    assert!(rt; good_name("vmcore.0"));
    let mut kvm = Kvm::open(alloc, site, "vmcore.0", 2).expect(rt, "a good file");
    assert!(rt; walk_pages(rt, &mut kvm, site, wanted, most) == (Ok(()), wanted.len().min(most)));
}

#[test]
fn pages_of_the_kernel_window_come_first(rt: HostRuntime) -> Result<(), Fail> {
    let alloc = rt.alloc();
    let mut site = site_of(alloc, kernel_file(alloc)?, Vec::new(alloc))?;
    walk_file(&rt, alloc, &mut site, &kernel_pages(), 7);
    Ok(())
}

#[test]
fn a_walk_ends_where_no_more_are_wanted(rt: HostRuntime) -> Result<(), Fail> {
    let alloc = rt.alloc();
    let mut site = site_of(alloc, kernel_file(alloc)?, Vec::new(alloc))?;
    for most in 1..6 {
        walk_file(&rt, alloc, &mut site, &kernel_pages(), most);
    }
    Ok(())
}

#[test]
fn each_page_has_a_bit_where_there_are_no_ranges(rt: HostRuntime) -> Result<(), Fail> {
    let alloc = rt.alloc();
    let mut bytes = riscv_file(alloc)?;
    // The size of the section of ranges becomes 0, and its bytes are read as the bitmap.
    if let Some(byte) = bytes.get_mut(73) {
        *byte = 0;
    }
    let page = |pa: u64, offset: u64| Page {
        pa,
        kva: None,
        dva: None,
        prot: 3,
        offset,
        len: 4096,
    };
    let wanted = [
        page(0x1f000, 16384),
        page(0x4d000, 20480),
        page(0x4e000, 24576),
        page(0x5f000, 28672),
    ];
    let mut site = site_of(alloc, bytes, Vec::new(alloc))?;
    walk_file(&rt, alloc, &mut site, &wanted, 5);
    Ok(())
}

// Walks twice. The first walk fails after so many pages.
fn walk_twice<S: Site>(rt: &impl Abort, alloc: Global, site: &mut S, first: usize) {
    assert!(rt; good_name("vmcore.0"));
    let mut kvm = Kvm::open(alloc, site, "vmcore.0", 2).expect(rt, "a good file");
    let wanted = kernel_pages();
    assert!(rt; walk_pages(rt, &mut kvm, site, &wanted, 7) == (Err(SiteFault), first));
    assert!(rt; walk_pages(rt, &mut kvm, site, &wanted, 7) == (Ok(()), 6));
}

#[test]
fn a_walk_may_be_begun_anew_after_a_call_that_failed(rt: HostRuntime) -> Result<(), Fail> {
    let alloc = rt.alloc();
    // Opening makes four calls; then both pages of the directory are read, and the table that the second one names.
    for (number, first) in [(5, 0), (6, 2), (7, 2)] {
        let mut site = site_of(alloc, kernel_file(alloc)?, vec![in alloc; number]?)?;
        walk_twice(&rt, alloc, &mut site, first);
    }
    Ok(())
}
