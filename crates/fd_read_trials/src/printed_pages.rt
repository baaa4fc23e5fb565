//! Printing the pages of a file in memory.
use crate::vmcores::site_of;
use fd_bytes::Arch;
use fd_fake::{MemSink, MemSite};
use fd_kvm::Kvm;
use fd_mini::{MiniHeader, write_header};
use fd_site::{Sink, Site, good_name};
use fd_way::{PagesFault, print_pages};
use std::alloc::{AllocError, Global};
use std::process::Abort;
use std::test::Fail;

// A site with the file of a riscv machine with three pages from 0x80000000 on, of which the second and the third are dumped.
// The second page of its kernel window is the third of these.
fn three_pages(alloc: Global, fails: Vec<u64>) -> Result<MemSite, AllocError> {
    let header = MiniHeader {
        arch: Arch::Riscv,
        version: 2,
        msgbufsize: 0,
        bitmapsize: 4096,
        pmapsize: 4096,
        kernbase: 0xffffffc000000000,
        dmapphys: 0x80000000,
        dmapbase: 0xffffffd000000000,
        dmapend: 0xffffffd000003000,
        dumpavailsize: 4096,
        flags: 0,
    };
    let mut page = [0; 4096];
    write_header(&header, &mut page);
    let mut bytes = vec![in alloc; 0u8; 24576]?;
    bytes[..4096].copy_from_slice(&page);
    bytes[4099] = 0x80;
    bytes[4105] = 0x30;
    bytes[4107] = 0x80;
    bytes[8192] = 6;
    bytes[12296] = 0xcf;
    bytes[12297] = 8;
    bytes[12299] = 0x20;
    site_of(alloc, bytes, fails)
}

fn print_file<S: Site, O: Sink>(
    rt: &impl Abort,
    alloc: Global,
    site: &mut S,
    out: &mut O,
) -> Result<u64, PagesFault> {
    assert!(rt; good_name("vmcore.0"));
    let mut kvm = Kvm::open(alloc, site, "vmcore.0", 1).expect(rt, "a good file");
    print_pages(&mut kvm, site, out)
}

#[test]
fn a_line_is_printed_for_each_page(rt: HostRuntime) -> Result<(), Fail> {
    let alloc = rt.alloc();
    let mut site = three_pages(alloc, Vec::new(alloc))?;
    let mut out = MemSink::new(alloc, Vec::new(alloc));
    assert!(rt; print_file(&rt, alloc, &mut site, &mut out) == Ok(2));
    let text =
        b"0000000080002000 ffffffc000001000 ffffffd000002000 rwx 20480\n0000000080001000 - ffffffd000001000 rw- 16384\n2 pages\n";
    assert!(rt; out.bytes() == text.as_slice());
    Ok(())
}

#[test]
fn the_first_lines_stay_where_the_sink_fails(rt: HostRuntime) -> Result<(), Fail> {
    let alloc = rt.alloc();
    let mut site = three_pages(alloc, Vec::new(alloc))?;
    let mut out = MemSink::new(alloc, vec![in alloc; 2]?);
    assert!(rt; print_file(&rt, alloc, &mut site, &mut out) == Err(PagesFault::SinkFault));
    assert!(rt; out.bytes().len() == 61);
    Ok(())
}

#[test]
fn nothing_is_printed_where_the_site_fails_first(rt: HostRuntime) -> Result<(), Fail> {
    let alloc = rt.alloc();
    // Opening makes four calls.
    let mut site = three_pages(alloc, vec![in alloc; 5]?)?;
    let mut out = MemSink::new(alloc, Vec::new(alloc));
    assert!(rt; print_file(&rt, alloc, &mut site, &mut out) == Err(PagesFault::SiteFault));
    assert!(rt; out.bytes().is_empty());
    Ok(())
}
