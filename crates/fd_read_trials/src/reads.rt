//! Reading kernel memory out of a file in memory.
use crate::vmcores::{
    AMD64_DMAPBASE, AMD64_KERNBASE, DMAPBASE, KERNBASE, header_page, riscv_file, site_of,
};
use fd_bytes::{Arch, put_u32_le, put_u64_le};
use fd_fake::MemSite;
use fd_kvm::{Kvm, ReadFault};
use fd_mini::AddressFault;
use fd_site::{Site, good_name};
use fd_vmcore::OpenFault;
use std::alloc::{AllocError, Global};
use std::process::Abort;
use std::test::Fail;

// An amd64 machine without ranges, whose pages at 0x2000, 0x5000 and 0x201000 are dumped. The kernel window begins with
// the table at 0x2000, which maps its second page to 0x5000, a table at 0x3000, and a large page at 0x200000.
fn amd64_file(alloc: Global) -> Result<Vec<u8>, AllocError> {
    let mut bytes = vec![in alloc; 0u8; 24576]?;
    bytes[..4096].copy_from_slice(&header_page(Arch::Amd64));
    bytes[4096] = 0x24;
    bytes[4160] = 2;
    put_u64_le(bytes.as_mut_slice(), 8192, 0x2003);
    put_u64_le(bytes.as_mut_slice(), 8200, 0x3003);
    put_u64_le(bytes.as_mut_slice(), 8208, 0x200083);
    put_u64_le(bytes.as_mut_slice(), 12296, 0x5003);
    bytes[16384..20480].fill(5);
    bytes[20480..].fill(7);
    Ok(bytes)
}

// The riscv machine as version 1 has it, without ranges: its bitmap has all physical pages from 0 on.
fn first_riscv_file(alloc: Global) -> Result<Vec<u8>, AllocError> {
    let mut bytes = vec![in alloc; 0u8; 94208]?;
    bytes[..4096].copy_from_slice(&header_page(Arch::Riscv));
    bytes[24] = 1;
    put_u32_le(bytes.as_mut_slice(), 32, 69632);
    bytes[8192 + 65536] = 0x16;
    bytes[86016..90112].fill(2);
    Ok(bytes)
}

// An amd64 machine of this version whose page at 0x1000 alone is dumped. The fourth entry of its directory names that page,
// in version 1 for the fourth page of the kernel window.
fn early_amd64_file(alloc: Global, version: u8) -> Result<Vec<u8>, AllocError> {
    let mut bytes = vec![in alloc; 0u8; 16384]?;
    bytes[..4096].copy_from_slice(&header_page(Arch::Amd64));
    bytes[24] = version;
    bytes[4096] = 2;
    put_u64_le(bytes.as_mut_slice(), 8216, 0x1003);
    bytes[12304] = 0xab;
    bytes[12305] = 0xcd;
    Ok(bytes)
}

// A riscv machine without ranges whose page at 0 is dumped, and whose direct map goes past the last physical address.
fn high_file(alloc: Global) -> Result<Vec<u8>, AllocError> {
    let mut bytes = vec![in alloc; 0u8; 20480]?;
    bytes[..4096].copy_from_slice(&header_page(Arch::Riscv));
    put_u64_le(bytes.as_mut_slice(), 48, 0xfffffffffffff000);
    put_u32_le(bytes.as_mut_slice(), 72, 0);
    bytes[8192] = 1;
    Ok(bytes)
}

// What a read from an address on leaves in a buffer of nines, and its answer.
type Row<'a> = (u64, &'a [u8], Result<(), ReadFault>);

fn address(fault: AddressFault) -> Result<(), ReadFault> {
    Err(ReadFault::Address(fault))
}

// Reads of the site's file by a reader of its own.
fn read_row<S: Site>(rt: &impl Abort, alloc: Global, site: &mut S, row: Row) -> Result<(), Fail> {
    let (va, wanted, answer) = row;
    assert!(rt; good_name("vmcore.0"));
    let mut kvm = Kvm::open(alloc, site, "vmcore.0", 1).expect(rt, "a good file");
    let mut out = vec![in alloc; 9u8; wanted.len()]?;
    let read = kvm.read(site, va, out.as_mut_slice());
    assert!(rt; read == answer && out.as_slice() == wanted, "at {va}");
    Ok(())
}

fn read_rows<S: Site>(
    rt: &impl Abort,
    alloc: Global,
    site: &mut S,
    rows: &[Row],
) -> Result<(), Fail> {
    for row in rows {
        read_row(rt, alloc, site, *row)?;
    }
    Ok(())
}

// Reads of a file of these bytes.
fn read_file(rt: &impl Abort, alloc: Global, bytes: Vec<u8>, rows: &[Row]) -> Result<(), Fail> {
    let mut site = site_of(alloc, bytes, Vec::new(alloc))?;
    read_rows(rt, alloc, &mut site, rows)?;
    assert_eq!(rt; site.starved(), 0);
    Ok(())
}

#[test]
fn bytes_come_from_page_after_page(rt: HostRuntime) -> Result<(), Fail> {
    let alloc = rt.alloc();
    let mut bytes = riscv_file(alloc)?;
    // Bytes behind the last page are no whole page.
    bytes.extend_from_slice(&[8; 5])?;
    let rows: [Row; 3] = [
        (DMAPBASE + 0x1ffe, &[1, 1, 2, 2], Ok(())),
        (KERNBASE + 0xffd, &[4, 4, 4], Ok(())),
        (u64::MAX, &[], Ok(())),
    ];
    read_file(&rt, alloc, bytes, &rows)
}

#[test]
fn a_read_ends_at_the_first_address_without_a_byte(rt: HostRuntime) -> Result<(), Fail> {
    let alloc = rt.alloc();
    let missing = address(AddressFault::NotDumped(DMAPBASE + 0x3000));
    let undumped = address(AddressFault::NotDumped(KERNBASE + 0x1000));
    let unmapped = address(AddressFault::NotMapped(KERNBASE + 0x2000));
    let rows: [Row; 6] = [
        (DMAPBASE + 0x2ffd, &[2, 2, 2, 9, 9], missing),
        (KERNBASE + 0xfff, &[4, 9], undumped),
        (KERNBASE + 0x2000, &[9], unmapped),
        (1, &[9, 9], address(AddressFault::Outside(1))),
        (u64::MAX, &[9], address(AddressFault::Outside(u64::MAX))),
        (u64::MAX, &[9, 9], address(AddressFault::PastTop)),
    ];
    read_file(&rt, alloc, riscv_file(alloc)?, &rows)
}

#[test]
fn a_table_maps_the_pages_of_an_amd64_kernel(rt: HostRuntime) -> Result<(), Fail> {
    let alloc = rt.alloc();
    let unmapped = address(AddressFault::NotMapped(AMD64_KERNBASE + 0x2000));
    let missing = address(AddressFault::TableMissing(AMD64_KERNBASE + 0x200000));
    let undumped = address(AddressFault::NotDumped(AMD64_KERNBASE + 0x402000));
    let rows: [Row; 4] = [
        (AMD64_KERNBASE + 0x1ffe, &[5, 5, 9], unmapped),
        (AMD64_KERNBASE + 0x200000, &[9], missing),
        (AMD64_KERNBASE + 0x401fff, &[7, 9], undumped),
        (AMD64_DMAPBASE + 0x5000, &[5], Ok(())),
    ];
    read_file(&rt, alloc, amd64_file(alloc)?, &rows)
}

#[test]
fn an_entry_of_amd64_maps_a_page_in_version_1(rt: HostRuntime) -> Result<(), Fail> {
    let alloc = rt.alloc();
    let rows: [Row; 1] = [(AMD64_KERNBASE + 0x3010, &[0xab, 0xcd], Ok(()))];
    read_file(&rt, alloc, early_amd64_file(alloc, 1)?, &rows)
}

#[test]
fn it_maps_many_from_version_2_on(rt: HostRuntime) -> Result<(), Fail> {
    let alloc = rt.alloc();
    let va = AMD64_KERNBASE + 0x3010;
    let rows: [Row; 1] = [(va, &[9, 9], address(AddressFault::NotMapped(va)))];
    read_file(&rt, alloc, early_amd64_file(alloc, 2)?, &rows)
}

#[test]
fn version_1_of_riscv_has_no_ranges(rt: HostRuntime) -> Result<(), Fail> {
    let alloc = rt.alloc();
    let rows: [Row; 1] = [(DMAPBASE + 0x2008, &[2; 8], Ok(()))];
    read_file(&rt, alloc, first_riscv_file(alloc)?, &rows)
}

#[test]
fn no_page_has_an_address_past_64_bits(rt: HostRuntime) -> Result<(), Fail> {
    let alloc = rt.alloc();
    let va = DMAPBASE + 0x1000;
    let rows: [Row; 1] = [(va, &[9], address(AddressFault::NotDumped(va)))];
    read_file(&rt, alloc, high_file(alloc)?, &rows)
}

// Opens the site's file, which is refused.
fn is_refused<S: Site>(rt: &impl Abort, alloc: Global, site: &mut S, fault: OpenFault) {
    assert!(rt; good_name("vmcore.0"));
    assert_eq!(rt; Kvm::open(alloc, site, "vmcore.0", 1).err(), Some(fault));
}

#[test]
fn a_file_is_refused_that_lacks_one_byte(rt: HostRuntime) -> Result<(), Fail> {
    let alloc = rt.alloc();
    let mut bytes = first_riscv_file(alloc)?;
    bytes.truncate(94207);
    let mut site = site_of(alloc, bytes, Vec::new(alloc))?;
    is_refused(&rt, alloc, &mut site, OpenFault::Short(94208, 94207));
    Ok(())
}

#[test]
fn there_may_be_no_file(rt: HostRuntime) -> Result<(), Fail> {
    let alloc = rt.alloc();
    let mut site = MemSite::new(alloc, 512, 512, Vec::new(alloc))?;
    is_refused(&rt, alloc, &mut site, OpenFault::NoFile);
    Ok(())
}

// Opens a file where the call of this number fails.
fn fails_to_open(rt: &impl Abort, alloc: Global, number: u64) -> Result<(), Fail> {
    let mut site = site_of(alloc, riscv_file(alloc)?, vec![in alloc; number]?)?;
    is_refused(rt, alloc, &mut site, OpenFault::SiteFault);
    Ok(())
}

#[test]
fn each_call_of_opening_may_fail(rt: HostRuntime) -> Result<(), Fail> {
    let alloc = rt.alloc();
    for number in 1..5 {
        fails_to_open(&rt, alloc, number)?;
    }
    Ok(())
}

// Reads the same bytes of the kernel window twice. The first read may fail.
fn read_twice<S: Site>(
    rt: &impl Abort,
    alloc: Global,
    site: &mut S,
    first: Result<(), ReadFault>,
) -> Result<(), Fail> {
    assert!(rt; good_name("vmcore.0"));
    let mut kvm = Kvm::open(alloc, site, "vmcore.0", 2).expect(rt, "a good file");
    let mut out = [0; 16];
    assert!(rt; kvm.read(site, KERNBASE, &mut out) == first);
    out[15] = 0;
    assert!(rt; kvm.read(site, KERNBASE, &mut out) == Ok(()) && out == [4; 16]);
    Ok(())
}

// The same where the call of this number fails.
fn fails_and_reads(rt: &impl Abort, alloc: Global, number: u64) -> Result<(), Fail> {
    let mut site = site_of(alloc, riscv_file(alloc)?, vec![in alloc; number]?)?;
    read_twice(rt, alloc, &mut site, Err(ReadFault::SiteFault))
}

#[test]
fn a_reader_goes_on_after_a_call_that_failed(rt: HostRuntime) -> Result<(), Fail> {
    let alloc = rt.alloc();
    for number in 5..7 {
        fails_and_reads(&rt, alloc, number)?;
    }
    Ok(())
}

#[test]
fn a_second_read_makes_no_call(rt: HostRuntime) -> Result<(), Fail> {
    let alloc = rt.alloc();
    let mut site = site_of(alloc, riscv_file(alloc)?, Vec::new(alloc))?;
    read_twice(&rt, alloc, &mut site, Ok(()))?;
    // Opening makes four calls, and the first read one for the directory's entry and one for the bytes.
    assert_eq!(rt; site.calls(), 6);
    Ok(())
}
