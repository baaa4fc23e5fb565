//! Saved minidumps of small machines, as files in memory.
use fd_bytes::{Arch, put_u64_le};
use fd_fake::MemSite;
use fd_mini::{MiniHeader, write_header};
use std::alloc::{AllocError, Global};

pub(crate) const KERNBASE: u64 = 0xffffffc000000000;

pub(crate) const DMAPBASE: u64 = 0xffffffd000000000;

pub(crate) const AMD64_KERNBASE: u64 = 0xfffffe0000000000;

pub(crate) const AMD64_DMAPBASE: u64 = 0xfffff80000000000;

// The header page of a machine of either architecture; where it has ranges, its direct map begins at 0x80000000.
pub(crate) fn header_page(arch: Arch) -> [u8; 4096] {
    let header = match arch {
        Arch::Amd64 => MiniHeader {
            arch: Arch::Amd64,
            version: 3,
            msgbufsize: 0,
            bitmapsize: 4096,
            pmapsize: 4096,
            kernbase: AMD64_KERNBASE,
            dmapphys: 0,
            dmapbase: AMD64_DMAPBASE,
            dmapend: 0xfffff80000006000,
            dumpavailsize: 0,
            flags: 0,
        },
        Arch::Arm64 | Arch::Riscv => MiniHeader {
            arch: Arch::Riscv,
            version: 2,
            msgbufsize: 12,
            bitmapsize: 4096,
            pmapsize: 4096,
            kernbase: KERNBASE,
            dmapphys: 0x80000000,
            dmapbase: DMAPBASE,
            dmapend: 0xffffffd000006000,
            dumpavailsize: 4096,
            flags: 0,
        },
    };
    let mut page = [0; 4096];
    write_header(&header, &mut page);
    page
}

// A riscv machine with six pages from 0x80000000 on. Those at 0x80001000, 0x80002000 and 0x80004000 are dumped, and have
// the bytes 1, 2 and 4. The first two pages of the kernel window are at 0x80004000 and at 0x80003000.
pub(crate) fn riscv_file(alloc: Global) -> Result<Vec<u8>, AllocError> {
    let mut bytes = vec![in alloc; 0u8; 32768]?;
    bytes[..4096].copy_from_slice(&header_page(Arch::Riscv));
    put_u64_le(bytes.as_mut_slice(), 8192, 0x80000000);
    put_u64_le(bytes.as_mut_slice(), 8200, 0x80006000);
    bytes[12288] = 0x16;
    put_u64_le(bytes.as_mut_slice(), 16384, 0x200010cf);
    put_u64_le(bytes.as_mut_slice(), 16392, 0x20000ccf);
    bytes[20480..24576].fill(1);
    bytes[24576..28672].fill(2);
    bytes[28672..].fill(4);
    Ok(bytes)
}

// A site with a file of these bytes, of whose calls those of these numbers fail.
pub(crate) fn site_of(
    alloc: Global,
    bytes: Vec<u8>,
    fails: Vec<u64>,
) -> Result<MemSite, AllocError> {
    let mut site = MemSite::new(alloc, 512, 512, fails)?;
    site.preset_file("vmcore.0", bytes)?;
    Ok(site)
}
