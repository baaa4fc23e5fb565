//! Reading a header page.
ghost use Rattle.std.specs.Prelude.{◌≡◌, ◌+◌, ◌≤◌, if◌then◌else◌, length};
ghost use Rattle.fd_bytes.specs.Field.{u32_le_at, u64_le_at};
ghost use Rattle.fd_mini.specs.Page.{fields_in, shift_of};
ghost use Rattle.fd_mini.specs.Read.{header_in, within_limits};

use crate::header::MiniHeader;
use crate::layout::{arch_of_magic, has_version, layout_of};
use crate::mini_fault::{MiniFault, MiniField};
use fd_bytes::{Arch, get_u32_le, get_u64_le};

/// The fields of a header page, or the first reason to refuse it. Bytes past the fields are ignored.
#[tactic(auto, unfolding(crate::specs::Read::header_in))]
pub fn read_header(page: &[u8; 4096]) -> Result<MiniHeader, MiniFault>
    ensures { result ≡ header_in page.now }
{
    match arch_of_magic(&page[..24]) {
        Some(arch) => {
            let version = get_u32_le(&page[..], 24);
            if !has_version(arch, version) {
                return Err(MiniFault::UnknownVersion(version));
            }
            within_limits(fields_in(arch, &page[..]))
        }
        None => Err(MiniFault::BadMagic),
    }
}

// The header, unless it breaks a limit.
fn within_limits(header: MiniHeader) -> Result<MiniHeader, MiniFault>
    ensures { result ≡ within_limits header }
{
    if header.flags % 4 != 0 {
        return Err(MiniFault::BigGranule(header.flags));
    }
    if header.dumpavailsize > 1 << 20 {
        return Err(MiniFault::TooLarge(MiniField::DumpAvail, header.dumpavailsize));
    }
    if header.bitmapsize > 1 << 26 {
        return Err(MiniFault::TooLarge(MiniField::Bitmap, header.bitmapsize));
    }
    Ok(header)
}

// The fields in an architecture's page.
fn fields_in(arch: Arch, page: &[u8]) -> MiniHeader
    requires { 80 ≤ length page.now }
    ensures { result ≡ fields_in arch page.now }
{
    let version = get_u32_le(page, 24);
    let layout = layout_of(arch, version);
    let shift = shift_of(layout.has_dmapphys);
    MiniHeader {
        arch,
        version,
        msgbufsize: get_u32_le(page, 28),
        bitmapsize: get_u32_le(page, 32),
        pmapsize: get_u32_le(page, 36),
        kernbase: get_u64_le(page, 40),
        dmapphys: u64_when(layout.has_dmapphys, page, 48),
        dmapbase: get_u64_le(page, 48 + shift),
        dmapend: get_u64_le(page, 56 + shift),
        dumpavailsize: u32_when(layout.has_dumpavailsize, page, 64 + shift),
        flags: u32_when(layout.has_flags, page, 68 + shift),
    }
}

// How many bytes the field takes that the page may not have.
fn shift_of(has_dmapphys: bool) -> usize
    ensures value { result ≡ shift_of has_dmapphys }
    ensures bounded { result ≤ 8 }
{
    if has_dmapphys { 8 } else { 0 }
}

// The number, or 0 where the page doesn't have the field.
fn u32_when(has_field: bool, page: &[u8], at: usize) -> u32
    requires { at + 4 ≤ length page.now }
    ensures { result ≡ (if has_field then u32_le_at page.now at else 0) }
{
    if has_field { get_u32_le(page, at) } else { 0 }
}

fn u64_when(has_field: bool, page: &[u8], at: usize) -> u64
    requires { at + 8 ≤ length page.now }
    ensures { result ≡ (if has_field then u64_le_at page.now at else 0) }
{
    if has_field { get_u64_le(page, at) } else { 0 }
}
