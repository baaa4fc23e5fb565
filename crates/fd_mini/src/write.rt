//! Writing a header page.
ghost use Rattle.std.specs.Prelude.{◌≡◌, ◌+◌, ◌≤◌, ◌++◌, length, IsTrue};
ghost use Rattle.std.specs.Int.{w32, w64, to_le_bytes};
ghost use Rattle.fd_mini.specs.Layout.{is_current};
ghost use Rattle.fd_mini.specs.Page.{page_of, when};

use crate::header::MiniHeader;
use crate::layout::{layout_of, magic_of};
use fd_bytes::Page;

/// Writes the header page of these fields, with zeros after the last. The version has to be the architecture's current
/// one.
pub fn write_header(header: &MiniHeader, out: &mut [u8; 4096])
    requires { IsTrue (is_current header.now.arch header.now.version) }
    ensures { out.new ≡ page_of header.now }
{
    let layout = layout_of(header.arch, header.version);
    let mut page = Page::<4096>::new();
    page.put(magic_of(header.arch));
    page.put_u32_le(header.version);
    page.put_u32_le(header.msgbufsize);
    page.put_u32_le(header.bitmapsize);
    page.put_u32_le(header.pmapsize);
    page.put_u64_le(header.kernbase);
    put_u64_when(&mut page, layout.has_dmapphys, header.dmapphys);
    page.put_u64_le(header.dmapbase);
    page.put_u64_le(header.dmapend);
    put_u32_when(&mut page, layout.has_dumpavailsize, header.dumpavailsize);
    put_u32_when(&mut page, layout.has_flags, header.flags);
    *out = *page.bytes();
}

// Appends the number where the page has the field.
fn put_u32_when(page: &mut Page<4096>, has_field: bool, value: u32)
    requires { length page.old + 4 ≤ 4096 }
    ensures bytes { page.new ≡ page.old ++ when has_field (to_le_bytes w32 value) }
    ensures len { length page.new ≤ length page.old + 4 }
{
    if has_field {
        page.put_u32_le(value);
    }
}

fn put_u64_when(page: &mut Page<4096>, has_field: bool, value: u64)
    requires { length page.old + 8 ≤ 4096 }
    ensures bytes { page.new ≡ page.old ++ when has_field (to_le_bytes w64 value) }
    ensures len { length page.new ≤ length page.old + 8 }
{
    if has_field {
        page.put_u64_le(value);
    }
}
