//! The sections before the dumped pages, each a page of 4096 bytes at a time.
ghost use Rattle.std.specs.Prelude.{◌≡◌, ◌+◌, ◌*◌, ◌/◌, ◌^◌, ◌<◌, ◌≤◌, ◌++◌, length, get_or};
ghost use Rattle.std.specs.Int.{div_ceil};
ghost use Rattle.fd_dump.specs.Minidump.{filled, avail_bytes, bitmap_bytes};
ghost use Rattle.fd_dump.specs.Sections.{nth_page, pair_bytes, page_span, directory_page_of};
ghost use Rattle.fd_dump.specs.Serves.{Serves};

use fd_bitmap::Bitmap;
use fd_bytes::{Arch, Page};
use fd_image::Image;
use fd_pte::{Amd64, Arm64, Entry, Riscv};
use fd_walk::Walker;

/// The page of this index of a section of these bytes.
pub(crate) fn filled_page(bytes: &[u8], index: u64, out: &mut [u8; 4096])
    requires { 4096 * index < length bytes.now }
    ensures { out.new ≡ nth_page (filled bytes.now) index }
{
    let rest = &bytes[4096 * index as usize..];
    let mut page = Page::<4096>::new();
    page.put(&rest[..rest.len().min(4096)]);
    *out = *page.bytes();
}

/// The page of this index of the ranges of available memory.
pub(crate) fn avail_page(pairs: &[(u64, u64)], index: u64, out: &mut [u8; 4096])
    requires few { length pairs.now ≤ 1024 }
    requires within { 4096 * index < 16 * length pairs.now + 16 }
    ensures { out.new ≡ nth_page (filled (avail_bytes pairs.now)) index }
{
    let mut page = Page::<4096>::new();
    for place in 0..256 {
        put_pair(&mut page, pair_at(pairs, 256 * index + place));
    }
    *out = *page.bytes();
}

/// The pair of this index, zeros past the last.
#[tactic(auto, using(std::proofs::lemmas::Grind::common_steps))]
fn pair_at(pairs: &[(u64, u64)], index: u64) -> (u64, u64)
    ensures { result ≡ get_or pairs.now index (0, 0) }
{
    match pairs.get(index as usize) {
        Some(pair) => *pair,
        None => (0, 0),
    }
}

/// Appends a pair of addresses.
fn put_pair(page: &mut Page<4096>, pair: (u64, u64))
    requires { length page.old + 16 ≤ 4096 }
    ensures bytes { page.new ≡ page.old ++ pair_bytes pair }
    ensures len { length page.new ≡ length page.old + 16 }
{
    page.put_u64_le(pair.0);
    page.put_u64_le(pair.1);
}

/// The page of this index of the bitmap.
pub(crate) fn bitmap_page(map: &Bitmap, index: u64, out: &mut [u8; 4096])
    requires few { length map.now ≤ 2 ^ 28 }
    requires within { 4096 * index < div_ceil (length map.now) 8 }
    ensures { out.new ≡ nth_page (filled (bitmap_bytes map.now)) index }
{
    let mut page = Page::<4096>::new();
    for place in 0..4096 {
        page.put_u8(map.byte(4096 * index + place));
    }
    *out = *page.bytes();
}

/// The page of this index of the kernel window's page directory.
pub(crate) fn directory_page(image: &Image, index: u64, out: &mut [u8; 4096])
    requires { index < image.now.windows.kernspan / page_span image.now.arch }
    ensures { out.new ≡ directory_page_of image.now index }
{
    match image.arch() {
        Arch::Amd64 => walked_page::<Amd64, 4>(image, index, out),
        Arch::Arm64 => walked_page::<Arm64, 4>(image, index, out),
        Arch::Riscv => {
            if image.levels() == 4 {
                walked_page::<Riscv, 4>(image, index, out);
            } else {
                walked_page::<Riscv, 3>(image, index, out);
            }
        }
    }
}

/// The same of an image whose page tables have these entries.
fn walked_page<E: Entry, const LEVELS: usize>(image: &Image, index: u64, out: &mut [u8; 4096])
    requires serves { Serves E.kind_of E.DIRECTORY_HEIGHT E.expansion LEVELS image.now }
    requires within { index < image.now.windows.kernspan / page_span image.now.arch }
    ensures { out.new ≡ directory_page_of image.now index }
{
    Walker::<E, LEVELS>::directory_page(image, image.root(), image.windows().kernbase, index, out);
}
