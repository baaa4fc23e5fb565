//! The fields of the header page.
ghost use Rattle.std.specs.Prelude.{◌≡◌, ◌+◌, ◌*◌, ◌≤◌, ◌^◌, length};
ghost use Rattle.std.specs.Int.{div_ceil};
ghost use Rattle.fd_bitmap.specs.Pages.{pages_of};
ghost use Rattle.fd_image.specs.Image.{IsValid};
ghost use Rattle.fd_pte.specs.Architecture.{directory_height_of};
ghost use Rattle.fd_pte.specs.Entry.{bytes_under};
ghost use Rattle.fd_mini.specs.Places.{rounded_up};
ghost use Rattle.fd_dump.specs.Minidump.{entry_count, mini_header_of};

use fd_bytes::Arch;
use fd_image::Image;
use fd_mini::{MiniHeader, rounded_up};
use fd_pte::directory_height;

/// The fields of the header page of an image whose pages have so many bits.
#[tactic(auto, using(crate::proofs::Sizes::lengths))]
pub(crate) fn mini_header(image: &Image, bits: u64) -> MiniHeader
    requires { bits ≡ length (pages_of image.now.avail) }
    ensures value { result ≡ mini_header_of image.now }
    ensures valid { IsValid image.now }
{
    let arch = image.arch();
    let windows = image.windows();
    MiniHeader {
        arch,
        version: arch.profile().minidump_version,
        msgbufsize: image.texts().msgbuf.len() as u32,
        bitmapsize: section_size(bits.div_ceil(8)),
        pmapsize: directory_size(image),
        kernbase: windows.kernbase,
        dmapphys: windows.dmapphys,
        dmapbase: windows.dmapbase,
        dmapend: windows.dmapend,
        dumpavailsize: section_size(16 * image.avail().len() as u64 + 16),
        flags: 0,
    }
}

/// How many bytes the page directory of the kernel window has.
fn directory_size(image: &Image) -> u32
    ensures { result ≡ 8 * entry_count image.now }
{
    8 * (image.windows().kernspan / entry_span(image.arch())) as u32
}

/// How many bytes of addresses an entry of the directory is for.
fn entry_span(arch: Arch) -> u64
    ensures { result ≡ bytes_under (directory_height_of arch) }
{
    1 << (12 + 9 * directory_height(arch))
}

/// The size of a section that has this many bytes.
fn section_size(size: u64) -> u32
    requires { size ≤ 2 ^ 31 }
    ensures { result ≡ rounded_up size }
{
    rounded_up(size) as u32
}
