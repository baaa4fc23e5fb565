//! How many pages a generated image has, where they stand, and its windows of kernel addresses.
ghost use Rattle.std.specs.Prelude.{◌≡◌, ◌+◌, ◌^◌, ◌<◌, ◌≤◌};
ghost use Rattle.fd_gen.specs.Layout.{data_pages, first_pages, upper_tables, last_tables, table_address, data_address, kernel_base, kernel_span, windows_of};

use fd_bytes::Arch;
use fd_image::Windows;

/// The physical address of the first table, which is the topmost one.
pub const TABLES: u64 = 0x8000_0000;

/// The physical addresses of the two segments of data.
pub const FIRST_DATA: u64 = 0x9000_0000;

pub const SECOND_DATA: u64 = 0xa000_0000;

/// The bytes of a page, and the entries of a table.
const PAGE: u64 = 4096;

pub const ENTRIES: u64 = 512;

/// The bytes that an entry of height 1 reaches.
const LARGE_PAGE: u64 = 1 << 21;

/// How many pages of data the image of a number has.
pub fn data_pages(number: u64) -> u64
    ensures value { result ≡ data_pages number }
    ensures some { 8 ≤ result }
    ensures few { result < 2 ^ 15 }
{
    8 + number % 16384
}

/// How many of so many pages of data stand in the first segment of data.
pub fn first_pages(pages: u64) -> u64
    ensures value { result ≡ first_pages pages }
    ensures within { result ≤ pages }
{
    pages / 2
}

/// How many tables stand above the last-level tables, one for each height above 0.
pub fn upper_tables(arch: Arch) -> u64
    ensures value { result ≡ upper_tables arch }
    ensures few { result ≤ 3 }
    ensures some { 2 ≤ result }
{
    u64::from(arch.profile().levels) - 1
}

/// How many last-level tables so many pages of data take.
pub fn last_tables(pages: u64) -> u64
    requires { pages < 2 ^ 15 }
    ensures value { result ≡ last_tables pages }
    ensures few { result ≤ 64 }
{
    (pages + (ENTRIES - 1)) / ENTRIES
}

/// The physical address of a table.
pub fn table_address(table: u64) -> u64
    requires { table < 2 ^ 16 }
    ensures value { result ≡ table_address table }
    ensures low { result < 2 ^ 40 }
{
    TABLES + PAGE * table
}

/// The physical address of a page of data.
pub fn data_address(pages: u64, page: u64) -> u64
    requires { page < 2 ^ 16 }
    ensures value { result ≡ data_address pages page }
    ensures low { result < 2 ^ 40 }
{
    let first = first_pages(pages);
    if page < first {
        FIRST_DATA + PAGE * page
    } else {
        SECOND_DATA + PAGE * (page - first)
    }
}

/// The first address of the kernel window.
pub fn kernel_base(arch: Arch) -> u64
    ensures { result ≡ kernel_base arch }
{
    match arch {
        Arch::Amd64 => 0xffff_fe00_0000_0000,
        Arch::Arm64 => 0xffff_0000_0000_0000,
        Arch::Riscv => 0xffff_ffc0_0000_0000,
    }
}

fn kernel_span(arch: Arch, pages: u64) -> u64
    requires { pages < 2 ^ 15 }
    ensures { result ≡ kernel_span arch pages }
{
    match arch {
        Arch::Amd64 => 1 << 30,
        Arch::Arm64 | Arch::Riscv => LARGE_PAGE * (last_tables(pages) + 1),
    }
}

/// The kernel window and the direct map of an image with so many pages of data.
pub fn windows_of(arch: Arch, pages: u64) -> Windows
    requires { pages < 2 ^ 15 }
    ensures { result ≡ windows_of arch pages }
{
    let (dmapbase, dmapend, dmapphys) = match arch {
        Arch::Amd64 => (0xffff_f800_0000_0000, 0xffff_f801_0000_0000, 0),
        Arch::Arm64 => (0xffff_a000_0000_0000, 0xffff_a000_4000_0000, TABLES),
        Arch::Riscv => (0xffff_ffd0_0000_0000, 0xffff_ffd0_4000_0000, TABLES),
    };
    Windows {
        kernbase: kernel_base(arch),
        kernspan: kernel_span(arch, pages),
        dmapbase,
        dmapend,
        dmapphys,
    }
}
