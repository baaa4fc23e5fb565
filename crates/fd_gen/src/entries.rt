//! Page table entries of the architectures, with the attributes that generated images have.
ghost use Rattle.std.specs.Prelude.{◌≡◌, ◌^◌, ◌<◌};
ghost use Rattle.fd_gen.specs.Entries.{table_entry, even_page_entry, odd_page_entry, page_entry, large_entry};

use fd_bytes::Arch;

/// The entry that names the table at a physical address.
pub fn table_entry(arch: Arch, pa: u64) -> u64
    requires { pa < 2 ^ 40 }
    ensures { result ≡ table_entry arch pa }
{
    match arch {
        Arch::Amd64 | Arch::Arm64 => pa + 3,
        Arch::Riscv => pa / 4 + 1,
    }
}

/// The entry that maps the page of data of a number, which stands at a physical address.
pub fn page_entry(arch: Arch, page: u64, pa: u64) -> u64
    requires { pa < 2 ^ 40 }
    ensures { result ≡ page_entry arch page pa }
{
    if page % 2 == 0 {
        even_page_entry(arch, pa)
    } else {
        odd_page_entry(arch, pa)
    }
}

// It may be read, written and executed.
fn even_page_entry(arch: Arch, pa: u64) -> u64
    requires { pa < 2 ^ 40 }
    ensures { result ≡ even_page_entry arch pa }
{
    match arch {
        Arch::Amd64 => pa + 3,
        Arch::Arm64 => pa + 0x703,
        Arch::Riscv => pa / 4 + 0xcf,
    }
}

// It may only be read.
fn odd_page_entry(arch: Arch, pa: u64) -> u64
    requires { pa < 2 ^ 40 }
    ensures { result ≡ odd_page_entry arch pa }
{
    match arch {
        Arch::Amd64 => pa + 1 + (1 << 63),
        Arch::Arm64 => pa + 0x783 + (1 << 53),
        Arch::Riscv => pa / 4 + 0x43,
    }
}

/// The entry of height 1 that maps the 2 MiB at a physical address.
pub fn large_entry(arch: Arch, pa: u64) -> u64
    requires { pa < 2 ^ 40 }
    ensures { result ≡ large_entry arch pa }
{
    match arch {
        Arch::Amd64 => pa + 0x83,
        Arch::Arm64 => pa + 0x701,
        Arch::Riscv => pa / 4 + 0xcf,
    }
}
