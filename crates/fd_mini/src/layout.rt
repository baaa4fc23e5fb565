//! What differs between the header pages of the architectures and of their versions.
ghost use Rattle.std.specs.Prelude.{◌≡◌, ◌^◌, ◌<◌, ◌≤◌, length};
ghost use Rattle.fd_mini.specs.Layout.{arch_of_magic, entry_height_of, has_version, is_current, layout_of, magic_of, unit_of};

use crate::header::MiniHeader;
use fd_bytes::Arch;

/// Which of the fields a header page has that not all have.
#[derive(Clone, Copy, PartialEq, Eq, Debug)]
pub(crate) struct Layout {
    pub(crate) has_dmapphys: bool,
    pub(crate) has_dumpavailsize: bool,
    pub(crate) has_flags: bool,
}

/// Whether header pages of this version are read: each version from 1 to the architecture's current one is.
pub fn has_version(arch: Arch, version: u32) -> bool
    ensures { result ≡ has_version arch version }
{
    1 <= version && version <= arch.profile().minidump_version
}

/// Whether header pages of this version are written: the architecture's current one alone is.
pub fn is_current(arch: Arch, version: u32) -> bool
    ensures { result ≡ is_current arch version }
{
    version == arch.profile().minidump_version
}

pub(crate) fn layout_of(arch: Arch, version: u32) -> Layout
    ensures { result ≡ layout_of arch version }
{
    match arch {
        Arch::Amd64 => Layout {
            has_dmapphys: false,
            has_dumpavailsize: 3 <= version,
            has_flags: false,
        },
        Arch::Arm64 => Layout {
            has_dmapphys: true,
            has_dumpavailsize: 2 <= version,
            has_flags: 3 <= version,
        },
        Arch::Riscv => Layout {
            has_dmapphys: true,
            has_dumpavailsize: 2 <= version,
            has_flags: false,
        },
    }
}

/// The height of the entries of the page directory: the number of tables below them. In amd64's version 1 an entry maps
/// a page, and from version 2 on it names a table of such entries (`_amd64_minidump_kvatop_v1` of libkvm).
pub fn entry_height_of(header: &MiniHeader) -> u32
    ensures value { result ≡ entry_height_of header.now }
    ensures low { result ≤ 1 }
{
    if 2 <= header.version {
        header.arch.profile().directory_height
    } else {
        0
    }
}

/// How many bytes of kernel addresses an entry of the page directory maps.
pub fn unit_of(header: &MiniHeader) -> u64
    ensures value { result ≡ unit_of header.now }
    ensures some { 0 < result }
    ensures small { result ≤ 2 ^ 21 }
{
    match entry_height_of(header) {
        0 => 1 << 12,
        _ => 1 << 21,
    }
}

/// The 24 bytes with which an architecture's header page begins.
pub(crate) fn magic_of(arch: Arch) -> &'static [u8]
    ensures value { result.now ≡ magic_of arch }
    ensures len { length result.now ≡ 24 }
{
    match arch {
        Arch::Amd64 => b"minidump FreeBSD/amd64\0\0",
        Arch::Arm64 => b"minidump FreeBSD/arm64\0\0",
        Arch::Riscv => b"minidump FreeBSD/riscv\0\0",
    }
}

/// The architecture whose header page begins with these bytes, if there is one.
pub(crate) fn arch_of_magic(magic: &[u8]) -> Option<Arch>
    ensures { result ≡ arch_of_magic magic.now }
{
    if magic == magic_of(Arch::Amd64) {
        return Some(Arch::Amd64);
    }
    if magic == magic_of(Arch::Arm64) {
        return Some(Arch::Arm64);
    }
    if magic == magic_of(Arch::Riscv) {
        return Some(Arch::Riscv);
    }
    None
}
