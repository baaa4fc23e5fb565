//! What differs between the architectures, in one table.

ghost use Rattle.std.specs.Prelude.{◌≡◌};
ghost use Rattle.fd_bytes.specs.Profile.{profile_of};

use crate::arch::Arch;

/// What differs between the architectures: their address spaces, as the architectures' manuals have them, and their
/// minidumps (`minidump.h` of each architecture). The unit and the greatest size of a kernel window are this project's
/// own.
#[derive(Clone, Copy, Debug, PartialEq, Eq)]
pub struct Profile {
    /// The first physical address that no segment of memory may have.
    pub physical_end: u64,
    /// The least address of a kernel window.
    pub kernel_start: u64,
    /// The levels of page tables.
    pub levels: u32,
    /// What a kernel window's first address and its size in bytes are multiples of.
    pub window_unit: u64,
    /// The greatest size of a kernel window in bytes.
    pub window_limit: u64,
    /// Whether the direct map may begin at another physical address than 0.
    pub shifts_direct_map: bool,
    /// The current version of a minidump's header page.
    pub minidump_version: u32,
    /// The height of the entries of a minidump's page directory: the number of tables below them.
    pub directory_height: u32,
    /// Whether the last-level tables of the kernel window are dumped, because the directory ends above them.
    pub dumps_last_tables: bool,
    /// Whether a reader looks for an address in the kernel window first, and not in the direct map.
    pub window_is_first: bool,
    /// The machine in the header of an ELF file of this architecture: `EM_X86_64`, `EM_AARCH64` and `EM_RISCV` of
    /// `sys/elf_common.h`.
    pub elf_machine: u16,
}

impl Arch {
    /// The architecture's line of the table.
    pub fn profile(self) -> Profile
        ensures { result ≡ profile_of self }
    {
        match self {
            Arch::Amd64 => Profile {
                physical_end: 1 << 52,
                kernel_start: 0xffff_8000_0000_0000,
                levels: 4,
                window_unit: 1 << 30,
                window_limit: 1 << 41,
                shifts_direct_map: false,
                minidump_version: 3,
                directory_height: 1,
                dumps_last_tables: true,
                window_is_first: true,
                elf_machine: 62,
            },
            Arch::Arm64 => Profile {
                physical_end: 1 << 48,
                kernel_start: 0xffff_0000_0000_0000,
                levels: 4,
                window_unit: 1 << 21,
                window_limit: 1 << 36,
                shifts_direct_map: true,
                minidump_version: 3,
                directory_height: 0,
                dumps_last_tables: false,
                window_is_first: false,
                elf_machine: 183,
            },
            Arch::Riscv => Profile {
                physical_end: 1 << 56,
                kernel_start: 0xffff_ffc0_0000_0000,
                levels: 3,
                window_unit: 1 << 21,
                window_limit: 1 << 36,
                shifts_direct_map: true,
                minidump_version: 2,
                directory_height: 0,
                dumps_last_tables: false,
                window_is_first: false,
                elf_machine: 243,
            },
        }
    }
}
