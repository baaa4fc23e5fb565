//! Program headers.

ghost use Rattle.std.specs.Prelude.{◌≡◌};
ghost use Rattle.fd_elfcore.specs.Layout.{program_header_at};

use fd_bytes::{get_u32_le, get_u64_le};

/// A program header: `Elf64_Phdr` of sys/elf64.h, field by field.
#[derive(Clone, Copy, PartialEq, Eq, Debug)]
pub struct ProgramHeader {
    pub p_type: u32,
    pub p_flags: u32,
    pub p_offset: u64,
    pub p_vaddr: u64,
    pub p_paddr: u64,
    pub p_filesz: u64,
    pub p_memsz: u64,
    pub p_align: u64,
}

impl ProgramHeader {
    // Of its bytes.
    pub(crate) fn of(bytes: &[u8; 56]) -> ProgramHeader
        ensures { result ≡ program_header_at bytes.now 0 }
    {
        ProgramHeader {
            p_type: get_u32_le(bytes, 0),
            p_flags: get_u32_le(bytes, 4),
            p_offset: get_u64_le(bytes, 8),
            p_vaddr: get_u64_le(bytes, 16),
            p_paddr: get_u64_le(bytes, 24),
            p_filesz: get_u64_le(bytes, 32),
            p_memsz: get_u64_le(bytes, 40),
            p_align: get_u64_le(bytes, 48),
        }
    }
}
