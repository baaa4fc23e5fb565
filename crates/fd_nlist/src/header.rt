//! What is read of a kernel's header.
ghost use Rattle.std.specs.Prelude.{◌≡◌, ◌+◌, ◌*◌, ◌<◌, ◌^◌, IfOk};
ghost use Rattle.fd_nlist.specs.Header.{header_in, sections_end};

use fd_bytes::get_u64_le;
use fd_elf::{FileType, HEADER_SIZE, HeaderField, SECTION_HEADER_SIZE, get_u16_le, refused_place};

/// Of a header, `Elf64_Ehdr`: the machine, and where the section headers stand and how many there are.
#[derive(Clone, Copy)]
pub(crate) struct KernelHeader {
    pub(crate) e_machine: u16,
    pub(crate) e_shoff: u64,
    pub(crate) e_shnum: u16,
}

impl KernelHeader {
    /// How many bytes the section headers have.
    pub(crate) fn sections_size(&self) -> u64
        ensures size { result ≡ 64 * self.now.e_shnum }
        ensures limit { result < 2 ^ 22 }
    {
        SECTION_HEADER_SIZE as u64 * u64::from(self.e_shnum)
    }
}

/// The header in a file's first bytes, or the place of its first field that isn't a kernel's.
#[tactic(auto, unfolding(crate::specs::Header::header_in))]
pub(crate) fn read_header(bytes: &[u8; HEADER_SIZE]) -> Result<KernelHeader, u64>
    ensures header { result ≡ header_in bytes.now }
    ensures end { IfOk result (λ h. sections_end h < 2 ^ 64) }
{
    let header = KernelHeader {
        e_machine: get_u16_le(bytes, 18),
        e_shoff: get_u64_le(bytes, 40),
        e_shnum: get_u16_le(bytes, 60),
    };
    let others = [
        HeaderField {
            place: 58,
            is_taken: usize::from(get_u16_le(bytes, 58)) == SECTION_HEADER_SIZE,
        },
        HeaderField {
            place: 40,
            is_taken: header.e_shoff.checked_add(header.sections_size()).is_some(),
        },
    ];
    match refused_place(
        bytes,
        &[FileType::Executable, FileType::SharedObject],
        &others,
    ) {
        Some(place) => Err(place),
        None => Ok(header),
    }
}
