//! The fields of a header that say what the file is.

ghost use Rattle.std.specs.Prelude.{◌≡◌, ◌≤◌, ◌++◌, ◌==◌, length};
ghost use Rattle.std.specs.List.{list_any};
ghost use Rattle.fd_elf.specs.Header.{first_refused, ident, identity, type_number};

use crate::field::get_u16_le;
use crate::file_type::FileType;
use crate::machine::arch_of_machine;

/// The size of the header, `Elf64_Ehdr`, in bytes: `e_ehsize`.
pub const HEADER_SIZE: usize = 64;

/// The size of a program header, `Elf64_Phdr`, in bytes: `e_phentsize`.
pub const PROGRAM_HEADER_SIZE: usize = 56;

/// The size of a section header, `Elf64_Shdr`, in bytes: `e_shentsize`.
pub const SECTION_HEADER_SIZE: usize = 64;

/// The version in a header: `e_version`.
pub const EV_CURRENT: u32 = 1;

const MAGIC: [u8; 4] = *b"\x7fELF";

const ELFCLASS64: u8 = 2;

const ELFDATA2LSB: u8 = 1;

/// A field of a header, as a reader sees it.
#[derive(Clone, Copy, Debug, PartialEq, Eq)]
pub struct HeaderField {
    /// Its first byte's place in the header.
    pub place: u64,
    /// Whether it has a value that the reader takes.
    pub is_taken: bool,
}

/// The first 16 bytes of a header, `e_ident`: an ELF file of 64 bits, little-endian, of the current version.
pub fn ident() -> [u8; 16]
    ensures { result ≡ ident }
{
    *b"\x7fELF\x02\x01\x01\0\0\0\0\0\0\0\0\0"
}

/// The place of the first field that a reader refuses of a header: of the magic at 0, the class at 4 and the byte order at
/// 5, which have to be those of an ELF64 file whose numbers are little-endian, of `e_type` at 16, which has to be one of
/// `types`, of `e_machine` at 18, which has to be an architecture's, and then of these other fields. None where it takes
/// them all.
pub fn refused_place(header: &[u8], types: &[FileType], others: &[HeaderField]) -> Option<u64>
    requires { 20 ≤ length header.now }
    ensures { result ≡ first_refused (identity header.now types.now ++ others.now) }
{
    first_refused(&identity(header, types)).or_else(|| first_refused(others))
}

// The fields that say what the file is, in their order.
fn identity(header: &[u8], types: &[FileType]) -> [HeaderField; 5]
    requires { 20 ≤ length header.now }
    ensures { result ≡ identity header.now types.now }
{
    [
        HeaderField {
            place: 0,
            is_taken: header[..4] == MAGIC[..],
        },
        HeaderField {
            place: 4,
            is_taken: header[4] == ELFCLASS64,
        },
        HeaderField {
            place: 5,
            is_taken: header[5] == ELFDATA2LSB,
        },
        HeaderField {
            place: 16,
            is_taken: is_one_of(get_u16_le(header, 16), types),
        },
        HeaderField {
            place: 18,
            is_taken: arch_of_machine(get_u16_le(header, 18)).is_some(),
        },
    ]
}

// Whether this is the number of one of the types.
fn is_one_of(number: u16, types: &[FileType]) -> bool
    ensures { result ≡ list_any (λ t. type_number t == number) types.now }
{
    types.iter().any(|t| t.number() == number)
}

/// The place of the first of these fields that isn't taken, or None where all are.
pub fn first_refused(fields: &[HeaderField]) -> Option<u64>
    ensures { result ≡ first_refused fields.now }
{
    fields
        .iter()
        .find(|field| !field.is_taken)
        .map(|field| field.place)
}
