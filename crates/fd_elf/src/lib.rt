//! What every ELF64 file shares that is read or written here, a kernel or a core: the fields of its header that say what it
//! is, the machines of the architectures, and numbers of two bytes.
//!
//! Stands on `byteorder` and on the table of architectures in `fd_bytes`. Follows the System V ABI's chapter on object
//! files, whose structs are in FreeBSD's `sys/elf64.h` and whose constants are in `sys/elf_common.h` (elf(5)).
#![tactic(auto)]

mod field;
mod file_type;
mod header;
mod machine;

pub use field::{get_u16_le, put_u16_le};
pub use file_type::FileType;
pub use header::{
    EV_CURRENT, HEADER_SIZE, HeaderField, PROGRAM_HEADER_SIZE, SECTION_HEADER_SIZE, first_refused,
    ident, refused_place,
};
pub use machine::{arch_of_machine, each_machine_is_read_back};
