//! An ELF core of a saved minidump: a file whose segments are kernel addresses, opened and read. Stands on `fd_elf` for what
//! ELF files share, and on `fd_mini` for what a read of kernel addresses gives; follows the System V ABI and elf(5).
#![tactic(auto)]

mod elf;
mod elf_fault;
mod program_header;
mod segment;

pub use elf::Elf;
pub use elf_fault::{ElfOpenFault, ElfReadFault};
pub use program_header::ProgramHeader;
pub use segment::Segment;
