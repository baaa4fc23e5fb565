//! Why an ELF core isn't opened or read.
ghost use Rattle.std.specs.Prelude.{◌≡◌};

use fd_site::Failed;
use std::alloc::AllocError;

/// Why an ELF core isn't opened, in the order of the tests. Sizes are in bytes.
#[derive(Clone, Copy, PartialEq, Eq, Debug)]
pub enum ElfOpenFault {
    /// There is no such file.
    NoFile,
    /// The file needs so many bytes and has so many: for the header, for the program headers, or for the segments.
    Short(u64, u64),
    /// The header has at this place a field that isn't taken. It is the first.
    NotElf(u64),
    /// The program header of this index isn't taken. It is the first.
    BadSegment(u32),
    /// The site failed, and its count of faults rose.
    SiteFault,
    /// No memory was left.
    NoMemory,
}

impl From<Failed> for ElfOpenFault {
    ghost use Rattle.fd_elfcore.specs.declared.elf_fault.ElfOpenFault.TheVariants.{SiteFault};

    ghost from_gives = { λ _ fault. fault ≡ SiteFault };

    fn from(_: Failed) -> ElfOpenFault {
        ElfOpenFault::SiteFault
    }
}

impl From<AllocError> for ElfOpenFault {
    ghost use Rattle.fd_elfcore.specs.declared.elf_fault.ElfOpenFault.TheVariants.{NoMemory};

    ghost from_gives = { λ _ fault. fault ≡ NoMemory };

    fn from(_: AllocError) -> ElfOpenFault {
        ElfOpenFault::NoMemory
    }
}

/// Why addresses of an ELF core weren't read.
#[derive(Clone, Copy, PartialEq, Eq, Debug)]
pub enum ElfReadFault {
    /// The addresses end past 2^64.
    PastTop,
    /// No segment has this address. It is the first.
    Absent(u64),
    /// The site failed, and its count of faults rose.
    SiteFault,
}

impl From<Failed> for ElfReadFault {
    ghost use Rattle.fd_elfcore.specs.declared.elf_fault.ElfReadFault.TheVariants.{SiteFault};

    ghost from_gives = { λ _ fault. fault ≡ SiteFault };

    fn from(_: Failed) -> ElfReadFault {
        ElfReadFault::SiteFault
    }
}
