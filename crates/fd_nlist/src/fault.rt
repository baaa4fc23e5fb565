//! Why a kernel isn't opened.
ghost use Rattle.std.specs.Prelude.{◌≡◌};

use fd_site::Failed;
use std::alloc::AllocError;

/// Why a kernel isn't opened. Sizes and places are in bytes.
#[derive(Clone, Copy, PartialEq, Eq, Debug)]
pub enum KernelFault {
    /// There is no such file.
    NoFile,
    /// The file needs so many bytes and has so many: for the header, for the section headers, or for the two tables.
    Short(u64, u64),
    /// The field at this place in the file isn't one of a kernel that is read: of its header, or of the section headers of
    /// its symbol table and of that table's strings. It is the first.
    NotKernel(u64),
    /// No section is a symbol table.
    NoTable,
    /// The site failed, and its count of faults rose.
    SiteFault,
    /// No memory was left.
    NoMemory,
}

impl From<Failed> for KernelFault {
    ghost use Rattle.fd_nlist.specs.declared.fault.KernelFault.TheVariants.{SiteFault};

    ghost from_gives = { λ _ fault. fault ≡ SiteFault };

    fn from(_: Failed) -> KernelFault {
        KernelFault::SiteFault
    }
}

impl From<AllocError> for KernelFault {
    ghost use Rattle.fd_nlist.specs.declared.fault.KernelFault.TheVariants.{NoMemory};

    ghost from_gives = { λ _ fault. fault ≡ NoMemory };

    fn from(_: AllocError) -> KernelFault {
        KernelFault::NoMemory
    }
}
