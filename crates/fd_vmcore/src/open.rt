//! Why a vmcore isn't opened.
ghost use Rattle.std.specs.Prelude.{◌≡◌};

use fd_mini::MiniFault;
use fd_site::Failed;
use std::alloc::AllocError;

/// Why a vmcore isn't opened, in the order of the tests. Sizes are in bytes.
#[derive(Clone, Copy, PartialEq, Eq, Debug)]
pub enum OpenFault {
    /// There is no such file.
    NoFile,
    /// The file needs so many bytes and has so many: for the header page, for the sections before the dumped pages, or
    /// for the dumped pages.
    Short(u64, u64),
    /// The header page is refused.
    Mini(MiniFault),
    /// The range of this index has no byte, or begins at a page below the end of the one before. It is the first.
    BadAvail(usize),
    /// The site failed, and its count of faults rose.
    SiteFault,
    /// No memory was left.
    NoMemory,
}

impl From<Failed> for OpenFault {
    ghost use Rattle.fd_vmcore.specs.declared.open.OpenFault.TheVariants.{SiteFault};

    ghost from_gives = { λ _ fault. fault ≡ SiteFault };

    fn from(_: Failed) -> OpenFault {
        OpenFault::SiteFault
    }
}

impl From<AllocError> for OpenFault {
    ghost use Rattle.fd_vmcore.specs.declared.open.OpenFault.TheVariants.{NoMemory};

    ghost from_gives = { λ _ fault. fault ≡ NoMemory };

    fn from(_: AllocError) -> OpenFault {
        OpenFault::NoMemory
    }
}
