//! What a drill answers.

ghost use Rattle.std.specs.Prelude.{◌≡◌};

use fd_judge::Why;
use fd_mini::AddressFault;
use fd_part::NoRoom;
use fd_vmcore::OpenFault;
use std::alloc::AllocError;

/// How far a drill came.
#[derive(Clone, Copy, Debug, PartialEq, Eq)]
pub enum Drilled {
    /// What stood on the partition was refused.
    Refused(Why),
    /// A dump of this many bytes was saved under this number, cleared, and read from its file; with the first address
    /// that has no byte.
    Saved {
        number: u32,
        length: u64,
        fault: Option<AddressFault>,
    },
}

/// Why a drill ended on its way.
#[derive(Clone, Copy, Debug, PartialEq, Eq)]
pub enum WayFault {
    /// The partition has no room for the dump.
    NoRoom(NoRoom),
    /// Each number of saved dumps is taken.
    NoNumber,
    /// The saved file is refused by its bytes.
    Unread(OpenFault),
    /// The site failed, and its count of faults rose.
    SiteFault,
    /// The sink failed, and its count of faults rose.
    SinkFault,
    /// No memory was found.
    NoMemory,
}

impl From<AllocError> for WayFault {
    ghost use Rattle.fd_way.specs.declared.way_fault.WayFault.TheVariants.{NoMemory};

    ghost from_gives = { λ _ fault. fault ≡ NoMemory };

    fn from(_: AllocError) -> WayFault {
        WayFault::NoMemory
    }
}
