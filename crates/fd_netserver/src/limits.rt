//! How long a server serves, what it received, and why it stopped.

ghost use Rattle.std.specs.Prelude.{◌≡◌, []};

use arrayvec::ArrayVec;
use fd_site::Failed;
use std::alloc::AllocError;

/// How long a server serves.
#[derive(Clone, Copy, Debug, PartialEq, Eq)]
pub struct ServeLimits {
    /// How many dumps are waited for, from 1 to 16.
    pub dumps: u16,
    /// How many turns there are at most, at least one. A turn is one look at the ports.
    pub turns: u64,
    /// How many turns it goes on after the last of the dumps, so that a client whose acknowledgement was lost gets it again.
    pub linger: u32,
}

/// A session that was finished: the number of its files, and how many bytes its dump has.
#[derive(Clone, Copy, Debug, Default, PartialEq, Eq)]
pub struct Received {
    pub number: u32,
    pub length: u64,
}

/// The finished sessions, in the order in which they finished.
#[derive(Drop)]
pub struct Served {
    pub list: ArrayVec<Received, 16>,
}

impl Served {
    /// None.
    pub fn new() -> Served
        ensures { result.list.items ≡ [] }
    {
        Served {
            list: ArrayVec::new(),
        }
    }
}

/// Why a server stopped before its dumps were finished.
#[derive(Clone, Copy, Debug, PartialEq, Eq)]
pub enum ServeFault {
    /// So many turns were taken, and fewer dumps were finished.
    TurnsSpent(u64),
    /// The ports failed, and their count of faults rose.
    PortsFault,
    /// No memory was found.
    NoMemory,
}

impl From<AllocError> for ServeFault {
    ghost use Rattle.std.specs.Prelude.{◌≡◌};
    ghost use Rattle.fd_netserver.specs.declared.limits.ServeFault.TheVariants.{NoMemory};

    ghost from_gives = { λ _ fault. fault ≡ NoMemory };

    fn from(_: AllocError) -> ServeFault {
        ServeFault::NoMemory
    }
}

impl From<Failed> for ServeFault {
    ghost use Rattle.std.specs.Prelude.{◌≡◌};
    ghost use Rattle.fd_netserver.specs.declared.limits.ServeFault.TheVariants.{PortsFault};

    ghost from_gives = { λ _ fault. fault ≡ PortsFault };

    fn from(_: Failed) -> ServeFault {
        ServeFault::PortsFault
    }
}
