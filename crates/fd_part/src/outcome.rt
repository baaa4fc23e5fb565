//! What the writer of a dump answers.

ghost use Rattle.std.specs.Prelude.{◌≡◌, Some};
ghost use Rattle.fd_part.specs.Printed.{no_room_number, no_room_text};
ghost use Rattle.fd_part.specs.declared.outcome.PartFault.TheVariants.{SiteFault};

use fd_site::Failed;
use std::fmt;

/// How much of a dump was written.
#[derive(Clone, Copy, Debug, PartialEq, Eq)]
pub enum Wrote {
    /// The whole dump.
    Whole,
    /// As many of its first sectors as were asked for, which aren't all.
    Stopped,
}

/// A dump needs `need` bytes of a partition, which has `have`. It is printed as `needs NEED of HAVE`.
#[derive(Clone, Copy, Debug, PartialEq, Eq)]
pub struct NoRoom {
    pub need: u64,
    pub have: u64,
}

impl NoRoom {
    /// The number of the refusal.
    pub fn number(&self) -> u8
        ensures { result ≡ no_room_number }
    {
        44
    }
}

impl fmt::Display for NoRoom {
    ghost output = { λ room. Some (no_room_text room) };

    fn fmt<W: fmt::Write>(&self, f: &mut fmt::Formatter<W>) -> fmt::Result {
        let NoRoom { need, have } = self;
        write!(f, "needs {need} of {have}")
    }
}

/// Why a dump wasn't written.
#[derive(Clone, Copy, Debug, PartialEq, Eq)]
pub enum PartFault {
    /// The partition has no room for it, and nothing was written.
    NoRoom(NoRoom),
    /// The site failed, and its count of faults rose.
    SiteFault,
}

impl From<Failed> for PartFault {
    ghost from_gives = { λ _ fault. fault ≡ SiteFault };

    fn from(_: Failed) -> PartFault {
        PartFault::SiteFault
    }
}
