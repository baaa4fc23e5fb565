//! Why a dump was not saved.

ghost use Rattle.std.specs.Prelude.{◌≡◌};
ghost use Rattle.fd_save.specs.declared.fault.SaveFault.TheVariants.{SiteFault};

use fd_judge::Why;
use fd_site::{Failed, SiteFault};

/// Why a dump wasn't saved or cleared.
#[derive(Clone, Copy, Debug, PartialEq, Eq)]
pub enum SaveFault {
    /// The partition holds no dump that can be saved.
    Refused(Why),
    /// Each of the 65536 numbers is taken.
    NoNumber,
    /// The site failed, and its count of faults rose.
    SiteFault,
}

impl From<Failed> for SaveFault {
    ghost from_gives = { λ _ fault. fault ≡ SiteFault };

    fn from(_: Failed) -> SaveFault {
        SaveFault::SiteFault
    }
}

impl From<SiteFault> for SaveFault {
    ghost from_gives = { λ _ fault. fault ≡ SiteFault };

    fn from(_: SiteFault) -> SaveFault {
        SaveFault::SiteFault
    }
}
