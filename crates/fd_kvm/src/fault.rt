//! Why kernel memory wasn't read.
ghost use Rattle.std.specs.Prelude.{◌≡◌};

use fd_mini::AddressFault;

/// Why kernel memory wasn't read.
#[derive(Clone, Copy, PartialEq, Eq, Debug)]
pub enum ReadFault {
    /// An address has no byte.
    Address(AddressFault),
    /// The site failed, and its count of faults rose.
    SiteFault,
}

impl From<fd_site::SiteFault> for ReadFault {
    ghost use Rattle.fd_kvm.specs.declared.fault.ReadFault.TheVariants.{SiteFault};

    ghost from_gives = { λ _ fault. fault ≡ SiteFault };

    fn from(_: fd_site::SiteFault) -> ReadFault {
        ReadFault::SiteFault
    }
}
