//! Why a dump was not sent.

ghost use Rattle.std.specs.Prelude.{◌≡◌};
ghost use Rattle.fd_netclient.specs.declared.fault.ClientFault.TheVariants.{LinkFault};

use fd_site::Failed;

/// Why a dump wasn't sent.
#[derive(Clone, Copy, Debug, PartialEq, Eq)]
pub enum ClientFault {
    /// The rounds of a batch are over, and this is the least of its numbers that wasn't acknowledged.
    TimedOut(u32),
    /// The link failed, and its count of faults rose.
    LinkFault,
}

impl From<Failed> for ClientFault {
    ghost from_gives = { λ _ fault. fault ≡ LinkFault };

    fn from(_: Failed) -> ClientFault {
        ClientFault::LinkFault
    }
}
