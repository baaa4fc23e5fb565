//! Why a read was not printed.

ghost use Rattle.std.specs.Prelude.{◌≡◌};

use std::alloc::AllocError;
use thiserror::Error;

/// Why a read wasn't printed.
#[derive(Clone, Copy, Debug, PartialEq, Eq, Error)]
pub enum PrintFault {
    /// The site failed, and its count of faults rose.
    #[error("the site failed")]
    SiteFault,
    /// The sink failed, and its count of faults rose.
    #[error("the sink failed")]
    SinkFault,
    /// No memory was found.
    #[error("no memory was found")]
    NoMemory,
}

impl From<AllocError> for PrintFault {
    ghost use Rattle.fd_way.specs.declared.print_fault.PrintFault.TheVariants.{NoMemory};

    ghost from_gives = { λ _ fault. fault ≡ NoMemory };

    fn from(_: AllocError) -> PrintFault {
        PrintFault::NoMemory
    }
}
