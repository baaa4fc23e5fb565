//! Why the program ends without an answer, and the statuses that it ends with.
use fd_kvm::ReadFault;
use fd_vmcore::OpenFault;
use std::alloc::{AllocError, AllocFailed};
use std::io;

/// The statuses of sysexits(3).
pub mod status {
    /// The words name no measure (`EX_USAGE`).
    pub const USAGE: u8 = 64;

    /// The file or the address can't be read (`EX_DATAERR`).
    pub const DATA: u8 = 65;

    /// No memory was found (`EX_OSERR`).
    pub const MEMORY: u8 = 71;

    /// Something of the outside failed (`EX_IOERR`).
    pub const FAULT: u8 = 74;
}

/// Why the program ends without an answer.
#[derive(Clone, Copy)]
pub enum Failure {
    /// The words name no measure.
    NotWords,
    /// The file is no vmcore, or the address has no bytes.
    NotRead,
    NoMemory,
    Fault,
}

impl From<io::Error> for Failure {
    fn from(e: io::Error) -> Failure {
        match e.kind() {
            io::ErrorKind::OutOfMemory => Failure::NoMemory,
            // A word that isn't UTF-8.
            io::ErrorKind::InvalidData => Failure::NotWords,
            _ => Failure::Fault,
        }
    }
}

impl From<AllocError> for Failure {
    fn from(_: AllocError) -> Failure {
        Failure::NoMemory
    }
}

impl<T: Drop> From<AllocFailed<T>> for Failure {
    fn from(_: AllocFailed<T>) -> Failure {
        Failure::NoMemory
    }
}

impl From<OpenFault> for Failure {
    fn from(fault: OpenFault) -> Failure {
        match fault {
            OpenFault::NoMemory => Failure::NoMemory,
            OpenFault::SiteFault => Failure::Fault,
            _ => Failure::NotRead,
        }
    }
}

impl From<ReadFault> for Failure {
    fn from(fault: ReadFault) -> Failure {
        match fault {
            ReadFault::Address(_) => Failure::NotRead,
            ReadFault::SiteFault => Failure::Fault,
        }
    }
}
