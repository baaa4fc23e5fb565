//! Locks by which programs keep out of one another's way, of flock(2). They end with the program.

use std::fs::{File, TryLockError};
use std::io;
use std::io::{Error, ErrorKind};

/// Takes the file to be written by this program alone, or to be read by it and by others. A file that another program has
/// taken is refused, without waiting; one that can't be locked is used as it is.
pub(crate) fn claim(file: &File, for_writing: bool) -> io::Result<()> {
    let taken = if for_writing {
        file.try_lock()
    } else {
        file.try_lock_shared()
    };
    match taken {
        Err(TryLockError::WouldBlock) => Err(Error::new(
            ErrorKind::WouldBlock,
            "Is in use by another program",
        )),
        _ => Ok(()),
    }
}
