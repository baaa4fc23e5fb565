//! The descriptors of standard input, output and error.

use std::fs::File;
use std::io;
use std::os::fd::{AsRawFd, IntoRawFd};
use std::rt::Files;

/// Opens `/dev/null`, to be read alone, at each of the descriptors 0 to 2 that the program was started without, and
/// leaves it open to the end. The system gives a file that is opened the lowest free number: so no file that is opened
/// after this can take what is printed, and printing without a standard output is a fault.
pub fn hold_standard<R: Files<File = File>>(rt: &R) -> io::Result<()> {
    for _ in 0..3 {
        let null = File::open(rt, "/dev/null")?;
        if null.as_raw_fd() > 2 {
            break;
        }
        let _held = null.into_raw_fd();
    }
    Ok(())
}
