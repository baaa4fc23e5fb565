//! Where the sections of a minidump begin.
ghost use Rattle.std.specs.Prelude.{◌≡◌, ◌+◌, ◌≤◌, ◌^◌};
ghost use Rattle.fd_mini.specs.Places.{places_of, rounded_up};

use crate::header::MiniHeader;

/// The byte of the file at which each section begins: the message buffer, the ranges of available memory, the
/// bitmap, the page directory and the dumped pages.
#[derive(Clone, Copy, PartialEq, Eq, Debug)]
pub struct Places {
    pub msgbuf: u64,
    pub avail: u64,
    pub bitmap: u64,
    pub directory: u64,
    pub pages: u64,
}

/// Where the sections begin: each at the end of the one before, whose size is rounded up to 4096.
pub fn places_of(header: &MiniHeader) -> Places
    ensures { result ≡ places_of header.now }
{
    let msgbuf = 4096;
    let avail = msgbuf + rounded_up(u64::from(header.msgbufsize));
    let bitmap = avail + rounded_up(u64::from(header.dumpavailsize));
    let directory = bitmap + rounded_up(u64::from(header.bitmapsize));
    let pages = directory + rounded_up(u64::from(header.pmapsize));
    Places {
        msgbuf,
        avail,
        bitmap,
        directory,
        pages,
    }
}

/// The least multiple of 4096 that isn't below a size: how many bytes a section of this size takes.
pub fn rounded_up(size: u64) -> u64
    requires { size ≤ 2 ^ 63 }
    ensures value { result ≡ rounded_up size }
    ensures bounded { result ≤ size + 4095 }
{
    size.div_ceil(4096) * 4096
}
