//! A header as a value, and what can be wrong with the bytes of one.

use fd_bytes::Label;

/// The magic of a header over a dump (`KERNELDUMPMAGIC`).
pub const LIVE_MAGIC: [u8; 20] = *b"FreeBSD Kernel Dump\0";

/// The magic of a header over a text dump (`TEXTDUMPMAGIC`).
pub const TEXT_MAGIC: [u8; 20] = *b"FreeBSD Text Dump\0\0\0";

/// The magic of a header whose dump was saved and cleared (`KERNELDUMPMAGIC_CLEARED`).
pub const CLEARED_MAGIC: [u8; 20] = *b"Cleared Kernel Dump\0";

/// The version of the headers that are written and read (`KERNELDUMPVERSION`).
pub(crate) const VERSION: u32 = 4;

/// What a header says of its dump. The fields are those of `struct kerneldumpheader` that tell
/// something, under their names there.
#[derive(Clone, Debug, PartialEq, Eq, Drop)]
pub struct Header {
    /// The machine's architecture, as `amd64`.
    pub architecture: Label<12>,
    /// The version of the architecture's dumps.
    pub architectureversion: u32,
    /// How many bytes the dump has.
    pub dumplength: u64,
    /// When it was written, in seconds since 1970.
    pub dumptime: u64,
    /// How many bytes the encrypted key has; 0 where the dump isn't encrypted.
    pub dumpkeysize: u32,
    /// How many bytes a block of the device has.
    pub blocksize: u32,
    /// The machine's name.
    pub hostname: Label<64>,
    /// The version string of the kernel.
    pub versionstring: Label<192>,
    /// What the kernel panicked with.
    pub panicstring: Label<175>,
    /// How the dump is compressed; 0 where it isn't.
    pub compression: u8,
    /// How many bytes of the device the dump takes up.
    pub dumpextent: u64,
}

/// The first fault of bytes that are no header of a dump to be saved, in the order of the tests.
#[derive(Clone, Copy, Debug, PartialEq, Eq)]
pub enum HeaderFault {
    /// The first 20 bytes are none of the three magics.
    NoMagic,
    /// It is the header of a text dump.
    TextDump,
    /// The dump was saved and cleared.
    Cleared,
    /// The version, which isn't 4.
    UnknownVersion(u32),
    /// The exclusive or of all words, which isn't 0.
    BadParity(u32),
}
