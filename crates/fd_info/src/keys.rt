//! What the lines of `info.N` begin with, in their order.

pub(crate) const DEVICE: &[u8] = b"Dump header from device: ";

pub(crate) const ARCHITECTURE: &[u8] = b"  Architecture: ";

pub(crate) const ARCHITECTURE_VERSION: &[u8] = b"  Architecture Version: ";

pub(crate) const DUMP_LENGTH: &[u8] = b"  Dump Length: ";

pub(crate) const BLOCKSIZE: &[u8] = b"  Blocksize: ";

pub(crate) const COMPRESSION: &[u8] = b"  Compression: ";

pub(crate) const DUMPTIME: &[u8] = b"  Dumptime: ";

pub(crate) const HOSTNAME: &[u8] = b"  Hostname: ";

pub(crate) const MAGIC: &[u8] = b"  Magic: ";

pub(crate) const VERSION_STRING: &[u8] = b"  Version String: ";

pub(crate) const PANIC_STRING: &[u8] = b"  Panic String: ";

pub(crate) const DUMP_PARITY: &[u8] = b"  Dump Parity: 0x";

pub(crate) const BOUNDS: &[u8] = b"  Bounds: ";

pub(crate) const DUMP_STATUS: &[u8] = b"  Dump Status: ";
