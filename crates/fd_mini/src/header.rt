//! The fields of a header page.
use fd_bytes::Arch;

/// The fields of a minidump's header page, with sizes in bytes. A field that the page of this architecture and version
/// doesn't have is 0.
#[derive(Clone, Copy, PartialEq, Eq, Debug)]
pub struct MiniHeader {
    pub arch: Arch,
    pub version: u32,
    pub msgbufsize: u32,
    pub bitmapsize: u32,
    pub pmapsize: u32,
    pub kernbase: u64,
    pub dmapphys: u64,
    pub dmapbase: u64,
    pub dmapend: u64,
    pub dumpavailsize: u32,
    pub flags: u32,
}
