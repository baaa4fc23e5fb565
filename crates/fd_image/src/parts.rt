//! The fields of a machine image.
use crate::sequence::Sequence;
use fd_bytes::Arch;
use fd_raw::Region;

/// A segment of physical memory: its first address and its bytes.
#[derive(Drop)]
pub struct Seg {
    pub start: u64,
    pub bytes: Region,
}

/// The kernel window, `kernspan` bytes of kernel addresses from `kernbase` on, and the direct map, the
/// kernel addresses from `dmapbase` up to `dmapend`, which map physical memory from `dmapphys` on.
#[derive(Clone, Copy, PartialEq, Eq, Debug)]
pub struct Windows {
    pub kernbase: u64,
    pub kernspan: u64,
    pub dmapbase: u64,
    pub dmapend: u64,
    pub dmapphys: u64,
}

/// What goes into the dump's headers: host name, kernel version, panic message and message buffer as
/// bytes, and the time of the dump in seconds since 1970.
#[derive(Drop)]
pub struct Texts {
    pub host: Sequence<u8>,
    pub version: Sequence<u8>,
    pub panic: Sequence<u8>,
    pub msgbuf: Sequence<u8>,
    pub time: u64,
}

/// The fields of a machine image, valid or not: the architecture, and whether it is RISC-V with the four levels of
/// tables of Sv48; the segments of physical memory, the ranges of available memory as pairs of a first address and the address past the last, the addresses of the
/// pages that are wanted in a dump, the address of the top page table, the windows and the texts.
#[derive(Drop)]
pub struct Parts {
    pub arch: Arch,
    pub sv48: bool,
    pub segs: Sequence<Seg>,
    pub avail: Sequence<(u64, u64)>,
    pub wanted: Sequence<u64>,
    pub root: u64,
    pub windows: Windows,
    pub texts: Texts,
}
