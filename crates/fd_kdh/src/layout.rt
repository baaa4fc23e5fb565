//! Where the fields of a header begin (`struct kerneldumpheader`).

pub(crate) const ARCHITECTURE: usize = 20;

pub(crate) const VERSION: usize = 32;

pub(crate) const ARCHITECTUREVERSION: usize = 36;

pub(crate) const DUMPLENGTH: usize = 40;

pub(crate) const DUMPTIME: usize = 48;

pub(crate) const DUMPKEYSIZE: usize = 56;

pub(crate) const BLOCKSIZE: usize = 60;

pub(crate) const HOSTNAME: usize = 64;

pub(crate) const VERSIONSTRING: usize = 128;

pub(crate) const PANICSTRING: usize = 320;

pub(crate) const COMPRESSION: usize = 495;

pub(crate) const DUMPEXTENT: usize = 496;
