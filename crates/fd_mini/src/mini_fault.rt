//! Why a page isn't the header page of a minidump that can be read.
ghost use Rattle.std.specs.Prelude.{◌≡◌, Some};
ghost use Rattle.fd_mini.specs.MiniFault.{mini_number, mini_text};

use std::fmt;

/// Why a page isn't the header page of a minidump that can be read.
#[derive(Clone, Copy, PartialEq, Eq, Debug)]
pub enum MiniFault {
    /// The page begins with no architecture's magic.
    BadMagic,
    /// The version is none of the architecture's that are known.
    UnknownVersion(u32),
    /// The flags name another granule than 4 KiB; they are given whole.
    BigGranule(u32),
    /// A section is larger than its limit.
    TooLarge(MiniField, u32),
}

/// A section whose size has a limit.
#[derive(Clone, Copy, PartialEq, Eq, Debug)]
pub enum MiniField {
    DumpAvail,
    Bitmap,
}

impl MiniFault {
    /// The number of its refusal.
    pub fn number(&self) -> u8
        ensures { result ≡ mini_number self.now }
    {
        match self {
            MiniFault::BadMagic => 46,
            MiniFault::UnknownVersion(_) => 47,
            MiniFault::BigGranule(_) => 48,
            MiniFault::TooLarge(..) => 49,
        }
    }
}

impl fmt::Display for MiniFault {
    ghost output = { λ fault. Some (mini_text fault) };

    fn fmt<W: fmt::Write>(&self, f: &mut fmt::Formatter<W>) -> fmt::Result {
        match self {
            MiniFault::BadMagic => write!(f, "not a minidump"),
            MiniFault::UnknownVersion(version) => write!(f, "minidump version {version}"),
            MiniFault::BigGranule(flags) => write!(f, "granule flags {flags}"),
            MiniFault::TooLarge(MiniField::DumpAvail, size) => write!(f, "dumpavailsize {size}"),
            MiniFault::TooLarge(MiniField::Bitmap, size) => write!(f, "bitmapsize {size}"),
        }
    }
}
