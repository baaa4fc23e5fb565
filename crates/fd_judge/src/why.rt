//! Why a partition holds no dump that can be saved: the reasons, their numbers and their texts.

ghost use Rattle.std.specs.Prelude.{◌≡◌, Some};
ghost use Rattle.fd_judge.specs.Printed.{why_number, why_text};
ghost use Rattle.fd_judge.specs.Verdict.{reason_of};

use fd_kdh::HeaderFault;
use std::fmt;

/// Why a partition holds no dump that can be saved, in the order of the tests.
#[derive(Clone, Copy, Debug, PartialEq, Eq)]
pub enum Why {
    /// The trailing sector begins with none of the three magics.
    NoMagic,
    /// It holds a text dump.
    TextDump,
    /// It holds a dump that was saved and cleared.
    Cleared,
    /// The header's version isn't 4.
    UnknownVersion(u32),
    /// The exclusive or of the header's words isn't 0 but this.
    BadParity(u32),
    /// The dump is compressed in this way.
    Compressed(u8),
    /// The dump is encrypted: its key has this size.
    Encrypted(u32),
    /// The architecture's name and version are none of the known pairs.
    UnknownArch,
    /// The header's block size isn't the partition's.
    BadBlock(u32),
    /// The dump's length and its extent differ.
    LengthDiffers(u64, u64),
    /// The extent is 0, no multiple of the block, or more than the partition has room for.
    BadExtent(u64),
    /// The leading header's 512 bytes differ from the trailing header's, first at this place.
    Disagree(u16),
}

impl From<HeaderFault> for Why {
    ghost from_gives = { λ fault why. why ≡ reason_of fault };

    fn from(fault: HeaderFault) -> Why {
        match fault {
            HeaderFault::NoMagic => Why::NoMagic,
            HeaderFault::TextDump => Why::TextDump,
            HeaderFault::Cleared => Why::Cleared,
            HeaderFault::UnknownVersion(version) => Why::UnknownVersion(version),
            HeaderFault::BadParity(sum) => Why::BadParity(sum),
        }
    }
}

impl Why {
    /// The number of the refusal.
    pub fn number(&self) -> u8
        ensures { result ≡ why_number self.now }
    {
        match self {
            Why::NoMagic => 1,
            Why::TextDump => 2,
            Why::Cleared => 3,
            Why::UnknownVersion(_) => 4,
            Why::BadParity(_) => 5,
            Why::Compressed(_) => 6,
            Why::Encrypted(_) => 7,
            Why::UnknownArch => 8,
            Why::BadBlock(_) => 9,
            Why::LengthDiffers(..) => 10,
            Why::BadExtent(_) => 11,
            Why::Disagree(_) => 12,
        }
    }
}

impl fmt::Display for Why {
    ghost output = { λ why. Some (why_text why) };

    #[tactic(auto, using(fd_bytes::proofs::Hex::padded_hex))]
    fn fmt<W: fmt::Write>(&self, f: &mut fmt::Formatter<W>) -> fmt::Result {
        match self {
            Why::NoMagic => write!(f, "no dump"),
            Why::TextDump => write!(f, "text dump"),
            Why::Cleared => write!(f, "cleared dump"),
            Why::UnknownVersion(version) => write!(f, "header version {version}"),
            Why::BadParity(sum) => write!(f, "parity 0x{sum:08x}"),
            Why::Compressed(compression) => write!(f, "compression {compression}"),
            Why::Encrypted(size) => write!(f, "key size {size}"),
            Why::UnknownArch => write!(f, "unknown architecture"),
            Why::BadBlock(block) => write!(f, "block {block}"),
            Why::LengthDiffers(length, extent) => write!(f, "length {length} extent {extent}"),
            Why::BadExtent(extent) => write!(f, "extent {extent}"),
            Why::Disagree(place) => write!(f, "headers differ at {place}"),
        }
    }
}
