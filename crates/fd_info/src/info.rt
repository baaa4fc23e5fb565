use fd_bytes::Label;
use fd_kdh::Header;

/// What a text of `info.N` says.
#[derive(Clone, Debug, PartialEq, Eq, Drop)]
pub struct Info {
    /// The header of the dump. Its extent is its length, and it is neither compressed nor encrypted.
    pub header: Header,
    /// The device that the dump was found on.
    pub device: Label<32>,
    /// The parity word of the header's sector.
    pub parity: u32,
    /// The number that the dump was saved under.
    pub number: u32,
}
