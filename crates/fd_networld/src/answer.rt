//! An answer of a server.

use fd_site::Peer;

/// An answer: to whom it was sent, the slot that it was sent from, and the number that it acknowledges.
#[derive(Clone, Copy, Debug, PartialEq, Eq)]
pub struct Answer {
    pub peer: Peer,
    pub slot: u16,
    pub seqno: u32,
}
