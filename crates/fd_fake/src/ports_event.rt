//! What was asked of the ports of a server.

use fd_site::Peer;

/// One call on the ports that succeeded, and what it brought.
#[derive(Drop)]
pub enum PortsEvent {
    /// The herald's port was opened.
    Listening,
    /// The port of a slot was opened.
    SlotOpened {
        slot: u16,
    },
    /// These bytes of a peer were taken from a slot's port.
    Taken {
        slot: u16,
        peer: Peer,
        bytes: Vec<u8>,
    },
    /// Nothing was taken.
    NoneTaken,
    /// A peer was answered from a slot's port.
    Answered {
        slot: u16,
        peer: Peer,
        bytes: [u8; 4],
    },
}
