//! What was asked of a link.

/// One call on a link that succeeded, and what it brought.
#[derive(Drop)]
pub enum LinkEvent {
    /// The link was opened to a server's IPv4 address.
    Opening { server: u32 },
    /// A datagram was sent to a port of the server.
    Sent { port: u16, bytes: Vec<u8> },
    /// A poll got these bytes from a port of the server.
    Got { port: u16, bytes: Vec<u8> },
    /// A poll got nothing.
    Silent,
}
