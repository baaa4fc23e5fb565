//! What can happen in a world.

ghost use Rattle.std.specs.Prelude.{◌≡◌};

use fd_site::Peer;
use std::marker::Model;

/// The bytes of a datagram.
#[derive(Drop)]
pub struct Bytes {
    bytes: Vec<u8>,
}

impl Model for Bytes {
    ghost use Rattle.std.specs.Prelude.{List, ℕ};

    ghost Value = { List ℕ };

    ghost view = { λ b. b.bytes.items };
}

impl Bytes {
    /// These bytes.
    pub fn new(bytes: Vec<u8>) -> Bytes
        ensures { result ≡ bytes.items }
    {
        Bytes { bytes }
    }

    /// The bytes, lent.
    pub fn as_slice(&self) -> &[u8]
        ensures { result.now ≡ self.now }
    {
        &self.bytes
    }
}

/// One event. Each `nth` counts from 0 what was sent so far, and what was sent may come again and again.
#[derive(Drop)]
pub enum Event {
    /// The client sends what it wants to send.
    Send,
    /// The `nth` datagram that the client sent comes to a slot of the server, whichever port it was sent to.
    ToServer { slot: u16, nth: u64 },
    /// The `nth` answer that the servers sent comes to the client.
    ToClient { nth: u64 },
    /// A datagram of anyone comes to a slot of the server.
    Stranger { slot: u16, peer: Peer, bytes: Bytes },
    /// The client's poll brings nothing.
    ClientSilent,
    /// A look of the server at its ports brings nothing.
    ServerSilent,
    /// The next call on the site fails.
    SiteFails,
    /// The server is started anew, over the same files.
    Restart,
}
