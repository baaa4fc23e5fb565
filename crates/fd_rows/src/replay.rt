//! The ports of a server that the datagrams of clients come to, in order.

ghost use Rattle.std.specs.Prelude.{◌≡◌, ◌≤◌, None, OnErr};
ghost use Rattle.fd_site.specs.Fault.{Rose};

use fd_fake::LinkEvent;
use fd_site::{Failed, Peer, Ports, Taken};

/// Ports that bring what one client sent, and then what the next sent, which sent the same, each to the herald's port and to
/// that of its own session; behind that they are silent. One call fails.
#[derive(Drop)]
pub(crate) struct Replay<'a> {
    trace: &'a [LinkEvent],
    at: usize,
    client: u16,
    clients: u16,
    failing: u64,
    calls: u64,
    faults: u64,
}

impl<'a> Replay<'a> {
    /// Ports to which so many clients come. The call of this number fails; the 0th never comes.
    pub(crate) fn new(trace: &'a [LinkEvent], clients: u16, failing: u64) -> Replay<'a> {
        Replay {
            trace,
            at: 0,
            client: 1,
            clients,
            failing,
            calls: 0,
            faults: 0,
        }
    }

    /// How many calls were made.
    pub(crate) fn calls(&self) -> u64 {
        self.calls
    }

    // Begins the next call, and fails it if it is the one that fails.
    fn begin(&mut self) -> Result<(), Failed>
        ensures rising { self.old.faults ≤ self.new.faults }
        ensures cause { OnErr result (Rose self.old.faults self.new.faults) }
    {
        self.calls = self.calls.saturating_add(1);
        if self.calls == self.failing {
            self.faults = self.faults.saturating_add(1);
            return Err(Failed);
        }
        Ok(())
    }

    // What comes next of the link of a client.
    fn next_event(&mut self) -> Option<&'a LinkEvent>
        ensures { self.new.faults ≡ self.old.faults }
    {
        if self.at >= self.trace.len() && self.client < self.clients {
            self.at = 0;
            self.client = self.client.saturating_add(1);
        }
        let event = self.trace.get(self.at);
        self.at = self.at.saturating_add(1);
        event
    }
}

impl Ports for Replay<'_> {
    ghost seen = { λ r. record { told = None; faults = r.faults } };

    fn listen(&mut self) -> Result<(), Failed> {
        self.begin()
    }

    fn take(&mut self, out: &mut [u8; 8192]) -> Result<Taken, Failed> {
        self.begin()?;
        match self.next_event() {
            Some(LinkEvent::Sent { port, bytes }) => {
                let len = bytes.len().min(8192);
                out[..len].copy_from_slice(&bytes[..len]);
                let slot = self.client.min(16);
                Ok(Taken::Got {
                    slot: if *port == 20023 { 0 } else { slot },
                    peer: Peer {
                        address: 0x7f00_0001,
                        port: slot,
                    },
                    len,
                })
            }
            _ => Ok(Taken::Silent),
        }
    }

    fn open_slot(&mut self, _slot: u16) -> Result<(), Failed> {
        self.begin()
    }

    fn answer(&mut self, _slot: u16, _peer: Peer, _bytes: &[u8; 4]) -> Result<(), Failed> {
        self.begin()
    }
}
