//! No network, for commands that use none.

ghost use Rattle.std.specs.Prelude.{None};

use fd_site::{Failed, Link, Peer, Polled, Ports, Taken};

/// A link and a set of ports on which every call fails.
#[derive(Debug, Drop)]
pub(crate) struct NoNet {
    faults: u64,
}

impl NoNet {
    pub(crate) fn new() -> NoNet {
        NoNet { faults: 0 }
    }
}

impl Link for NoNet {
    ghost seen = { λ n. record { told = None; faults = n.faults } };

    fn open(&mut self, _server: u32) -> Result<(), Failed> {
        self.faults = self.faults.saturating_add(1);
        Err(Failed)
    }

    fn send(&mut self, _port: u16, _bytes: &[u8]) -> Result<(), Failed> {
        self.faults = self.faults.saturating_add(1);
        Err(Failed)
    }

    fn poll(&mut self, _out: &mut [u8; 64]) -> Result<Polled, Failed> {
        self.faults = self.faults.saturating_add(1);
        Err(Failed)
    }
}

impl Ports for NoNet {
    ghost seen = { λ n. record { told = None; faults = n.faults } };

    fn listen(&mut self) -> Result<(), Failed> {
        self.faults = self.faults.saturating_add(1);
        Err(Failed)
    }

    fn take(&mut self, _out: &mut [u8; 8192]) -> Result<Taken, Failed> {
        self.faults = self.faults.saturating_add(1);
        Err(Failed)
    }

    fn open_slot(&mut self, _slot: u16) -> Result<(), Failed> {
        self.faults = self.faults.saturating_add(1);
        Err(Failed)
    }

    fn answer(&mut self, _slot: u16, _peer: Peer, _bytes: &[u8; 4]) -> Result<(), Failed> {
        self.faults = self.faults.saturating_add(1);
        Err(Failed)
    }
}
