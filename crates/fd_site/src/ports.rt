//! The ports of a server.

ghost use Rattle.std.specs.Prelude.{◌≡◌, ◌≤◌, [], ◌∷◌, List, IfOk, OnErr, OnOk};
ghost use Rattle.fd_site.specs.Fault.{Rose};
ghost use Rattle.fd_site.specs.Seen.{Watched};

use crate::fault::Failed;

/// Where a datagram came from: an IPv4 address, `a.b.c.d` as `a * 2^24 + b * 2^16 + c * 2^8 + d`, and a port.
#[derive(Clone, Copy, Debug, PartialEq, Eq)]
pub struct Peer {
    pub address: u32,
    pub port: u16,
}

/// What one look at the ports brought: nothing, or a peer's datagram at a slot, of which `len` bytes were given.
#[derive(Clone, Copy, Debug, PartialEq, Eq)]
pub enum Taken {
    Silent,
    Got { slot: u16, peer: Peer, len: usize },
}

/// The ports of a server: slot 0 is the herald's port, the slots from 1 to 16 are those of sessions. A call that failed
/// added nothing.
pub trait Ports {
    ghost use Rattle.fd_site.specs.Trace.{PortsEvent, Listening, SlotOpened, Answered, grown, taken_event, IsTaken};

    /// What contracts see of the ports: what was asked of them, in order, where they tell that, and how often a call has
    /// failed.
    ghost seen: { Self → Watched PortsEvent };

    /// Opens the herald's port.
    fn listen(&mut self) -> Result<(), Failed>
        ensures ok { OnOk result ((seen self.new).told ≡ grown (seen self.old).told (Listening ∷ [])) }
        ensures err { OnErr result ((seen self.new).told ≡ (seen self.old).told) }
        ensures count { (seen self.old).faults ≤ (seen self.new).faults }
        ensures cause { OnErr result (Rose (seen self.old).faults (seen self.new).faults) };

    /// Looks once at all open ports, and takes one datagram, its first 8192 bytes at most.
    fn take(&mut self, out: &mut [u8; 8192]) -> Result<Taken, Failed>
        ensures ok { IfOk result (λ taken. (seen self.new).told ≡ grown (seen self.old).told (taken_event taken out.new ∷ [])) }
        ensures within { IfOk result IsTaken }
        ensures err { OnErr result ((seen self.new).told ≡ (seen self.old).told) }
        ensures count { (seen self.old).faults ≤ (seen self.new).faults }
        ensures cause { OnErr result (Rose (seen self.old).faults (seen self.new).faults) };

    /// Opens the port of a slot.
    fn open_slot(&mut self, slot: u16) -> Result<(), Failed>
        ensures ok { OnOk result ((seen self.new).told ≡ grown (seen self.old).told (SlotOpened slot ∷ [])) }
        ensures err { OnErr result ((seen self.new).told ≡ (seen self.old).told) }
        ensures count { (seen self.old).faults ≤ (seen self.new).faults }
        ensures cause { OnErr result (Rose (seen self.old).faults (seen self.new).faults) };

    /// Answers a peer from a slot's port.
    fn answer(&mut self, slot: u16, peer: Peer, bytes: &[u8; 4]) -> Result<(), Failed>
        ensures ok { OnOk result ((seen self.new).told ≡ grown (seen self.old).told (Answered slot peer bytes.now ∷ [])) }
        ensures err { OnErr result ((seen self.new).told ≡ (seen self.old).told) }
        ensures count { (seen self.old).faults ≤ (seen self.new).faults }
        ensures cause { OnErr result (Rose (seen self.old).faults (seen self.new).faults) };
}
