//! A way of datagrams to one server.

ghost use Rattle.std.specs.Prelude.{◌≡◌, ◌≤◌, [], ◌∷◌, List, IfOk, OnErr, OnOk};
ghost use Rattle.fd_site.specs.Fault.{Rose};
ghost use Rattle.fd_site.specs.Seen.{Watched};

use crate::fault::Failed;

/// What a poll of a link brought: nothing, or a datagram from a port of the server, of which `len` bytes were given.
#[derive(Clone, Copy, Debug, PartialEq, Eq)]
pub enum Polled {
    Silent,
    Got { port: u16, len: usize },
}

/// A way of datagrams to one server. A call that failed added nothing.
pub trait Link {
    ghost use Rattle.fd_site.specs.Trace.{LinkEvent, Opening, Sent, grown, polled_event, IsPolled};

    /// What contracts see of the link: what was asked of it, in order, where it tells that, and how often a call has
    /// failed.
    ghost seen: { Self → Watched LinkEvent };

    /// Names the server's IPv4 address, `a.b.c.d` being `a * 2^24 + b * 2^16 + c * 2^8 + d`.
    fn open(&mut self, server: u32) -> Result<(), Failed>
        ensures ok { OnOk result ((seen self.new).told ≡ grown (seen self.old).told (Opening server ∷ [])) }
        ensures err { OnErr result ((seen self.new).told ≡ (seen self.old).told) }
        ensures count { (seen self.old).faults ≤ (seen self.new).faults }
        ensures cause { OnErr result (Rose (seen self.old).faults (seen self.new).faults) };

    /// Sends one datagram to a port of the server.
    fn send(&mut self, port: u16, bytes: &[u8]) -> Result<(), Failed>
        ensures ok { OnOk result ((seen self.new).told ≡ grown (seen self.old).told (Sent port bytes.now ∷ [])) }
        ensures err { OnErr result ((seen self.new).told ≡ (seen self.old).told) }
        ensures count { (seen self.old).faults ≤ (seen self.new).faults }
        ensures cause { OnErr result (Rose (seen self.old).faults (seen self.new).faults) };

    /// Gives one datagram from the server's address, its first 64 bytes at most, with the port that it came from.
    fn poll(&mut self, out: &mut [u8; 64]) -> Result<Polled, Failed>
        ensures ok { IfOk result (λ polled. (seen self.new).told ≡ grown (seen self.old).told (polled_event polled out.new ∷ [])) }
        ensures within { IfOk result IsPolled }
        ensures err { OnErr result ((seen self.new).told ≡ (seen self.old).told) }
        ensures count { (seen self.old).faults ≤ (seen self.new).faults }
        ensures cause { OnErr result (Rose (seen self.old).faults (seen self.new).faults) };
}
