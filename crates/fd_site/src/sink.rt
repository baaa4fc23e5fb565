//! Where printed text goes.

ghost use Rattle.std.specs.Prelude.{◌≡◌, ℕ, ◌≤◌, take, OnErr, OnOk};
ghost use Rattle.fd_site.specs.Fault.{Rose};
ghost use Rattle.fd_site.specs.Seen.{Watched};
ghost use Rattle.fd_site.specs.Trace.{grown};

use crate::fault::Failed;

/// Where printed text goes.
pub trait Sink {
    /// What contracts see of the sink: the bytes so far, where it tells them, and how often a call has failed.
    ghost seen: { Self → Watched ℕ };

    /// Appends the bytes, or after an error some of the first of them.
    fn put(&mut self, bytes: &[u8]) -> Result<(), Failed>
        ensures ok { OnOk result ((seen self.new).told ≡ grown (seen self.old).told bytes.now) }
        ensures err { OnErr result ((n : ℕ) × ((seen self.new).told ≡ grown (seen self.old).told (take n bytes.now))) }
        ensures count { (seen self.old).faults ≤ (seen self.new).faults }
        ensures cause { OnErr result (Rose (seen self.old).faults (seen self.new).faults) };
}
