//! The turns of a server.

ghost use Rattle.std.specs.Prelude.{◌≡◌, ◌≤◌, ◌+◌, [], ◌++◌, List, IfErr, IsErrOf, OnErr, OnOk, length};
ghost use Rattle.fd_netserver.specs.Serving.{EndsBy, EndsDone, IsServedTo, IsServing, answers_of, finished_by};
ghost use Rattle.fd_netserver.specs.Turning.{BreaksInput, BreaksTurn, GoesOn, IsGrownInPart, TurnsOn};
ghost use Rattle.fd_netserver.specs.Stands.{AreThere, dones, finishes};
ghost use Rattle.fd_netserver.specs.declared.limits.ServeFault.TheVariants as fault;
ghost use Rattle.fd_site.specs.Contents.{Told, file_of};
ghost use Rattle.fd_site.specs.Fault.{Rose};
ghost use Rattle.fd_site.specs.Seen.{Frame};
ghost use Rattle.fd_site.specs.Trace.{PortsEvent, grown};

use crate::limits::{Received, ServeFault, ServeLimits, Served};
use crate::pace::Pace;
use crate::reply::Reply;
use crate::server::Server;
use arrayvec::ArrayVec;
use fd_netmsg::put_ack;
use fd_site::{Failed, Peer, Ports, Site, Taken};
use std::alloc::Global;

// Answers a peer; the slot of a new session is opened before.
fn respond<P: Ports>(ports: &mut P, peer: Peer, reply: Reply) -> Result<(), Failed>
    ensures ok { OnOk result ((P.seen ports.new).told ≡ grown (P.seen ports.old).told (answers_of peer reply)) }
    ensures err { OnErr result (IsGrownInPart (P.seen ports.old).told (P.seen ports.new).told (answers_of peer reply)) }
    ensures count { (P.seen ports.old).faults ≤ (P.seen ports.new).faults }
    ensures cause { OnErr result (Rose (P.seen ports.old).faults (P.seen ports.new).faults) }
{
    match reply {
        Reply::Opened { slot, seqno, .. } => {
            ports.open_slot(slot)?;
            ports.answer(slot, peer, &put_ack(seqno))
        }
        Reply::Ack { slot, seqno } => ports.answer(slot, peer, &put_ack(seqno)),
        Reply::Finished { slot, seqno, .. } => ports.answer(slot, peer, &put_ack(seqno)),
        Reply::Ignored(_) => Ok(()),
    }
}

// Notes a session that was finished.
fn note(list: &mut ArrayVec<Received, 16>, server: &Server, reply: Reply)
    requires { length list.old.items + finishes reply ≡ dones server.now }
    ensures { list.new.items ≡ list.old.items ++ finished_by reply }
{
    server.has_few();
    if let Reply::Finished { number, length, .. } = reply {
        list.push(Received { number, length });
    }
}

// Takes a datagram, and answers it. A session that is finished is noted before its peer is answered, so that a fault of the
// ports doesn't lose it.
fn take_input<P: Ports, S: Site>(
    server: &mut Server,
    ports: &mut P,
    site: &mut S,
    slot: u16,
    peer: Peer,
    bytes: &[u8],
    list: &mut ArrayVec<Received, 16>,
) -> Result<(), ServeFault>
    requires noted { length list.old.items ≡ dones server.old }
    requires there { Told (S.seen site.old).told (λ c. AreThere server.old (file_of c)) }
    ensures ok { OnOk result
        (GoesOn (S.seen site.old) (S.seen site.new) (P.seen ports.old).told (P.seen ports.new).told server.old server.new
        (record { slot = slot; peer = peer; bytes = bytes.now }) list.old.items list.new.items) }
    ensures noted { OnOk result (length list.new.items ≡ dones server.new) }
    ensures err { IfErr result
        (BreaksInput (S.seen site.old) (S.seen site.new) (P.seen ports.old).told (P.seen ports.new).told server.old
        (record { slot = slot; peer = peer; bytes = bytes.now }) list.old.items list.new.items) }
    ensures frame { Frame (S.seen site.old) (S.seen site.new) }
    ensures count { (P.seen ports.old).faults ≤ (P.seen ports.new).faults }
    ensures cause { IsErrOf result fault.PortsFault → Rose (P.seen ports.old).faults (P.seen ports.new).faults }
{
    let reply = server.take(site, slot, peer, bytes)?;
    note(list, server, reply);
    respond(ports, peer, reply)?;
    Ok(())
}

// One turn: one look at the ports, and what follows from it.
fn take_turn<P: Ports, S: Site>(
    server: &mut Server,
    ports: &mut P,
    site: &mut S,
    buffer: &mut [u8; 8192],
    list: &mut ArrayVec<Received, 16>,
) -> Result<(), ServeFault>
    requires noted { length list.old.items ≡ dones server.old }
    requires there { Told (S.seen site.old).told (λ c. AreThere server.old (file_of c)) }
    ensures ok { OnOk result (TurnsOn (S.seen site.old) (S.seen site.new) (P.seen ports.old).told (P.seen ports.new).told server.old server.new list.old.items list.new.items) }
    ensures noted { OnOk result (length list.new.items ≡ dones server.new) }
    ensures err { IfErr result (BreaksTurn (S.seen site.old) (S.seen site.new) (P.seen ports.old).told (P.seen ports.new).told server.old list.old.items list.new.items) }
    ensures frame { Frame (S.seen site.old) (S.seen site.new) }
    ensures count { (P.seen ports.old).faults ≤ (P.seen ports.new).faults }
    ensures cause { IsErrOf result fault.PortsFault → Rose (P.seen ports.old).faults (P.seen ports.new).faults }
{
    match ports.take(buffer)? {
        Taken::Silent => Ok(()),
        Taken::Got { slot, peer, len } => {
            take_input(server, ports, site, slot, peer, &buffer[..len], list)
        }
    }
}

/// Serves until so many dumps are finished, and then as many turns more as it is to linger, or as are left. It answers
/// `TurnsSpent` where all turns were taken before, and `PortsFault` only where the ports' count of faults rose. A fault of
/// the site breaks a session, and never ends serving.
///
/// A turn is one look at the ports, which may bring nothing. What it brings is taken by a server, which is new at the
/// first turn; each answer but `Ignored` goes from its slot to its peer, and the slot of a new session is opened before.
/// Whatever comes of it, `served` lists the finished sessions in the order in which they finished.
pub fn serve<P: Ports, S: Site>(
    alloc: Global,
    ports: &mut P,
    site: &mut S,
    limits: ServeLimits,
    served: &mut Served,
) -> Result<(), ServeFault>
    requires limits { IsServing limits }
    requires empty { served.old.list.items ≡ [] }
    ensures ok { OnOk result (IsServedTo (EndsDone limits) (S.seen site.old) (S.seen site.new) (P.seen ports.old).told (P.seen ports.new).told served.new.list.items) }
    ensures err { IfErr result (λ why. IsServedTo (EndsBy limits why) (S.seen site.old) (S.seen site.new) (P.seen ports.old).told (P.seen ports.new).told served.new.list.items) }
    ensures frame { Frame (S.seen site.old) (S.seen site.new) }
    ensures count { (P.seen ports.old).faults ≤ (P.seen ports.new).faults }
    ensures cause { IsErrOf result fault.PortsFault → Rose (P.seen ports.old).faults (P.seen ports.new).faults }
{
    let mut server = Server::new(alloc);
    let mut buffer = [0u8; 8192];
    let mut pace = Pace::start(limits);
    while pace.left > 0 {
        take_turn(&mut server, ports, site, &mut buffer, &mut served.list)?;
        pace = pace.next(limits, served.list.len());
    }
    if pace.waits {
        return Err(ServeFault::TurnsSpent(limits.turns));
    }
    Ok(())
}
