//! The sessions of a server.

ghost use Rattle.std.specs.Prelude.{◌≡◌, ◌⊎◌, ◌≤◌, ◌<◌, ◌-◌, ◌+◌, ℕ, List, [], ◌∷◌, ◌++◌, length, Some, None, IfOk, IsSome, OnErr, Option, slice_get};
ghost use Rattle.fd_netmsg.specs.Message.{meant};
ghost use Rattle.fd_netserver.specs.Files.{free_number};
ghost use Rattle.fd_netserver.specs.History.{IsTurn};
ghost use Rattle.fd_netserver.specs.Session.{Broken, Input, Session, after_reply, change_at, session_at};
ghost use Rattle.fd_netserver.specs.Stands.{AreThere, IsAtPort, IsBrokenAt, IsRowTurn, StandsFor, TurnOf, dones, finishes, session_after};
ghost use Rattle.fd_netserver.specs.Table.{herald_row, numbered, session_row, waiting};
ghost use Rattle.fd_netserver.specs.declared.reply.Reply.TheVariants.{Ignored};
ghost use Rattle.fd_netserver.specs.declared.reply.Skip.TheVariants as skip;
ghost use Rattle.fd_site.specs.Contents.{Adds, Told, file_of};
ghost use Rattle.fd_site.specs.Fault.{Rose};
ghost use Rattle.fd_site.specs.Seen.{Frame};

use crate::number::make_next;
use crate::phase::Phase;
use crate::record::{Record, same_peer};
use crate::reply::{Reply, Skip};
use fd_netmsg::{HERALD, Message, read_message};
use fd_site::{Failed, Peer, Site};
use std::alloc::{AllocError, Global};
use std::marker::Model;

/// A server, seen as the records of its sessions.
#[derive(Drop)]
pub struct Server {
    alloc: Global,
    sessions: Vec<Record>,
}

impl Model for Server {
    ghost use Rattle.std.specs.Prelude.{List, length, ◌≤◌};
    ghost use Rattle.fd_netserver.specs.declared.record.Record.{Record};

    ghost Value = { List Record };

    ghost view = { λ s. s.sessions.items };

    ghost invariant = { λ s. length s.sessions.items ≤ 16 };
}

// The slot of the peer's latest session, where that is open and empty.
fn waiting(sessions: &[Record], peer: Peer) -> Option<u16>
    requires { length sessions.now ≤ 16 }
    ensures { (ss : List Session) → StandsFor sessions.now ss → result ≡ waiting peer 1 None ss }
{
    let mut found = None;
    let mut slot = 1;
    let mut rest = sessions;
    while let [record, after @ ..] = rest {
        if same_peer(peer, record.peer) {
            found = if record.is_fresh() { Some(slot) } else { None };
        }
        slot += 1;
        rest = after;
    }
    found
}

impl Server {
    /// A server with no session.
    pub fn new(alloc: Global) -> Server
        ensures { result ≡ [] }
    {
        Server {
            alloc,
            sessions: Vec::new(alloc),
        }
    }

    // There are at most 16 sessions.
    pub(crate) fn has_few(&self)
        ensures { length self.now ≤ 16 }
    {
        let _sessions = self.sessions.as_slice();
    }

    // Takes a message at a session's port.
    fn take_session<S: Site>(
        &mut self,
        site: &mut S,
        slot: u16,
        peer: Peer,
        m: &Message<'_>,
    ) -> Result<Reply, AllocError>
        requires slot { 1 ≤ slot }
        requires there { Told (S.seen site.old).told (λ c. AreThere self.old (file_of c)) }
        ensures turn { IfOk result (λ reply. (ss : List Session) (input : Input) → StandsFor self.old ss →
            Adds (λ es. IsRowTurn (session_row slot peer (meant m.now) (session_at ss slot)) (TurnOf input reply es))
            (S.seen site.old).told (S.seen site.new).told) }
        ensures stands { IfOk result (λ reply. (ss : List Session) → StandsFor self.old ss → StandsFor self.new (change_at (session_after (meant m.now) reply) ss slot)) }
        ensures memory { OnErr result (S.seen site.new ≡ S.seen site.old) }
        ensures same { OnErr result (self.new ≡ self.old) }
        ensures own { IfOk result (λ reply. IsAtPort reply) }
        ensures frame { Frame (S.seen site.old) (S.seen site.new) }
        ensures done { IfOk result (λ reply. dones self.new ≡ dones self.old + finishes reply) }
        ensures cause { IfOk result (λ reply. reply ≡ Ignored skip.Broken → Rose (S.seen site.old).faults (S.seen site.new).faults ⊎ IsBrokenAt self.old slot) }
    {
        let index = usize::from(slot) - 1;
        if index >= self.sessions.as_slice().len() {
            return Ok(Reply::Ignored(Skip::NoSession));
        }
        self.sessions[index].take(site, slot, peer, m)
    }

    // Opens a session in the next slot.
    fn open<S: Site>(&mut self, site: &mut S, peer: Peer, seqno: u32) -> Result<Reply, AllocError>
        requires room { length self.old < 16 }
        ensures turn { IfOk result
            (λ reply. (input : Input) →
            Adds (λ es. Told (S.seen site.old).told
            (λ c. IsRowTurn (numbered (free_number (file_of c)) (length self.old + 1) seqno) (TurnOf input reply es)))
            (S.seen site.old).told (S.seen site.new).told) }
        ensures stands { IfOk result (λ reply. (ss : List Session) (bytes : List ℕ) → StandsFor self.old ss →
            StandsFor self.new (after_reply ss (record { slot = 0; peer = peer; bytes = bytes }) reply)) }
        ensures memory { OnErr result (S.seen site.new ≡ S.seen site.old) }
        ensures same { OnErr result (self.new ≡ self.old) }
        ensures frame { Frame (S.seen site.old) (S.seen site.new) }
        ensures done { IfOk result (λ reply. dones self.new ≡ dones self.old + finishes reply) }
        ensures cause { IfOk result (λ reply. reply ≡ Ignored skip.Broken → Rose (S.seen site.old).faults (S.seen site.new).faults) }
    {
        let slot = self.sessions.as_slice().len() as u16 + 1;
        self.sessions.reserve(1)?;
        match make_next(site) {
            Ok(Some(number)) => {
                self.sessions
                    .push_reserved(Record::new(self.alloc, peer, number, Phase::Open));
                Ok(Reply::Opened {
                    slot,
                    seqno,
                    number,
                })
            }
            Ok(None) => Ok(Reply::Ignored(Skip::NoNumber)),
            Err(Failed) => {
                self.sessions
                    .push_reserved(Record::new(self.alloc, peer, 0, Phase::Broken));
                Ok(Reply::Ignored(Skip::Broken))
            }
        }
    }

    // Takes a message at the herald's port.
    fn take_herald<S: Site>(
        &mut self,
        site: &mut S,
        peer: Peer,
        m: &Message<'_>,
    ) -> Result<Reply, AllocError>
        ensures turn { IfOk result (λ reply. (ss : List Session) (input : Input) → StandsFor self.old ss →
            Adds (λ es. Told (S.seen site.old).told
            (λ c. IsRowTurn (herald_row ss (file_of c) peer (meant m.now)) (TurnOf input reply es))) (S.seen site.old).told
            (S.seen site.new).told) }
        ensures stands { IfOk result (λ reply. (ss : List Session) (bytes : List ℕ) → StandsFor self.old ss →
            StandsFor self.new (after_reply ss (record { slot = 0; peer = peer; bytes = bytes }) reply)) }
        ensures memory { OnErr result (S.seen site.new ≡ S.seen site.old) }
        ensures same { OnErr result (self.new ≡ self.old) }
        ensures frame { Frame (S.seen site.old) (S.seen site.new) }
        ensures done { IfOk result (λ reply. dones self.new ≡ dones self.old + finishes reply) }
        ensures cause { IfOk result (λ reply. reply ≡ Ignored skip.Broken → Rose (S.seen site.old).faults (S.seen site.new).faults) }
    {
        if m.kind != HERALD {
            return Ok(Reply::Ignored(Skip::NotHerald));
        }
        let seqno = m.seqno;
        if let Some(slot) = waiting(self.sessions.as_slice(), peer) {
            return Ok(Reply::Ack { slot, seqno });
        }
        if self.sessions.as_slice().len() >= 16 {
            return Ok(Reply::Ignored(Skip::Full));
        }
        self.open(site, peer, seqno)
    }

    /// Takes one datagram that a peer sent to a slot's port. Where no memory is left nothing has changed.
    pub fn take<S: Site>(
        &mut self,
        site: &mut S,
        slot: u16,
        peer: Peer,
        bytes: &[u8],
    ) -> Result<Reply, AllocError>
        requires there { Told (S.seen site.old).told (λ c. AreThere self.old (file_of c)) }
        ensures turn { IfOk result (λ reply. (ss : List Session) → StandsFor self.old ss →
            Adds (λ es. Told (S.seen site.old).told
            (λ c. IsTurn ss (file_of c) (TurnOf (record { slot = slot; peer = peer; bytes = bytes.now }) reply es)))
            (S.seen site.old).told (S.seen site.new).told) }
        ensures stands { IfOk result (λ reply. (ss : List Session) → StandsFor self.old ss → StandsFor self.new (after_reply ss (record { slot = slot; peer = peer; bytes = bytes.now }) reply)) }
        ensures memory { OnErr result (S.seen site.new ≡ S.seen site.old) }
        ensures same { OnErr result (self.new ≡ self.old) }
        ensures frame { Frame (S.seen site.old) (S.seen site.new) }
        ensures done { IfOk result (λ reply. dones self.new ≡ dones self.old + finishes reply) }
        ensures cause { IfOk result (λ reply. reply ≡ Ignored skip.Broken → Rose (S.seen site.old).faults (S.seen site.new).faults ⊎ IsBrokenAt self.old slot) }
    {
        match read_message(bytes) {
            None => Ok(Reply::Ignored(Skip::NotMessage)),
            Some(m) => {
                if slot == 0 {
                    return self.take_herald(site, peer, &m);
                }
                self.take_session(site, slot, peer, &m)
            }
        }
    }
}
