//! What an event makes of a world.

ghost use Rattle.std.specs.Prelude.{◌≡◌, ◌⊎◌, ◌+◌, ◌≤◌, ◌^◌, IfOk, List, OnOk, slice_get, Some};
ghost use Rattle.fd_fake.specs.Disk.{file_now};
ghost use Rattle.fd_kdh.specs.Header.{FitsFields};
ghost use Rattle.fd_netclient.specs.Client.{IsPatient, patience_of};
ghost use Rattle.fd_netclient.specs.Machine.{port_of, want_of};
ghost use Rattle.fd_fake.specs.MemSite.{seen_of};
ghost use Rattle.fd_netserver.specs.History.{IsTurn};
ghost use Rattle.fd_netserver.specs.Session.{Session, after_reply};
ghost use Rattle.fd_netserver.specs.Stands.{IsBrokenAt, StandsFor, TurnOf};
ghost use Rattle.fd_netserver.specs.declared.reply.Reply.TheVariants.{Ignored};
ghost use Rattle.fd_netserver.specs.declared.reply.Skip.TheVariants as skip;
ghost use Rattle.fd_site.specs.Contents.{Adds, Told, file_of};
ghost use Rattle.fd_site.specs.Trace.{Silent};
ghost use Rattle.fd_networld.specs.Watched.{one_if};
ghost use Rattle.fd_networld.specs.Sent.{all_answers, client_peer, sent_in};
ghost use Rattle.fd_networld.specs.Steps.{HasCalm, HasFiles, HasTaken, IsChunked, IsNow, gone};
ghost use Rattle.fd_networld.specs.World.{Begins, Shows, Story, WillFail, answering, arriving, beginning, hearing, sending, step_of};

use crate::datagram::put_datagram;
use crate::event::{Bytes, Event};
use crate::runs::{Exchange, Runs};
use crate::trace::Trace;
use crate::watched::Watched;
use crate::world::World;
use fd_fake::{LinkEvent, MemSite};
use fd_kdh::Header;
use fd_netclient::{Client, Limits, Want};
use fd_netmsg::put_ack;
use fd_netserver::{Reply, Server};
use fd_site::Peer;
use std::alloc::{AllocError, Global};
use std::mem;

// Where the client's datagrams come from: port 20024 of 127.0.0.1.
const CLIENT: Peer = Peer {
    address: 0x7f00_0001,
    port: 20024,
};

// The port of slot 0; slot k has the k-th after it.
const FIRST_PORT: u16 = 40000;

// The last slot; the first one is the herald's.
const LAST_SLOT: u16 = 16;

impl World {
    /// Before any event, for a dump of so many chunks.
    pub(crate) fn begin(alloc: Global, chunks: u32, limits: Limits) -> Result<World, AllocError>
        requires some { 1 ≤ chunks }
        requires fits { chunks ≤ 2 ^ 30 }
        requires patient { IsPatient limits }
        ensures shows { IfOk result (λ w. Shows (beginning chunks (patience_of limits)) w) }
        ensures starved { IfOk result (λ w. w.site.calls.starved ≡ 0) }
    {
        let site = MemSite::new(alloc, 0, 512, Vec::new(alloc))?;
        Ok(World {
            client: Client::new(chunks, limits),
            server: Server::new(alloc),
            site,
            waiting: false,
            trace: Trace::new(alloc),
            runs: Runs::new(alloc),
        })
    }

    // The client sends what it wants to send.
    fn send(&mut self, alloc: Global, dump: &[u8], header: &Header) -> Result<(), AllocError>
        requires dump { IsChunked dump.now }
        requires header { FitsFields header.now }
        ensures { OnOk result (self.new ≡ gone (sending dump.now header.now (port_of self.old.client.state) (want_of self.old.client.state)) self.old) }
    {
        match self.client.want() {
            Want::Send(number) => {
                let mut out = [0; 4120];
                let len = put_datagram(dump, header, number, &mut out);
                let bytes = out[..len].to_vec(alloc)?;
                let port = self.client.port();
                self.trace.note(LinkEvent::Sent { port, bytes })?;
                self.client.sent();
                Ok(())
            }
            _ => Ok(()),
        }
    }

    // An answer comes to the client.
    fn hear(&mut self, alloc: Global, nth: u64) -> Result<(), AllocError>
        ensures { OnOk result (self.new ≡ gone (answering (slice_get (all_answers self.old.runs) nth) (want_of self.old.client.state)) self.old) }
    {
        let Some(answer) = self.runs.answer(nth) else {
            return Ok(());
        };
        if answer.peer.address != CLIENT.address || answer.peer.port != CLIENT.port {
            return Ok(());
        }
        match self.client.want() {
            Want::Poll => {
                let port = FIRST_PORT.saturating_add(answer.slot);
                let bytes = put_ack(answer.seqno);
                let copy = bytes.to_vec(alloc)?;
                self.trace.note(LinkEvent::Got { port, bytes: copy })?;
                self.client.got(port, &bytes);
                Ok(())
            }
            _ => Ok(()),
        }
    }

    // The client's poll brings nothing.
    fn hear_nothing(&mut self) -> Result<(), AllocError>
        ensures { OnOk result (self.new ≡ gone (hearing Silent (want_of self.old.client.state)) self.old) }
    {
        match self.client.want() {
            Want::Poll => {
                self.trace.note(LinkEvent::Silent)?;
                self.client.silent();
                Ok(())
            }
            _ => Ok(()),
        }
    }

    // The server takes a datagram, over a site of which at most so many calls fail. Want of memory that the site met is
    // answered too.
    fn take_watched<const MOST: usize>(
        &mut self,
        alloc: Global,
        slot: u16,
        peer: Peer,
        bytes: &[u8],
    ) -> Result<Reply, AllocError>
        requires there { HasFiles self.old }
        requires calm { HasCalm self.old }
        requires most { one_if self.old.waiting ≤ MOST }
        requires one { one_if self.old.waiting ≤ 1 }
        ensures others { self.new ≡ record self.old { server = self.new.server; site = self.new.site; waiting = self.new.waiting } }
        ensures turn { IfOk result (λ reply. (ss : List Session) → StandsFor self.old.server ss →
            Adds (λ es. Told (seen_of self.old.site).told
            (λ c. IsTurn ss (file_of c) (TurnOf (record { slot = slot; peer = peer; bytes = bytes.now }) reply es)))
            (seen_of self.old.site).told (seen_of self.new.site).told) }
        ensures stands { IfOk result (λ reply. (ss : List Session) → StandsFor self.old.server ss →
            StandsFor self.new.server (after_reply ss (record { slot = slot; peer = peer; bytes = bytes.now }) reply)) }
        ensures block { OnOk result (self.new.site.block ≡ self.old.site.block) }
        ensures calm { OnOk result (HasCalm self.new) }
        ensures few { OnOk result (one_if self.new.waiting ≤ MOST) }
        ensures cause { IfOk result (λ reply. reply ≡ Ignored skip.Broken → (1 + one_if self.new.waiting ≤ MOST) ⊎ IsBrokenAt self.old.server slot) }
        ensures fed { OnOk result (self.new.site.calls.starved ≡ 0) }
    {
        let spare = MemSite::new(alloc, 0, 512, Vec::new(alloc))?;
        let mut watched = Watched::<MOST> {
            site: mem::replace(&mut self.site, spare),
            waiting: self.waiting,
            failed: false,
        };
        let reply = self.server.take(&mut watched, slot, peer, bytes)?;
        self.waiting = watched.waiting;
        self.site = watched.site;
        if self.site.starved() > 0 {
            return Err(AllocError);
        }
        Ok(reply)
    }

    // The server takes a datagram.
    fn take(
        &mut self,
        alloc: Global,
        slot: u16,
        peer: Peer,
        bytes: Vec<u8>,
    ) -> Result<(), AllocError>
        requires there { HasFiles self.old }
        requires calm { HasCalm self.old }
        ensures taken { OnOk result (HasTaken (record { slot = slot; peer = peer; bytes = bytes.items }) self.old self.new) }
    {
        let reply = if self.waiting {
            self.take_watched::<1>(alloc, slot, peer, &bytes)?
        } else {
            self.take_watched::<0>(alloc, slot, peer, &bytes)?
        };
        self.runs.note(Exchange {
            slot,
            peer,
            bytes,
            reply,
        })
    }

    // A datagram comes to a slot.
    fn deliver(
        &mut self,
        alloc: Global,
        slot: u16,
        peer: Peer,
        bytes: Vec<u8>,
    ) -> Result<(), AllocError>
        requires there { HasFiles self.old }
        requires calm { HasCalm self.old }
        ensures now { (story : Story) → Shows story self.old → OnOk result (IsNow (arriving slot peer (Some bytes.items)) story self.new) }
    {
        if slot > LAST_SLOT {
            return Ok(());
        }
        self.take(alloc, slot, peer, bytes)
    }

    // A datagram that the client sent comes to a slot.
    fn arrive(&mut self, alloc: Global, slot: u16, nth: u64) -> Result<(), AllocError>
        requires there { HasFiles self.old }
        requires calm { HasCalm self.old }
        ensures now { (story : Story) → Shows story self.old → OnOk result (IsNow (arriving slot client_peer (slice_get (sent_in story.trace) nth)) story self.new) }
    {
        let Some(sent) = self.trace.sent(nth) else {
            return Ok(());
        };
        let bytes = sent.to_vec(alloc)?;
        self.deliver(alloc, slot, CLIENT, bytes)
    }

    // A datagram of anyone comes to a slot.
    fn visit(
        &mut self,
        alloc: Global,
        slot: u16,
        peer: Peer,
        bytes: &Bytes,
    ) -> Result<(), AllocError>
        requires there { HasFiles self.old }
        requires calm { HasCalm self.old }
        ensures now { (story : Story) → Shows story self.old → OnOk result (IsNow (arriving slot peer (Some bytes.now)) story self.new) }
    {
        let copy = bytes.as_slice().to_vec(alloc)?;
        self.deliver(alloc, slot, peer, copy)
    }

    // The server is started anew.
    fn restart(&mut self, alloc: Global) -> Result<(), AllocError>
        ensures now { (story : Story) → Shows story self.old → OnOk result (IsNow Begins story self.new) }
    {
        self.runs.begin()?;
        self.server = Server::new(alloc);
        Ok(())
    }

    /// One event.
    pub(crate) fn step(
        &mut self,
        alloc: Global,
        dump: &[u8],
        header: &Header,
        event: &Event,
    ) -> Result<(), AllocError>
        requires dump { IsChunked dump.now }
        requires header { FitsFields header.now }
        requires there { HasFiles self.old }
        requires calm { HasCalm self.old }
        ensures now { (story : Story) → Shows story self.old → OnOk result (IsNow (step_of dump.now header.now story event.now) story self.new) }
    {
        match event {
            Event::Send => self.send(alloc, dump, header),
            Event::ToServer { slot, nth } => self.arrive(alloc, *slot, *nth),
            Event::ToClient { nth } => self.hear(alloc, *nth),
            Event::Stranger { slot, peer, bytes } => self.visit(alloc, *slot, *peer, bytes),
            Event::ClientSilent => self.hear_nothing(),
            Event::ServerSilent => Ok(()),
            Event::SiteFails => {
                self.site.fail_next();
                self.waiting = true;
                Ok(())
            }
            Event::Restart => self.restart(alloc),
        }
    }
}
