//! The record of one session.

ghost use Rattle.std.specs.Prelude.{◌≡◌, ◌⊎◌, ◌+◌, ℕ, Some, IfOk, IsSome, OnErr};
ghost use Rattle.fd_info.specs.Info.{IsPlain};
ghost use Rattle.fd_info.specs.Name.{vmcore_name};
ghost use Rattle.fd_netmsg.specs.Message.{Message as Meant, meant};
ghost use Rattle.fd_netserver.specs.Session.{Broken, Input, Open, Session, opened, same_peer};
ghost use Rattle.fd_netserver.specs.Stands.{IsAtPort, IsOpenStep, IsPiece, IsRowTurn, StandsIn, StepsTo, TurnOf, done_of, finishes, phase_by, session_after, settled};
ghost use Rattle.fd_netserver.specs.Table.{end_row, is_empty, open_row, phase_row, session_row};
ghost use Rattle.fd_netserver.specs.declared.reply.Reply.TheVariants.{Ignored};
ghost use Rattle.fd_netserver.specs.declared.reply.Skip.TheVariants as skip;
ghost use Rattle.fd_netserver.specs.declared.step.Step.TheVariants as step;
ghost use Rattle.fd_site.specs.Contents.{Adds, Told, file_of};
ghost use Rattle.fd_site.specs.Fault.{Rose};
ghost use Rattle.fd_site.specs.Seen.{Frame};

use crate::files::{end_files, write_vmcore};
use crate::header::accepted;
use crate::phase::Phase;
use crate::reply::{Reply, Skip};
use crate::step::{Step, done_step, header_step, piece_step};
use fd_bytes::get_u32_be;
use fd_cover::Cover;
use fd_kdh::Header;
use fd_netmsg::{HERALD, KDH, KEY, Message, VMCORE};
use fd_site::{Failed, Peer, Site};
use std::alloc::{AllocError, Global};

/// Where the parity word stands in the bytes of a header.
const PARITY: usize = 508;

/// What a server keeps of a session.
#[derive(Drop)]
pub struct Record {
    pub(crate) peer: Peer,
    pub(crate) number: u32,
    pub(crate) cover: Cover,
    pub(crate) header: Option<[u8; 512]>,
    pub(crate) phase: Phase,
}

pub(crate) fn same_peer(a: Peer, b: Peer) -> bool
    ensures { result ≡ same_peer a b }
{
    a.address == b.address && a.port == b.port
}

impl Record {
    /// A session that has taken nothing.
    pub(crate) fn new(alloc: Global, peer: Peer, number: u32, phase: Phase) -> Record
        ensures { StandsIn result (opened peer number phase) }
    {
        Record {
            peer,
            number,
            cover: Cover::new(alloc),
            header: None,
            phase,
        }
    }

    /// Whether the session is open and has taken nothing.
    pub(crate) fn is_fresh(&self) -> bool
        ensures { (s : Session) → StandsIn self.now s → result ≡ is_empty s.phase s.taken s.header }
    {
        match self.phase {
            Phase::Open => match self.header {
                None => self.cover.is_empty(),
                Some(_) => false,
            },
            _ => false,
        }
    }

    // What the session does with a message from its peer.
    fn step(&self, m: &Message<'_>) -> Step
        ensures row { (slot : ℕ) (s : Session) → StandsIn self.now s → phase_row s.phase slot (meant m.now) s ≡ StepsTo result slot s.number (meant m.now) }
        ensures open_ { IsOpenStep result self.now (meant m.now) }
    {
        if matches!(self.phase, Phase::Broken) {
            return Step::Skips(Skip::Broken);
        }
        if m.kind == HERALD {
            return Step::Skips(Skip::NotHere);
        }
        if m.kind == KEY {
            return Step::Skips(Skip::Key);
        }
        if matches!(self.phase, Phase::Done) {
            return done_step(m);
        }
        self.open_step(m)
    }

    fn open_step(&self, m: &Message<'_>) -> Step
        requires { self.now.phase ≡ Open }
        ensures row { (slot : ℕ) (s : Session) → StandsIn self.now s → open_row slot (meant m.now) s ≡ StepsTo result slot s.number (meant m.now) }
        ensures open_ { IsOpenStep result self.now (meant m.now) }
    {
        if m.kind == VMCORE {
            return piece_step(m);
        }
        if m.kind == KDH {
            return header_step(m);
        }
        match &self.header {
            Some(bytes) => self.end_step(bytes),
            None => Step::Skips(Skip::NotWhole),
        }
    }

    fn end_step(&self, bytes: &[u8; 512]) -> Step
        requires open_ { self.now.phase ≡ Open }
        requires bytes { self.now.header ≡ Some bytes.now }
        ensures row { (slot : ℕ) (m : Meant) (s : Session) → StandsIn self.now s → end_row slot m.seqno s (Some bytes.now) ≡ StepsTo result slot s.number m }
        ensures open_ { (m : Meant) → IsOpenStep result self.now m }
    {
        match accepted(bytes) {
            Some(header) => {
                if self.cover.whole(header.dumplength) {
                    return Step::Ends(header, get_u32_be(bytes, PARITY));
                }
                Step::Skips(Skip::NotWhole)
            }
            _ => Step::Skips(Skip::NotWhole),
        }
    }

    // The answer to a call that was done or failed.
    fn settle(&mut self, done: Result<(), Failed>, reply: Reply, phase: Phase) -> Reply
        ensures answer { result ≡ settled done reply }
        ensures state { self.new ≡ record self.old { phase = phase_by done phase } }
    {
        match done {
            Ok(()) => {
                self.phase = phase;
                reply
            }
            Err(Failed) => {
                self.phase = Phase::Broken;
                Reply::Ignored(Skip::Broken)
            }
        }
    }

    // Takes the bytes of a message. The cover grows before they are written, since that may take memory.
    fn take_piece<S: Site>(
        &mut self,
        site: &mut S,
        slot: u16,
        m: &Message<'_>,
    ) -> Result<Reply, AllocError>
        requires piece { IsPiece self.old (meant m.now) }
        requires there { Told (S.seen site.old).told (λ c. IsSome (file_of c (vmcore_name self.old.number))) }
        ensures turn { IfOk result
            (λ reply. (input : Input) →
            Adds (λ es. IsRowTurn (StepsTo step.Writes slot self.old.number (meant m.now)) (TurnOf input reply es))
            (S.seen site.old).told (S.seen site.new).told) }
        ensures stands { IfOk result (λ reply. (s : Session) → StandsIn self.old s → StandsIn self.new (session_after (meant m.now) reply s)) }
        ensures memory { OnErr result (S.seen site.new ≡ S.seen site.old) }
        ensures same { OnErr result (self.new ≡ self.old) }
        ensures frame { Frame (S.seen site.old) (S.seen site.new) }
        ensures own { IfOk result (λ reply. IsAtPort reply) }
        ensures done { IfOk result (λ reply. done_of self.new.phase ≡ done_of self.old.phase + finishes reply) }
        ensures cause { IfOk result (λ reply. reply ≡ Ignored skip.Broken → Rose (S.seen site.old).faults (S.seen site.new).faults) }
    {
        self.cover.add(m.offset, m.body.len() as u64)?;
        let done = write_vmcore(site, self.number, m.offset, m.body);
        let reply = Reply::Ack {
            slot,
            seqno: m.seqno,
        };
        Ok(self.settle(done, reply, Phase::Open))
    }

    // Ends the session.
    fn take_end<S: Site>(
        &mut self,
        site: &mut S,
        slot: u16,
        m: &Message<'_>,
        header: &Header,
        parity: u32,
    ) -> Reply
        requires open_ { self.old.phase ≡ Open }
        requires plain { IsPlain header.now }
        requires there { Told (S.seen site.old).told (λ c. IsSome (file_of c (vmcore_name self.old.number))) }
        ensures turn { (input : Input) →
            Adds (λ es. IsRowTurn (StepsTo (step.Ends header.now parity) slot self.old.number (meant m.now))
            (TurnOf input result es)) (S.seen site.old).told (S.seen site.new).told }
        ensures stands { (s : Session) → StandsIn self.old s → StandsIn self.new (session_after (meant m.now) result s) }
        ensures frame { Frame (S.seen site.old) (S.seen site.new) }
        ensures own { IsAtPort result }
        ensures done { done_of self.new.phase ≡ done_of self.old.phase + finishes result }
        ensures cause { result ≡ Ignored skip.Broken → Rose (S.seen site.old).faults (S.seen site.new).faults }
    {
        let done = end_files(site, self.number, header, parity);
        let reply = Reply::Finished {
            seqno: m.seqno,
            slot,
            number: self.number,
            length: header.dumplength,
        };
        self.settle(done, reply, Phase::Done)
    }

    /// Takes a message on the session's port.
    pub(crate) fn take<S: Site>(
        &mut self,
        site: &mut S,
        slot: u16,
        peer: Peer,
        m: &Message<'_>,
    ) -> Result<Reply, AllocError>
        requires there { Told (S.seen site.old).told (λ c. self.old.phase ≡ Open → IsSome (file_of c (vmcore_name self.old.number))) }
        ensures turn { IfOk result (λ reply. (s : Session) (input : Input) → StandsIn self.old s →
            Adds (λ es. IsRowTurn (session_row slot peer (meant m.now) (Some s)) (TurnOf input reply es)) (S.seen site.old).told
            (S.seen site.new).told) }
        ensures stands { IfOk result (λ reply. (s : Session) → StandsIn self.old s → StandsIn self.new (session_after (meant m.now) reply s)) }
        ensures memory { OnErr result (S.seen site.new ≡ S.seen site.old) }
        ensures same { OnErr result (self.new ≡ self.old) }
        ensures frame { Frame (S.seen site.old) (S.seen site.new) }
        ensures own { IfOk result (λ reply. IsAtPort reply) }
        ensures done { IfOk result (λ reply. done_of self.new.phase ≡ done_of self.old.phase + finishes reply) }
        ensures cause { IfOk result (λ reply. reply ≡ Ignored skip.Broken → Rose (S.seen site.old).faults (S.seen site.new).faults ⊎ (self.old.phase ≡ Broken)) }
    {
        if !same_peer(peer, self.peer) {
            return Ok(Reply::Ignored(Skip::Stranger));
        }
        let seqno = m.seqno;
        match self.step(m) {
            Step::Skips(why) => Ok(Reply::Ignored(why)),
            Step::Repeats => Ok(Reply::Ack { slot, seqno }),
            Step::Keeps(header) => {
                self.header = Some(header);
                Ok(Reply::Ack { slot, seqno })
            }
            Step::Writes => self.take_piece(site, slot, m),
            Step::Ends(header, parity) => Ok(self.take_end(site, slot, m, &header, parity)),
        }
    }
}
