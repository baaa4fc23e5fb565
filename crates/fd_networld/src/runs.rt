//! What the servers of a world took and answered.

ghost use Rattle.std.specs.Prelude.{◌≡◌, ◌++◌, ◌∷◌, [], OnErr, OnOk, slice_get};
ghost use Rattle.fd_networld.specs.Runs.{all_noted, exchange};
ghost use Rattle.fd_networld.specs.Sent.{all_answers, answer_to};

use crate::answer::Answer;
use fd_netserver::Reply;
use fd_site::Peer;
use std::alloc::{AllocError, Global};
use std::marker::Model;
use std::mem;

/// A datagram that a server took, and its reply.
#[derive(Drop)]
pub struct Exchange {
    pub slot: u16,
    pub peer: Peer,
    pub bytes: Vec<u8>,
    pub reply: Reply,
}

/// What one server took and answered, in order.
#[derive(Drop)]
pub struct Run {
    items: Vec<Exchange>,
}

impl Model for Run {
    ghost use Rattle.std.specs.Prelude.{List};
    ghost use Rattle.fd_networld.specs.Sent.{Exchange};
    ghost use Rattle.fd_networld.specs.Runs.{all_noted};

    ghost Value = { List Exchange };

    ghost view = { λ r. all_noted r.items.items };
}

impl Run {
    // A server has taken nothing.
    fn new(alloc: Global) -> Run
        ensures { result ≡ [] }
    {
        Run {
            items: Vec::new(alloc),
        }
    }

    // Notes an exchange.
    fn note(&mut self, it: Exchange) -> Result<(), AllocError>
        ensures ok { OnOk result (self.new ≡ self.old ++ exchange it ∷ []) }
        ensures err { OnErr result (self.new ≡ self.old) }
    {
        self.items.push(it)?;
        Ok(())
    }

    /// What was taken, with its replies.
    pub fn exchanges(&self) -> &[Exchange]
        ensures { all_noted result.now ≡ self.now }
    {
        &self.items
    }
}

/// What each server of a world took and answered, in order; the last server is running.
#[derive(Drop)]
pub struct Runs {
    alloc: Global,
    earlier: Vec<Run>,
    run: Run,
    // the answers of all of them
    answers: Vec<Answer>,
}

impl Model for Runs {
    ghost use Rattle.std.specs.Prelude.{◌≡◌};
    ghost use Rattle.fd_networld.specs.Sent.{AllRuns, all_answers};

    ghost Value = { AllRuns };

    ghost view = { λ r. record { earlier = r.earlier.items; run = r.run } };

    ghost invariant = { λ r. r.answers.items ≡ all_answers (record { earlier = r.earlier.items; run = r.run }) };
}

// How a reply is answered.
fn answer_to(peer: Peer, reply: Reply) -> Option<Answer>
    ensures { result ≡ answer_to peer reply }
{
    match reply {
        Reply::Opened { slot, seqno, .. }
        | Reply::Ack { slot, seqno }
        | Reply::Finished { seqno, slot, .. } => { Some(Answer { peer, slot, seqno }) }
        Reply::Ignored(_) => None,
    }
}

impl Runs {
    /// One server, which has taken nothing.
    pub(crate) fn new(alloc: Global) -> Runs
        ensures { result ≡ record { earlier = []; run = [] } }
    {
        Runs {
            alloc,
            earlier: Vec::new(alloc),
            run: Run::new(alloc),
            answers: Vec::new(alloc),
        }
    }

    /// What the servers before the running one took and answered, in order.
    pub fn earlier(&self) -> &[Run]
        ensures { result.now ≡ self.now.earlier }
    {
        &self.earlier
    }

    /// What the running server took and answered.
    pub fn run(&self) -> &Run
        ensures { result.now ≡ self.now.run }
    {
        &self.run
    }

    /// Notes what the running server took and answered.
    pub(crate) fn note(&mut self, it: Exchange) -> Result<(), AllocError>
        ensures ok { OnOk result (self.new ≡ record self.old { run = self.old.run ++ exchange it ∷ [] }) }
    {
        self.answers.reserve(1)?;
        let answer = answer_to(it.peer, it.reply);
        self.run.note(it)?;
        if let Some(answer) = answer {
            self.answers.push_reserved(answer);
        }
        Ok(())
    }

    /// The next server begins.
    pub(crate) fn begin(&mut self) -> Result<(), AllocError>
        ensures ok { OnOk result (self.new ≡ record { earlier = self.old.earlier ++ self.old.run ∷ []; run = [] }) }
    {
        self.earlier.reserve(1)?;
        let run = mem::replace(&mut self.run, Run::new(self.alloc));
        self.earlier.push_reserved(run);
        Ok(())
    }

    /// The `nth` answer that was sent, counted from 0.
    pub(crate) fn answer(&self, nth: u64) -> Option<Answer>
        ensures { result ≡ slice_get (all_answers self.now) nth }
    {
        self.answers.get(nth as usize).copied()
    }
}
