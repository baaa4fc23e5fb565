//! The client as a machine: what it wants next, and what it does with what a poll brings.

ghost use Rattle.std.specs.Prelude.{◌≡◌, ◌≤◌, ◌^◌};
ghost use Rattle.fd_netclient.specs.Client.{HasAll, IsOver, IsPatient, patience_of, settled};
ghost use Rattle.fd_netclient.specs.Machine.{IsSend, on_poll, on_sent, port_of, start, want_of};
ghost use Rattle.fd_netclient.specs.declared.client.Want.TheVariants as want;
ghost use Rattle.fd_site.specs.Trace.{Got, Silent};

use crate::acknowledged::{acknowledged_by, session_after};
use crate::batch::batch_at;
use crate::limits::Limits;
use crate::marks::Marks;
use std::marker::Model;

/// What a client wants.
#[derive(Clone, Copy, Debug, PartialEq, Eq)]
pub enum Want {
    /// The datagram of this number is to be sent.
    Send(u32),
    /// The link is to be polled.
    Poll,
    /// All was acknowledged.
    Done,
    /// The rounds are over, and this is the least number that wasn't acknowledged.
    TimedOut(u32),
}

// Whether a client goes on, and how it ended.
#[derive(Clone, Copy)]
enum Ending {
    Running,
    AllDone,
    OutAt(u32),
}

/// A client for a dump. Contracts see where it stands in a trace: for how many chunks, how patient, and in which state.
#[derive(Drop)]
pub struct Client {
    chunks: u32,
    limits: Limits,
    // The session's port, once it is known.
    session: Option<u16>,
    // Which batch, counted from 0.
    batch: u32,
    // Its numbers that weren't acknowledged, and those that the round still has to send.
    unacknowledged: Marks,
    unsent: Marks,
    // How many polls the round still has, and how many rounds the batch has after it.
    polls: u32,
    rounds: u32,
    ending: Ending,
}

impl Model for Client {
    ghost use Rattle.std.specs.Prelude.{◌+◌, ◌/◌, ◌≤◌, ◌^◌, drop};
    ghost use Rattle.fd_netclient.specs.Client.{patience_of, state_by};
    ghost use Rattle.fd_netclient.specs.Datagram.{batches};
    ghost use Rattle.fd_netclient.specs.Machine.{Standing};

    ghost Value = { Standing };

    ghost view = { λ c. record {
      count = c.chunks;
      patience = patience_of c.limits;
      state = state_by c.ending c.session c.unsent c.unacknowledged c.polls c.rounds (drop (c.batch + 1) (batches c.chunks));
    } };

    ghost invariant = { λ c. (c.chunks ≤ 2 ^ 30) × (c.batch ≤ c.chunks / 64 + 4) };
}

impl Client {
    /// A client that has done nothing, for a dump of so many chunks of 4096 bytes.
    pub fn new(chunks: u32, limits: Limits) -> Client
        requires some { 1 ≤ chunks }
        requires fits { chunks ≤ 2 ^ 30 }
        requires patient { IsPatient limits }
        ensures { result ≡ record { count = chunks; patience = patience_of limits; state = start (patience_of limits) chunks } }
    {
        Client {
            chunks,
            limits,
            session: None,
            batch: 0,
            unacknowledged: Marks::all(1, 1),
            unsent: Marks::all(1, 1),
            polls: limits.polls,
            rounds: limits.retries,
            ending: Ending::Running,
        }
    }

    /// What the client wants.
    pub fn want(&self) -> Want
        ensures { result ≡ want_of self.now.state }
    {
        match self.ending {
            Ending::AllDone => Want::Done,
            Ending::OutAt(number) => Want::TimedOut(number),
            Ending::Running => match self.unsent.least() {
                Some(number) => Want::Send(number),
                None => Want::Poll,
            },
        }
    }

    /// The server's port that the next datagram goes to: the herald's, 20023, or the session's, from which the herald was
    /// acknowledged.
    pub fn port(&self) -> u16
        ensures { result ≡ port_of self.now.state }
    {
        self.session.unwrap_or(20023)
    }

    /// The datagram that was wanted was sent.
    pub fn sent(&mut self)
        requires { IsSend (want_of self.old.state) }
        ensures { self.new ≡ record self.old { state = on_sent self.old.state } }
    {
        self.unsent.remove_least();
    }

    /// A poll, which was wanted, brought a datagram from this port of the server.
    pub fn got(&mut self, port: u16, bytes: &[u8])
        requires { want_of self.old.state ≡ want.Poll }
        ensures { self.new ≡ record self.old { state = on_poll self.old.patience (Got port bytes.now) self.old.state } }
    {
        if let Some(number) = acknowledged_by(self.session, port, bytes) {
            self.unacknowledged.remove(number);
        }
        self.session = session_after(self.session, port, bytes);
        self.polls = self.polls.saturating_sub(1);
        self.settle();
    }

    /// A poll, which was wanted, brought nothing.
    pub fn silent(&mut self)
        requires { want_of self.old.state ≡ want.Poll }
        ensures { self.new ≡ record self.old { state = on_poll self.old.patience Silent self.old.state } }
    {
        self.polls = self.polls.saturating_sub(1);
        self.settle();
    }

    // What comes after a poll: a further poll, a round, a batch, or an end.
    fn settle(&mut self)
        ensures { self.new ≡ record self.old { state = settled self.old.patience self.old.state } }
    {
        if !matches!(self.ending, Ending::Running) {
            return;
        }
        match self.unacknowledged.least() {
            None => self.begin_batch(),
            Some(least) => {
                if self.polls == 0 {
                    self.begin_round(least);
                } else {
                    self.unsent = Marks::none();
                }
            }
        }
    }

    fn begin_batch(&mut self)
        requires { HasAll self.old.state }
        ensures { self.new ≡ record self.old { state = settled self.old.patience self.old.state } }
    {
        match batch_at(self.chunks, self.batch + 1) {
            None => self.ending = Ending::AllDone,
            Some(next) => {
                self.batch += 1;
                self.unsent = next.copied();
                self.unacknowledged = next;
                self.polls = self.limits.polls;
                self.rounds = self.limits.retries;
            }
        }
    }

    fn begin_round(&mut self, least: u32)
        requires { IsOver least self.old.state }
        ensures { self.new ≡ record self.old { state = settled self.old.patience self.old.state } }
    {
        if self.rounds == 0 {
            self.ending = Ending::OutAt(least);
            return;
        }
        self.rounds -= 1;
        self.unsent = self.unacknowledged.copied();
        self.polls = self.limits.polls;
    }
}
