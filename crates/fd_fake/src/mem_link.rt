//! A link in memory.

ghost use Rattle.std.specs.Prelude.{◌≡◌, ◌≤◌, [], IfOk, OnOk, OnErr, IsErr};
ghost use Rattle.fd_site.specs.Fault.{Rose};
ghost use Rattle.fd_site.specs.Trace.{IsPolled, Opening, Sent, Silent, polled_event};
ghost use Rattle.fd_fake.specs.Calls.{IsDue, no_calls};
ghost use Rattle.fd_fake.specs.MemLink.{events, script_of};
ghost use Rattle.fd_fake.specs.Played.{IsFailed, after_event, after_look, next_of, seen_of};

use crate::calls::Calls;
use crate::link_event::LinkEvent;
use fd_site::{Failed, Link, Polled};
use std::alloc::Global;
use std::collections::VecDeque;
use std::marker::Model;

/// What a poll brings: nothing, or a datagram from a port of the server.
#[derive(Drop)]
pub enum Answer {
    Silent,
    Datagram { port: u16, bytes: Vec<u8> },
}

/// A link in memory that plays a script: each poll brings its next answer, and nothing after its end. It tells all that
/// was asked of it.
#[derive(Drop)]
pub struct MemLink {
    alloc: Global,
    script: VecDeque<Answer>,
    trace: Vec<LinkEvent>,
    calls: Calls,
}

impl Model for MemLink {
    ghost use Rattle.fd_site.specs.Trace.{LinkEvent};
    ghost use Rattle.fd_fake.specs.MemLink.{events, script_of};
    ghost use Rattle.fd_fake.specs.Played.{Played};

    ghost Value = { Played LinkEvent };

    ghost view = { λ l. record { script = script_of l.script.items; told = events l.trace.items; calls = l.calls } };
}

impl MemLink {
    /// A link of which nothing was asked. Its calls are numbered from 1; those whose number is in `fails` fail, add
    /// nothing and leave the script where it was.
    pub fn new(alloc: Global, script: Vec<Answer>, fails: Vec<u64>) -> MemLink
        ensures { result ≡ record { script = script_of script.items; told = []; calls = no_calls fails.items } }
    {
        MemLink {
            alloc,
            script: VecDeque::from_vec(script),
            trace: Vec::new(alloc),
            calls: Calls::new(fails),
        }
    }

    /// What was asked of it, in order.
    pub fn trace(&self) -> &[LinkEvent]
        ensures { events result.now ≡ self.now.told }
    {
        &self.trace
    }

    /// How many calls have failed for want of memory.
    pub fn starved(&self) -> u64
        ensures { result ≡ self.now.calls.starved }
    {
        self.calls.starved()
    }
}

impl Link for MemLink {
    ghost seen = { λ l. seen_of l };

    fn open(&mut self, server: u32) -> Result<(), Failed>
        ensures ok { OnOk result (self.new ≡ after_event self.old (Opening server)) }
        ensures err { OnErr result (IsFailed self.old self.new) }
        ensures due { IsDue self.old.calls → IsErr result }
        ensures count { self.old.calls.faults ≤ self.new.calls.faults }
        ensures cause { OnErr result (Rose self.old.calls.faults self.new.calls.faults) }
    {
        self.calls.begin()?;
        let found = self.trace.push(LinkEvent::Opening { server }).is_ok();
        self.calls.end(found)
    }

    fn send(&mut self, port: u16, bytes: &[u8]) -> Result<(), Failed>
        ensures ok { OnOk result (self.new ≡ after_event self.old (Sent port bytes.now)) }
        ensures err { OnErr result (IsFailed self.old self.new) }
        ensures due { IsDue self.old.calls → IsErr result }
        ensures count { self.old.calls.faults ≤ self.new.calls.faults }
        ensures cause { OnErr result (Rose self.old.calls.faults self.new.calls.faults) }
    {
        self.calls.begin()?;
        let found = match bytes.to_vec(self.alloc) {
            Ok(bytes) => self.trace.push(LinkEvent::Sent { port, bytes }).is_ok(),
            Err(_) => false,
        };
        self.calls.end(found)
    }

    fn poll(&mut self, out: &mut [u8; 64]) -> Result<Polled, Failed>
        ensures ok { OnOk result (self.new ≡ after_look Silent self.old) }
        ensures brought { IfOk result (λ polled. polled_event polled out.new ≡ next_of Silent self.old.script) }
        ensures within { IfOk result IsPolled }
        ensures err { OnErr result (IsFailed self.old self.new) }
        ensures due { IsDue self.old.calls → IsErr result }
        ensures count { self.old.calls.faults ≤ self.new.calls.faults }
        ensures cause { OnErr result (Rose self.old.calls.faults self.new.calls.faults) }
    {
        self.calls.begin()?;
        if self.trace.reserve(1).is_err() {
            return Err(self.calls.starve());
        }
        match self.script.pop_front() {
            Some(Answer::Datagram { port, mut bytes }) => {
                bytes.truncate(64);
                let len = bytes.len();
                out[..len].copy_from_slice(&bytes);
                let _ = self.trace.push(LinkEvent::Got { port, bytes });
                Ok(Polled::Got { port, len })
            }
            _ => {
                let _ = self.trace.push(LinkEvent::Silent);
                Ok(Polled::Silent)
            }
        }
    }
}
