//! The ports of a server in memory.

ghost use Rattle.std.specs.Prelude.{◌≡◌, ◌≤◌, [], All, IfOk, OnOk, OnErr, IsErr};
ghost use Rattle.fd_site.specs.Fault.{Rose};
ghost use Rattle.fd_site.specs.Trace.{Answered, IsTaken, Listening, NoneTaken, SlotOpened, taken_event};
ghost use Rattle.fd_fake.specs.Calls.{IsDue, no_calls};
ghost use Rattle.fd_fake.specs.MemPorts.{HasSlot, events, script_of};
ghost use Rattle.fd_fake.specs.Played.{IsFailed, after_event, after_look, next_of, seen_of};

use crate::calls::Calls;
use crate::ports_event::PortsEvent;
use fd_site::{Failed, Peer, Ports, Taken};
use std::alloc::Global;
use std::collections::VecDeque;
use std::marker::Model;

/// What a look at the ports brings: nothing, or a peer's datagram at a slot.
#[derive(Drop)]
pub enum Input {
    Silent,
    Datagram {
        slot: u16,
        peer: Peer,
        bytes: Vec<u8>,
    },
}

/// The ports of a server in memory that play a script: each look brings its next input, and nothing after its end. They
/// tell all that was asked of them.
#[derive(Drop)]
pub struct MemPorts {
    script: VecDeque<Input>,
    trace: Vec<PortsEvent>,
    calls: Calls,
}

impl Model for MemPorts {
    ghost use Rattle.std.specs.Prelude.{All};
    ghost use Rattle.fd_site.specs.Trace.{PortsEvent};
    ghost use Rattle.fd_fake.specs.MemPorts.{HasSlot, events, script_of};
    ghost use Rattle.fd_fake.specs.Played.{Played};

    ghost Value = { Played PortsEvent };

    ghost view = { λ p. record { script = script_of p.script.items; told = events p.trace.items; calls = p.calls } };

    ghost invariant = { λ p. All HasSlot p.script.items };
}

impl MemPorts {
    /// Ports of which nothing was asked. Their calls are numbered from 1; those whose number is in `fails` fail, add
    /// nothing and leave the script where it was.
    pub fn new(alloc: Global, script: Vec<Input>, fails: Vec<u64>) -> MemPorts
        requires { All HasSlot script.items }
        ensures { result ≡ record { script = script_of script.items; told = []; calls = no_calls fails.items } }
    {
        MemPorts {
            script: VecDeque::from_vec(script),
            trace: Vec::new(alloc),
            calls: Calls::new(fails),
        }
    }

    /// What was asked of them, in order.
    pub fn trace(&self) -> &[PortsEvent]
        ensures { events result.now ≡ self.now.told }
    {
        &self.trace
    }

    /// How many calls have failed for want of memory.
    pub fn starved(&self) -> u64
        ensures { result ≡ self.now.calls.starved }
    {
        self.calls.starved()
    }
}

impl Ports for MemPorts {
    ghost seen = { λ p. seen_of p };

    fn listen(&mut self) -> Result<(), Failed>
        ensures ok { OnOk result (self.new ≡ after_event self.old Listening) }
        ensures err { OnErr result (IsFailed self.old self.new) }
        ensures due { IsDue self.old.calls → IsErr result }
        ensures count { self.old.calls.faults ≤ self.new.calls.faults }
        ensures cause { OnErr result (Rose self.old.calls.faults self.new.calls.faults) }
    {
        self.calls.begin()?;
        let found = self.trace.push(PortsEvent::Listening).is_ok();
        self.calls.end(found)
    }

    fn take(&mut self, out: &mut [u8; 8192]) -> Result<Taken, Failed>
        ensures ok { OnOk result (self.new ≡ after_look NoneTaken self.old) }
        ensures brought { IfOk result (λ taken. taken_event taken out.new ≡ next_of NoneTaken self.old.script) }
        ensures within { IfOk result IsTaken }
        ensures err { OnErr result (IsFailed self.old self.new) }
        ensures due { IsDue self.old.calls → IsErr result }
        ensures count { self.old.calls.faults ≤ self.new.calls.faults }
        ensures cause { OnErr result (Rose self.old.calls.faults self.new.calls.faults) }
    {
        self.calls.begin()?;
        if self.trace.reserve(1).is_err() {
            return Err(self.calls.starve());
        }
        match self.script.pop_front() {
            Some(
                Input::Datagram {
                    slot,
                    peer,
                    mut bytes,
                },
            ) => {
                bytes.truncate(8192);
                let len = bytes.len();
                out[..len].copy_from_slice(&bytes);
                let _ = self.trace.push(PortsEvent::Taken { slot, peer, bytes });
                Ok(Taken::Got { slot, peer, len })
            }
            _ => {
                let _ = self.trace.push(PortsEvent::NoneTaken);
                Ok(Taken::Silent)
            }
        }
    }

    fn open_slot(&mut self, slot: u16) -> Result<(), Failed>
        ensures ok { OnOk result (self.new ≡ after_event self.old (SlotOpened slot)) }
        ensures err { OnErr result (IsFailed self.old self.new) }
        ensures due { IsDue self.old.calls → IsErr result }
        ensures count { self.old.calls.faults ≤ self.new.calls.faults }
        ensures cause { OnErr result (Rose self.old.calls.faults self.new.calls.faults) }
    {
        self.calls.begin()?;
        let found = self.trace.push(PortsEvent::SlotOpened { slot }).is_ok();
        self.calls.end(found)
    }

    fn answer(&mut self, slot: u16, peer: Peer, bytes: &[u8; 4]) -> Result<(), Failed>
        ensures ok { OnOk result (self.new ≡ after_event self.old (Answered slot peer bytes.now)) }
        ensures err { OnErr result (IsFailed self.old self.new) }
        ensures due { IsDue self.old.calls → IsErr result }
        ensures count { self.old.calls.faults ≤ self.new.calls.faults }
        ensures cause { OnErr result (Rose self.old.calls.faults self.new.calls.faults) }
    {
        self.calls.begin()?;
        let answered = PortsEvent::Answered {
            slot,
            peer,
            bytes: *bytes,
        };
        let found = self.trace.push(answered).is_ok();
        self.calls.end(found)
    }
}
