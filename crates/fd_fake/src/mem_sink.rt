//! Printed text in memory.

ghost use Rattle.std.specs.Prelude.{◌≡◌, ◌≤◌, ◌++◌, [], true, Some, OnOk, OnErr, IsErr};
ghost use Rattle.fd_site.specs.Fault.{Rose};
ghost use Rattle.fd_fake.specs.Calls.{IsDue, IsFailedCall, after_call, no_calls};
ghost use Rattle.fd_fake.specs.MemSink.{seen_of};

use crate::calls::Calls;
use fd_site::{Failed, Sink};
use std::alloc::Global;
use std::marker::Model;

/// Printed text in memory.
#[derive(Drop)]
pub struct MemSink {
    bytes: Vec<u8>,
    calls: Calls,
}

impl Model for MemSink {
    ghost use Rattle.fd_fake.specs.MemSink.{TextInMemory};

    ghost Value = { TextInMemory };

    ghost view = { λ s. record { bytes = s.bytes.items; calls = s.calls } };
}

impl MemSink {
    /// An empty sink. Its calls are numbered from 1; those whose number is in `fails` fail, and add nothing.
    pub fn new(alloc: Global, fails: Vec<u64>) -> MemSink
        ensures { result ≡ record { bytes = []; calls = no_calls fails.items } }
    {
        MemSink {
            bytes: Vec::new(alloc),
            calls: Calls::new(fails),
        }
    }

    pub fn bytes(&self) -> &[u8]
        ensures { result.now ≡ self.now.bytes }
    {
        &self.bytes
    }

    /// Makes the next call fail.
    pub fn fail_next(&mut self)
        ensures { self.new ≡ record self.old { calls = record self.old.calls { next = true } } }
    {
        self.calls.fail_next();
    }

    /// How many calls have failed for want of memory.
    pub fn starved(&self) -> u64
        ensures { result ≡ self.now.calls.starved }
    {
        self.calls.starved()
    }
}

impl Sink for MemSink {
    ghost seen = { λ s. seen_of s };

    fn put(&mut self, bytes: &[u8]) -> Result<(), Failed>
        ensures ok { OnOk result (self.new.bytes ≡ self.old.bytes ++ bytes.now) }
        ensures err { OnErr result (self.new.bytes ≡ self.old.bytes) }
        ensures due { IsDue self.old.calls → IsErr result }
        ensures ok_calls { OnOk result (self.new.calls ≡ after_call self.old.calls) }
        ensures err_calls { OnErr result (IsFailedCall self.old.calls self.new.calls) }
        ensures count { self.old.calls.faults ≤ self.new.calls.faults }
        ensures cause { OnErr result (Rose self.old.calls.faults self.new.calls.faults) }
    {
        self.calls.begin()?;
        let found = self.bytes.extend_from_slice(bytes).is_ok();
        self.calls.end(found)
    }
}
