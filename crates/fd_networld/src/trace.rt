//! What the client of a world did.

ghost use Rattle.std.specs.Prelude.{◌≡◌, ◌++◌, ◌∷◌, [], OnOk, OnErr, MatchOption, None, Some, slice_get};
ghost use Rattle.fd_fake.specs.MemLink.{event, events};
ghost use Rattle.fd_networld.specs.Sent.{sent_in};

use fd_fake::LinkEvent;
use std::alloc::{AllocError, Global};
use std::marker::Model;

/// What a client sent, got and found silent, in order.
#[derive(Drop)]
pub struct Trace {
    items: Vec<LinkEvent>,
}

impl Model for Trace {
    ghost use Rattle.std.specs.Prelude.{List};
    ghost use Rattle.fd_site.specs.Trace.{LinkEvent};
    ghost use Rattle.fd_fake.specs.MemLink.{events};

    ghost Value = { List LinkEvent };

    ghost view = { λ t. events t.items.items };
}

impl Trace {
    /// Nothing was done.
    pub(crate) fn new(alloc: Global) -> Trace
        ensures { result ≡ [] }
    {
        Trace {
            items: Vec::new(alloc),
        }
    }

    /// What was done, in order.
    pub fn events(&self) -> &[LinkEvent]
        ensures { events result.now ≡ self.now }
    {
        &self.items
    }

    /// Notes an event.
    pub(crate) fn note(&mut self, it: LinkEvent) -> Result<(), AllocError>
        ensures ok { OnOk result (self.new ≡ self.old ++ event it ∷ []) }
    {
        self.items.push(it)?;
        Ok(())
    }

    /// The `nth` datagram that was sent, counted from 0.
    pub(crate) fn sent(&self, nth: u64) -> Option<&[u8]>
        ensures { MatchOption result (slice_get (sent_in self.now) nth ≡ None) (λ bytes. slice_get (sent_in self.now) nth ≡ Some bytes.now) }
    {
        let mut left = nth;
        let mut rest = self.items.as_slice();
        while let [first, after @ ..] = rest {
            if let LinkEvent::Sent { bytes, .. } = first {
                if left == 0 {
                    return Some(bytes);
                }
                left -= 1;
            }
            rest = after;
        }
        None
    }
}
