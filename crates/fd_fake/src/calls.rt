//! The calls of an object in memory that can fail.

ghost use Rattle.std.specs.Prelude.{◌≡◌, ◌≤◌, ◌↔◌, true, IsErr, IsOk, IsTrue, OnErr, OnOk};
ghost use Rattle.fd_fake.specs.Calls.{IsDue, after_call, after_fault, no_calls, risen};

use fd_site::Failed;
use std::marker::Model;

/// The calls of an object in memory that can fail, numbered from 1, and which of them do.
#[derive(Drop)]
pub struct Calls {
    fails: Vec<u64>,
    made: u64,
    next: bool,
    faults: u64,
    starved: u64,
}

impl Model for Calls {
    ghost use Rattle.fd_fake.specs.Calls.{CallCount};

    ghost Value = { CallCount };

    ghost view = { λ c. record { fails = c.fails.items; made = c.made; next = c.next; faults = c.faults; starved = c.starved } };
}

// One more, up to the end of 64 bits.
fn risen_count(count: u64) -> u64
    ensures { result ≡ risen count }
{
    count.saturating_add(1)
}

impl Calls {
    pub fn new(fails: Vec<u64>) -> Calls
        ensures { result ≡ no_calls fails.items }
    {
        Calls {
            fails,
            made: 0,
            next: false,
            faults: 0,
            starved: 0,
        }
    }

    /// Makes the next call fail.
    pub fn fail_next(&mut self)
        ensures { self.new ≡ record self.old { next = true } }
    {
        self.next = true;
    }

    /// Begins the next call, and fails it if it is one that fails.
    pub fn begin(&mut self) -> Result<(), Failed>
        ensures due { IsErr result ↔ IsDue self.old }
        ensures ok { OnOk result (self.new ≡ after_call self.old) }
        ensures err { OnErr result (self.new ≡ after_fault self.old) }
        ensures rising { self.old.faults ≤ self.new.faults }
    {
        self.made = risen_count(self.made);
        let due = self.next || self.fails.contains(&self.made);
        self.next = false;
        if due {
            self.faults = risen_count(self.faults);
            return Err(Failed);
        }
        Ok(())
    }

    /// Fails a call that found no memory.
    pub fn starve(&mut self) -> Failed
        ensures counted { self.new ≡ record self.old { faults = risen self.old.faults; starved = risen self.old.starved } }
        ensures rising { self.old.faults ≤ self.new.faults }
    {
        self.faults = risen_count(self.faults);
        self.starved = risen_count(self.starved);
        Failed
    }

    /// Ends a call that asked for memory, and fails it where it found none.
    pub fn end(&mut self, found: bool) -> Result<(), Failed>
        ensures found { IsOk result ↔ IsTrue found }
        ensures ok { OnOk result (self.new ≡ self.old) }
        ensures err { OnErr result (self.new ≡ record self.old { faults = risen self.old.faults; starved = risen self.old.starved }) }
        ensures rising { self.old.faults ≤ self.new.faults }
    {
        if found {
            return Ok(());
        }
        Err(self.starve())
    }

    /// How many calls were made.
    pub fn made(&self) -> u64
        ensures { result ≡ self.now.made }
    {
        self.made
    }

    /// How many calls have failed for want of memory.
    pub fn starved(&self) -> u64
        ensures { result ≡ self.now.starved }
    {
        self.starved
    }
}
