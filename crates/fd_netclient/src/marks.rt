//! Numbers of a batch that are marked: one bit each, in one word.

ghost use Rattle.std.specs.Prelude.{◌≡◌, ◌+◌, ◌^◌, ◌≤◌, [], Some, drop, slice_get};
ghost use Rattle.fd_netclient.specs.Datagram.{numbers};
ghost use Rattle.fd_netclient.specs.Trace.{without};

use std::marker::Model;

/// Up to 64 numbers that are marked. Contracts see their list, which rises.
#[derive(Drop)]
pub(crate) struct Marks {
    first: u32,
    // Bit i is that of the number `first + i`.
    bits: u64,
}

impl Model for Marks {
    ghost use Rattle.std.specs.Prelude.{ℕ, ◌+◌, ◌^◌, ◌≤◌, List};
    ghost use Rattle.fd_netclient.specs.Marks.{marked};

    ghost Value = { List ℕ };

    ghost view = { λ marks. marked marks.first marks.bits };

    ghost invariant = { λ marks. marks.first + 64 ≤ 2 ^ 32 };
}

impl Marks {
    // The numbers from one on, so many, all marked.
    pub fn all(first: u32, count: u32) -> Marks
        requires some { 1 ≤ count }
        requires few { count ≤ 64 }
        requires fits { first + 64 ≤ 2 ^ 32 }
        ensures { result ≡ numbers first count }
    {
        Marks {
            first,
            bits: u64::MAX >> (64 - count),
        }
    }

    // No number.
    pub fn none() -> Marks
        ensures { result ≡ [] }
    {
        Marks { first: 0, bits: 0 }
    }

    // The same numbers.
    pub fn copied(&self) -> Marks
        ensures { result ≡ self.now }
    {
        Marks {
            first: self.first,
            bits: self.bits,
        }
    }

    // The least number.
    pub fn least(&self) -> Option<u32>
        ensures { result ≡ slice_get self.now 0 }
    {
        if self.bits == 0 {
            return None;
        }
        Some(self.first + self.bits.trailing_zeros())
    }

    // Takes a number out, if it is marked.
    pub fn remove(&mut self, number: u32)
        ensures { self.new ≡ without (Some number) self.old }
    {
        if number < self.first || number - self.first >= 64 {
            return;
        }
        self.bits &= !(1 << (number - self.first));
    }

    // Takes the least number out, if there is one.
    pub fn remove_least(&mut self)
        ensures { self.new ≡ drop 1 self.old }
    {
        if self.bits != 0 {
            self.bits &= !(1 << self.bits.trailing_zeros());
        }
    }
}
