//! The set of numbers.

ghost use Rattle.std.specs.Prelude.{◌≡◌, ◌+◌, ◌≤◌, ◌^◌, ◌↔◌, ◌||◌, ℕ, IsOk, IsTrue, OnErr, OnOk, true};
ghost use Rattle.fd_cover.specs.Intervals.{IsBeside, IsNone, IsWhole, has, is_between};

use crate::interval::{Interval, add_interval};
use std::alloc::{AllocError, Global};
use std::marker::Model;

/// A set of numbers. Contracts see which numbers it has.
#[derive(Drop)]
pub struct Cover {
    intervals: Vec<Interval>,
}

impl Model for Cover {
    ghost use Rattle.std.specs.Prelude.{List};
    ghost use Rattle.fd_cover.specs.declared.interval.Interval.{Interval};
    ghost use Rattle.fd_cover.specs.Intervals.{AreRising};

    ghost Value = { List Interval };

    ghost view = { λ cover. cover.intervals.items };

    ghost invariant = { λ cover. AreRising 0 cover.intervals.items };
}

impl Cover {
    /// No number. Takes no memory.
    pub fn new(alloc: Global) -> Cover
        ensures { IsNone (has result) }
    {
        Cover {
            intervals: Vec::new(alloc),
        }
    }

    /// Adds the numbers from `from` on, `len` of them. Takes no memory where there is none, or where the set has a number
    /// that is one of them or is next to one. Where no memory is found nothing is changed.
    pub fn add(&mut self, from: u64, len: u64) -> Result<(), AllocError>
        requires { from + len ≤ 2 ^ 40 }
        ensures ok { OnOk result ((i : ℕ) → has self.new i ≡ (is_between from (from + len) i || has self.old i)) }
        ensures err { OnErr result (self.new ≡ self.old) }
        ensures none { len ≡ 0 → (self.new ≡ self.old) × IsOk result }
        ensures beside { (i : ℕ) → IsBeside from (from + len) i → has self.old i ≡ true → IsOk result }
    {
        if len == 0 {
            return Ok(());
        }
        let to = from + len;
        add_interval(&mut self.intervals, Interval { from, to })
    }

    /// Whether the numbers are just those below `len`.
    pub fn whole(&self, len: u64) -> bool
        ensures { IsTrue result ↔ IsWhole (has self.now) len }
    {
        match self.intervals.as_slice() {
            [] => len == 0,
            [all] => all.from == 0 && all.to == len,
            _ => false,
        }
    }

    /// Whether there is no number.
    pub fn is_empty(&self) -> bool
        ensures { IsTrue result ↔ IsNone (has self.now) }
    {
        self.intervals.as_slice().is_empty()
    }
}
