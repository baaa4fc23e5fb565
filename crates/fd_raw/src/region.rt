//! A block of memory, seen as a list of bytes.
ghost use Rattle.std.specs.Prelude.{◌≡◌, ◌+◌, ◌%◌, ◌^◌, ◌<◌, ◌≤◌, length, replicate, slice_range, IfOk};
ghost use Rattle.std.specs.Borrow.{sem};
ghost use Rattle.std.specs.Int.{from_le_bytes};
ghost use mir.Syntax.{w64};

use crate::filling::Filling;
use std::alloc::{AllocError, Global};
use std::marker::Model;

/// A block of memory, freed when it is dropped.
#[derive(Drop)]
pub struct Region {
    filling: Filling,
}

impl Model for Region {
    ghost use Rattle.std.specs.Prelude.{ℕ, List};

    ghost Value = { List ℕ };

    ghost view = { λ region. region.filling.bytes };
}

impl Region {
    ghost use Rattle.fd_raw.specs.RegionLends.{lends_view};

    /// `len` bytes of zero. `Err` where there is not as much memory.
    pub fn new(alloc: Global, len: usize) -> Result<Self, AllocError>
        ensures { IfOk result (λ region. region ≡ replicate len 0) }
    {
        let mut filling = Filling::with_room(alloc, len)?;
        filling.grow_by_zeros(len);
        Ok(Region { filling })
    }

    /// The bytes of `filling`, as they are. Its further room stays empty.
    pub fn of(filling: Filling) -> Self
        ensures { result ≡ filling.bytes }
    {
        Region { filling }
    }

    /// How many bytes there are.
    pub fn len(&self) -> usize
        ensures value { result ≡ length self.now }
        ensures small { result < 2 ^ 63 }
    {
        self.filling.len()
    }

    /// The `len` bytes from the index `at` on.
    pub fn view(&self, at: usize, len: usize) -> &[u8]
        requires { at + len ≤ length self.now }
        ensures { result.now ≡ slice_range self.now at (at + len) }
    {
        self.filling.view(at, len)
    }

    /// The `len` bytes from the index `at` on, to write to. No other byte changes.
    pub fn view_mut(&mut self, at: usize, len: usize) -> &mut [u8]
        requires { at + len ≤ length self.old }
        ensures* writes_back { sem 𝓛 (lends_view self.entry at len result) }
        ensures value { result.now ≡ slice_range self.old at (at + len) }
    {
        self.filling.view_mut(at, len)
    }

    /// The number of the eight bytes from the index `at` on, the lowest byte first.
    pub fn word(&self, at: usize) -> u64
        requires { (at % 8 ≡ 0) × (at + 8 ≤ length self.now) }
        ensures { result ≡ from_le_bytes w64 (slice_range self.now at (at + 8)) }
    {
        u64::from_le_bytes(*self.view(at, 8).first_chunk::<8>().unwrap())
    }
}
