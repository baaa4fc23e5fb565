//! A region in the making.
ghost use Rattle.std.specs.Prelude.{◌≡◌, ◌+◌, ◌^◌, ◌<◌, ◌≤◌, [], ◌++◌, length, replicate, slice_range, IfOk};
ghost use Rattle.std.specs.Borrow.{sem};
ghost use Rattle.fd_raw.specs.Filling.{filled};

use crate::cells::{Cells, allocate, deallocate};
use std::alloc::{AllocError, Global};
use std::marker::Model;

/// A region in the making: its bytes so far, and room for a number of bytes in all.
pub struct Filling {
    cells: Cells,
    len: usize,
    room: usize,
    alloc: Global,
}

impl Model for Filling {
    ghost use Rattle.std.specs.Prelude.{◌≡◌, ◌+◌, ◌^◌, ◌<◌, length};
    ghost use Rattle.fd_raw.specs.Filling.{Filled, filled, filled_code};

    ghost Value = { Filled };

    ghost coded = { filled_code };

    ghost view = { λ f. filled f.cells.bytes f.room };

    ghost invariant = { λ f. (f.len ≡ length f.cells.bytes) × (f.len + f.cells.room ≡ f.room) × (f.room < 2 ^ 63) × (f.cells.alloc ≡ f.alloc) };
}

impl Drop for Filling {
    fn drop(self) {
        let Filling {
            cells,
            len: _,
            room,
            alloc,
        } = self;
        deallocate(&alloc, room, cells);
    }
}

impl Filling {
    ghost use Rattle.fd_raw.specs.FillingLends.{lends_part};

    /// No byte yet, and room for `room` bytes. It takes all its memory here; `Err` where there is not as much.
    pub fn with_room(alloc: Global, room: usize) -> Result<Self, AllocError>
        ensures { IfOk result (λ f. f ≡ filled [] room) }
    {
        if room > isize::MAX as usize {
            return Err(AllocError);
        }
        let cells = allocate(&alloc, room)?;
        Ok(Filling {
            cells,
            len: 0,
            room,
            alloc,
        })
    }

    /// How many bytes there are so far.
    pub fn len(&self) -> usize
        ensures value { result ≡ length self.now.bytes }
        ensures within { (result ≤ self.now.room) × (self.now.room < 2 ^ 63) }
    {
        self.len
    }

    /// How many bytes there may be in all.
    pub fn room(&self) -> usize
        ensures value { result ≡ self.now.room }
        ensures within { (length self.now.bytes ≤ result) × (result < 2 ^ 63) }
    {
        self.room
    }

    /// Adds `count` bytes of zero behind the others. It takes no memory.
    pub fn grow_by_zeros(&mut self, count: usize)
        requires { length self.old.bytes + count ≤ self.old.room }
        ensures { self.new ≡ filled (self.old.bytes ++ replicate count 0) self.old.room }
    {
        let end = self.len + count;
        while self.len < end {
            self.cells.push(self.len, 0);
            self.len += 1;
        }
    }

    /// The `len` bytes from the index `at` on.
    pub fn view(&self, at: usize, len: usize) -> &[u8]
        requires { at + len ≤ length self.now.bytes }
        ensures { result.now ≡ slice_range self.now.bytes at (at + len) }
    {
        &self.cells.bytes(self.len)[at..at + len]
    }

    /// The `len` bytes from the index `at` on, to write to. No other byte changes, and the room stays.
    pub fn view_mut(&mut self, at: usize, len: usize) -> &mut [u8]
        requires { at + len ≤ length self.old.bytes }
        ensures* writes_back { sem 𝓛 (lends_part self.entry at len result) }
        ensures value { result.now ≡ slice_range self.old.bytes at (at + len) }
    {
        self.cells.part_mut(at, len)
    }
}
