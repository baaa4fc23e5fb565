//! The block behind a region: bytes that are written, and room for more after them. The five functions with a
//! raw pointer are here.
ghost use Rattle.std.specs.Prelude.{◌≡◌, ℕ, ◌+◌, ◌^◌, ◌<◌, ◌≤◌, List, [], ◌∷◌, ◌++◌, length, slice_range, IfOk};
ghost use Rattle.std.specs.Borrow.{sem};
ghost use Rattle.std.specs.declared.alloc.Global.{Global as Heap};
ghost use Rattle.fd_raw.specs.Ownership.{cells_own, cells_lent};

use std::alloc::{AllocError, Allocator, Global};
use std::marker::Model;
use std::slice;

/// The owner of a block: its first bytes are written, and there is room for `room` more.
pub(crate) struct Cells {
    ptr: *mut u8,
    ghost bytes: { List ℕ },
    ghost room: { ℕ },
    ghost alloc: { Heap },
}

impl Model for Cells {
    ghost also_owns = { λ c. cells_own c.alloc c.ptr c.bytes c.room };

    ghost also_shares = { λ c _ κ. cells_lent c.ptr c.bytes c.room κ };
}

/// A block with room for `len` bytes, none of them written.
pub(crate) fn allocate(alloc: &Global, len: usize) -> Result<Cells, AllocError>
    requires { len < 2 ^ 63 }
    ensures { IfOk result (λ cells. (cells.bytes ≡ []) × (cells.room ≡ len) × (cells.alloc ≡ alloc.now)) }
{
    match alloc.allocate(len, 1) {
        Ok(ptr) => Ok(Cells { ptr }),
        Err(error) => Err(error),
    }
}

/// Gives the block of `len` bytes back, written or not.
pub(crate) fn deallocate(alloc: &Global, len: usize, cells: Cells)
    requires { (length cells.bytes + cells.room ≡ len) × (cells.alloc ≡ alloc.now) }
{
    let Cells { ptr } = cells;
    unsafe { alloc.deallocate(ptr, len, 1) };
}

impl Cells {
    ghost use Rattle.fd_raw.specs.Lends.{lends_bytes};

    /// Writes one byte behind the `len` that are written.
    pub(crate) fn push(&mut self, len: usize, byte: u8)
        requires { (len ≡ length self.old.bytes) × (0 < self.old.room) }
        ensures { (self.new.bytes ≡ self.old.bytes ++ byte ∷ []) × (self.new.room + 1 ≡ self.old.room) × (self.new.alloc ≡ self.old.alloc) }
    {
        unsafe { *self.ptr.add(len) = byte };
    }

    /// The `len` bytes that are written.
    pub(crate) fn bytes(&self, len: usize) -> &[u8]
        requires { len ≡ length self.now.bytes }
        ensures { result.now ≡ self.now.bytes }
    {
        unsafe { slice::from_raw_parts(self.ptr, len) }
    }

    /// The `len` bytes from the index `at` on, to write to.
    pub(crate) fn part_mut(&mut self, at: usize, len: usize) -> &mut [u8]
        requires { at + len ≤ length self.old.bytes }
        ensures* writes_back { sem 𝓛 (lends_bytes self.entry at len result) }
        ensures value { result.now ≡ slice_range self.old.bytes at (at + len) }
    {
        unsafe { slice::from_raw_parts_mut(self.ptr.add(at), len) }
    }
}
