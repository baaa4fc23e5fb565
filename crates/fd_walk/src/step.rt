//! What a look-up finds.

/// What an address is mapped to. `table` is the address of the last-level table that the walk was
/// sent to, if it was sent to one, whether or not it lies in the memory.
#[derive(Clone, Copy, Debug, PartialEq, Eq)]
pub enum Step {
    /// No leaf maps the address.
    Absent {
        table: Option<u64>,
    },
    /// A leaf maps `size` bytes from the address `start` on to the physical address `pa`; `bits` is
    /// its entry.
    Leaf {
        start: u64,
        pa: u64,
        size: u64,
        bits: u64,
        table: Option<u64>,
    },
}
