//! A leaf of a range.

/// The part of a leaf in a range: `size` bytes from the virtual address `va` on are mapped to the
/// physical address `pa`; `bits` is the leaf's entry.
#[derive(Clone, Copy, Debug, PartialEq, Eq)]
pub struct Leaf {
    pub va: u64,
    pub pa: u64,
    pub size: u64,
    pub bits: u64,
}
