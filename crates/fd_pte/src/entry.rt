//! Entries of page tables, whatever the architecture.
ghost use Rattle.std.specs.Prelude.{◌≡◌, ℕ, ◌+◌, ◌*◌, ◌^◌, ◌<◌, ◌≤◌};

/// What an entry stands for. Addresses are physical, in bytes.
#[derive(Clone, Copy, Debug, PartialEq, Eq)]
pub enum Kind {
    /// Nothing is mapped; so is a reserved or malformed entry.
    Absent,
    /// The table of 512 entries of eight bytes, one height below, at this address.
    Table(u64),
    /// The memory from this address on, as much as the entry's height maps.
    Leaf(u64),
}

/// The page table entries of an architecture.
///
/// The height of an entry is the number of tables below it: an entry of height 0 maps 4 KiB, one of
/// height 1 2 MiB, one of height 2 1 GiB, and one of height 3 512 GiB.
pub trait Entry {
    ghost use Rattle.fd_pte.specs.declared.entry.Kind.{Kind};
    ghost use Rattle.fd_pte.specs.declared.entry.Kind.TheVariants.{Leaf};
    ghost use Rattle.fd_pte.specs.Entry.{bytes_under, units_under, IsLeaf, IsPlaced, IsExpanded};

    /// The height of the entries of a minidump's page directory.
    const DIRECTORY_HEIGHT: u32;

    ghost DIRECTORY_HEIGHT: { ℕ };

    /// The kind of an entry's bits at a height.
    ghost kind_of: { ℕ → ℕ → Kind };

    /// The entry of directory height for one unit of a larger leaf: its bits, its height, the index.
    ghost expansion: { ℕ → ℕ → ℕ → ℕ };

    /// The accesses that an entry's bits allow.
    ghost protection: { ℕ → ℕ };

    /// What the bits stand for in a table of this height, from 0 to 3.
    fn kind(bits: u64, height: u32) -> Kind
        requires { height ≤ 3 }
        ensures { result ≡ kind_of bits height };

    /// The entry of directory height for the `index`-th unit of a larger leaf.
    fn expand(bits: u64, height: u32, index: u64) -> u64
        requires leaf { IsLeaf (kind_of bits height) }
        requires larger { DIRECTORY_HEIGHT < height }
        requires height { height ≤ 3 }
        requires index { index < units_under DIRECTORY_HEIGHT height }
        ensures { result ≡ expansion bits height index };

    /// The accesses that a leaf allows: 1 for reading, 2 for writing, 4 for executing, added up.
    fn prot(bits: u64) -> u8
        ensures { result ≡ protection bits };

    /// Directories have entries of the two lowest heights.
    ghost directory_is_low: { DIRECTORY_HEIGHT ≤ 1 };

    /// A table stands at a page and is named above height 0 alone; a leaf begins at a multiple of its size.
    ghost placed: { (bits height : ℕ) → bits < 2 ^ 64 → height ≤ 3 → IsPlaced height (kind_of bits height) };

    /// An expanded entry is a leaf at the large leaf's address and as many units on as its index, and
    /// allows what the large leaf allows.
    ghost expanded: { (bits height index address : ℕ) → bits < 2 ^ 64 → height ≤ 3
        → DIRECTORY_HEIGHT < height → index < units_under DIRECTORY_HEIGHT height → kind_of bits height ≡ Leaf address
        → let start = address + index * bytes_under DIRECTORY_HEIGHT in
        IsExpanded kind_of protection DIRECTORY_HEIGHT bits start (expansion bits height index) };
}
