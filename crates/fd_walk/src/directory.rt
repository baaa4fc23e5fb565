//! The page directory of a minidump.
ghost use Rattle.std.specs.Prelude.{◌≡◌, ◌≤◌, ℕ, ◌/◌, ◌%◌, ◌+◌, ◌*◌, ◌^◌, ◌++◌, take};
ghost use Rattle.std.specs.Int.{w64, to_le_bytes};
ghost use Rattle.fd_pte.specs.Entry.{bytes_under};
ghost use Rattle.fd_walk.specs.PageTables.{tables_of};
ghost use Rattle.fd_walk.specs.Descent.{IsReached};
ghost use Rattle.fd_walk.specs.Directory.{directory_form, directory_entry, directory_bytes};

use crate::address::{bytes_under, index_at};
use crate::walker::{Reached, Walker};
use fd_image::Memory;
use fd_pte::Entry;

impl<E: Entry, const LEVELS: usize> Walker<E, LEVELS> {
    /// Writes the `index`-th page of the directory of the addresses from `kernbase` on: 512 entries
    /// of directory height, eight bytes each, the lowest byte first. A larger leaf is written as an
    /// entry for each of its units; where nothing is mapped the entry is as it is in the tables, or 0.
    pub fn directory_page<M: Memory>(
        mem: &M,
        root: u64,
        kernbase: u64,
        index: u64,
        out: &mut [u8; 4096],
    )
        requires aligned { root % 4096 ≡ 0 }
        requires some_levels { 2 ≤ LEVELS }
        requires most_levels { LEVELS ≤ 4 }
        requires window { kernbase % (512 * bytes_under E.DIRECTORY_HEIGHT) ≡ 0 }
        requires end { kernbase + (index + 1) * (512 * bytes_under E.DIRECTORY_HEIGHT) ≤ 2 ^ 64 }
        ensures { let tables = tables_of (M.word_at mem.now) E.kind_of LEVELS root in
            let form = directory_form E.DIRECTORY_HEIGHT E.expansion in
            let first = kernbase + index * (512 * bytes_under E.DIRECTORY_HEIGHT) in
            out.new ≡ directory_bytes tables form first 512 }
    {
        let size = bytes_under(E::DIRECTORY_HEIGHT);
        let first = kernbase + index * (512 * size);
        // The entries of a page share the entry above them: the walk is the same for each.
        let reached = Self::descend(mem, root, first, E::DIRECTORY_HEIGHT);
        for unit in 0..512 {
            let entry = Self::directory_entry(mem, reached, first + unit * size);
            put_entry(out, 8 * unit as usize, entry);
        }
    }

    /// The directory's entry for the unit that begins at `va`, from where a walk ended for an address
    /// under the same entry of the height above.
    fn directory_entry<M: Memory>(mem: &M, reached: Reached, va: u64) -> u64
        requires low { E.DIRECTORY_HEIGHT ≤ reached.height }
        requires high { reached.height ≤ 3 }
        requires room { reached.table + 4096 ≤ 2 ^ 64 }
        ensures { (root walked : ℕ) → let tables = tables_of (M.word_at mem.now) E.kind_of LEVELS root in
            let form = directory_form E.DIRECTORY_HEIGHT E.expansion in
            IsReached tables E.DIRECTORY_HEIGHT walked reached.height reached.table reached.entry
            → walked / bytes_under (E.DIRECTORY_HEIGHT + 1) ≡ va / bytes_under (E.DIRECTORY_HEIGHT + 1)
            → result ≡ directory_entry tables form va }
    {
        if reached.height == E::DIRECTORY_HEIGHT {
            let place = reached.table + 8 * index_at(va, E::DIRECTORY_HEIGHT);
            let mut near = reached.near;
            return mem.word_near(place, &mut near).unwrap_or(0);
        }
        match Self::leaf(reached.entry, reached.height) {
            Some(leaf) => {
                let unit = va % bytes_under(reached.height) / bytes_under(E::DIRECTORY_HEIGHT);
                E::expand(leaf.bits, reached.height, unit)
            }
            None => 0,
        }
    }
}

/// Writes an entry at a place, after those before it.
fn put_entry(out: &mut [u8; 4096], at: usize, entry: u64)
    requires { at + 8 ≤ 4096 }
    ensures { take (at + 8) out.new ≡ take at out.old ++ to_le_bytes w64 entry }
{
    out[at..at + 8].copy_from_slice(&entry.to_le_bytes());
}
