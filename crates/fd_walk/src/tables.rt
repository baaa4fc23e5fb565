//! The last-level tables of a range of addresses.
ghost use Rattle.std.specs.Prelude.{◌≡◌, ◌≤◌, ◌<◌, ◌%◌, ◌+◌, ◌^◌, ◌++◌};
ghost use Rattle.std.specs.Option.{option_to_list};
ghost use Rattle.fd_walk.specs.PageTables.{tables_of};
ghost use Rattle.fd_walk.specs.Leaf.{table_of_kind};
ghost use Rattle.fd_walk.specs.Ranges.{last_tables_in, IsRest};

use crate::range_walk::{Finds, First, RangeWalk};
use crate::rest::Rest;
use crate::walker::Walker;
use fd_image::Memory;
use fd_pte::{Entry, Kind};

/// The addresses of the last-level tables that the entries of height 1 in a range name, in the order
/// of these entries, whether or not they lie in the memory. Contracts see the list of those that are
/// left.
pub type Tables<'a, M, E, const LEVELS: usize> = RangeWalk<'a, M, Walker<E, LEVELS>, u64>;

impl<E: Entry, const LEVELS: usize> Finds<u64> for Walker<E, LEVELS> {
    ghost tables = { λ word_at root. tables_of word_at E.kind_of LEVELS root };

    ghost found_in = { last_tables_in };

    ghost lowest = { 1 };

    fn first<M: Memory>(mem: &M, root: u64, rest: Rest) -> First<u64> {
        Self::first_table(mem, root, rest)
    }

    ghost use Rattle.fd_walk.specs.Ranges.{last_tables_in-none};

    ghost none = { last_tables_in-none };
}

impl<E: Entry, const LEVELS: usize> Walker<E, LEVELS> {
    /// The last-level tables that the entries of height 1 for the `bytes` addresses from `from` on name.
    pub fn tables<'a, M: Memory>(
        mem: &'a M,
        root: u64,
        from: u64,
        bytes: u64,
    ) -> Tables<'a, M, E, LEVELS>
        requires aligned { root % 4096 ≡ 0 }
        requires some_levels { 2 ≤ LEVELS }
        requires most_levels { LEVELS ≤ 4 }
        requires range { from + bytes ≤ 2 ^ 64 }
        ensures { result ≡ last_tables_in (tables_of (M.word_at mem.now) E.kind_of LEVELS root) from bytes }
    {
        RangeWalk::new(mem, root, Self::range(mem, root, from, bytes))
    }

    // The table that a range's first entry of height 1 or above names.
    #[inline(always)]
    fn first_table<M: Memory>(mem: &M, root: u64, rest: Rest) -> First<u64>
        requires rest { IsRest (tables_of (M.word_at mem.now) E.kind_of LEVELS root) 1 rest }
        requires some { 0 < rest.left }
        ensures shorter { result.rest.left < rest.left }
        ensures rest { IsRest (tables_of (M.word_at mem.now) E.kind_of LEVELS root) 1 result.rest }
        ensures tables { let tables = tables_of (M.word_at mem.now) E.kind_of LEVELS root in
            last_tables_in tables rest.at rest.left
            ≡ option_to_list result.found ++ last_tables_in tables result.rest.at result.rest.left }
    {
        let part = Self::part(mem, root, rest, 1);
        match table_of_kind(Self::kind(part.entry, part.height)) {
            Some(table) => First {
                found: Some(table),
                rest: part.rest,
            },
            None => First {
                found: None,
                rest: Self::past_absent(mem, root, part.rest, 1),
            },
        }
    }
}

/// The table that an entry of this kind names.
fn table_of_kind(kind: Kind) -> Option<u64>
    ensures { result ≡ table_of_kind kind }
{
    match kind {
        Kind::Table(table) => Some(table),
        _ => None,
    }
}
