//! The leaves of a range of addresses.
ghost use Rattle.std.specs.Prelude.{◌≡◌, ◌≤◌, ◌<◌, ◌%◌, ◌+◌, ◌^◌, ◌++◌};
ghost use Rattle.std.specs.Option.{option_to_list};
ghost use Rattle.fd_walk.specs.PageTables.{tables_of};
ghost use Rattle.fd_walk.specs.Ranges.{leaves_in, IsRest};

use crate::address::bytes_under;
use crate::leaf::Leaf;
use crate::range_walk::{Finds, First, RangeWalk};
use crate::rest::Rest;
use crate::walker::Walker;
use fd_image::Memory;
use fd_pte::Entry;

/// The leaves that meet a range, by rising address, each cut to the range. Contracts see the list of
/// those that are left.
pub type Leaves<'a, M, E, const LEVELS: usize> = RangeWalk<'a, M, Walker<E, LEVELS>, Leaf>;

impl<E: Entry, const LEVELS: usize> Finds<Leaf> for Walker<E, LEVELS> {
    ghost tables = { λ word_at root. tables_of word_at E.kind_of LEVELS root };

    ghost found_in = { leaves_in };

    ghost lowest = { 0 };

    fn first<M: Memory>(mem: &M, root: u64, rest: Rest) -> First<Leaf> {
        Self::first_leaf(mem, root, rest)
    }

    ghost use Rattle.fd_walk.specs.Ranges.{leaves_in-none};

    ghost none = { leaves_in-none };
}

impl<E: Entry, const LEVELS: usize> Walker<E, LEVELS> {
    /// The leaves that meet the `bytes` addresses from `from` on.
    pub fn leaves<'a, M: Memory>(
        mem: &'a M,
        root: u64,
        from: u64,
        bytes: u64,
    ) -> Leaves<'a, M, E, LEVELS>
        requires aligned { root % 4096 ≡ 0 }
        requires some_levels { 2 ≤ LEVELS }
        requires most_levels { LEVELS ≤ 4 }
        requires range { from + bytes ≤ 2 ^ 64 }
        ensures { result ≡ leaves_in (tables_of (M.word_at mem.now) E.kind_of LEVELS root) from bytes }
    {
        RangeWalk::new(mem, root, Self::range(mem, root, from, bytes))
    }

    // The leaf of a range's first entry.
    #[inline(always)]
    fn first_leaf<M: Memory>(mem: &M, root: u64, rest: Rest) -> First<Leaf>
        requires rest { IsRest (tables_of (M.word_at mem.now) E.kind_of LEVELS root) 0 rest }
        requires some { 0 < rest.left }
        ensures shorter { result.rest.left < rest.left }
        ensures rest { IsRest (tables_of (M.word_at mem.now) E.kind_of LEVELS root) 0 result.rest }
        ensures leaves { let tables = tables_of (M.word_at mem.now) E.kind_of LEVELS root in
            leaves_in tables rest.at rest.left ≡ option_to_list result.found ++ leaves_in tables result.rest.at result.rest.left }
    {
        let part = Self::part(mem, root, rest, 0);
        match Self::leaf(part.entry, part.height) {
            Some(found) => First {
                found: Some(Leaf {
                    va: rest.at,
                    pa: found.address + rest.at % bytes_under(part.height),
                    size: part.bytes,
                    bits: found.bits,
                }),
                rest: part.rest,
            },
            None => First {
                found: None,
                rest: Self::past_absent(mem, root, part.rest, 0),
            },
        }
    }
}
