//! What is left of a range that is walked entry by entry.
ghost use Rattle.std.specs.Prelude.{◌≡◌, ◌≤◌, ◌<◌, ◌-◌, ◌+◌, ◌%◌, ◌/◌, ◌^◌, ◌⊎◌, ◌*◌, ℕ, min};
ghost use Rattle.fd_pte.specs.Entry.{bytes_under};
ghost use Rattle.fd_walk.specs.PageTables.{tables_of, kind_of_entry};
ghost use Rattle.fd_walk.specs.Descent.{IsReached};
ghost use Rattle.fd_walk.specs.Ranges.{leaves_in, last_tables_in, IsRest};

use crate::address::{bytes_under, index_at};
use crate::walker::{Place, Walker};
use fd_image::Memory;
use fd_pte::{Entry, Kind};

/// `left` addresses from `at` on, and the table in which the walk for the first of them goes on.
#[derive(Clone, Copy)]
pub struct Rest {
    pub(crate) at: u64,
    pub(crate) left: u64,
    pub(crate) place: Place,
}

/// A range's first addresses: `bytes` that share an entry of this height, and the range behind them.
#[derive(Clone, Copy)]
pub(crate) struct Part {
    pub(crate) height: u32,
    pub(crate) entry: Option<u64>,
    pub(crate) bytes: u64,
    pub(crate) rest: Rest,
}

impl<E: Entry, const LEVELS: usize> Walker<E, LEVELS> {
    /// The `bytes` addresses from `from` on.
    pub(crate) fn range<M: Memory>(mem: &M, root: u64, from: u64, bytes: u64) -> Rest
        requires aligned { root % 4096 ≡ 0 }
        requires some_levels { 2 ≤ LEVELS }
        requires most_levels { LEVELS ≤ 4 }
        requires range { from + bytes ≤ 2 ^ 64 }
        ensures rest { (lowest : ℕ) → lowest ≤ 1 → IsRest (tables_of (M.word_at mem.now) E.kind_of LEVELS root) lowest result }
        ensures from_ { result.at ≡ from }
        ensures bytes { result.left ≡ bytes }
    {
        Rest {
            at: from,
            left: bytes,
            place: Self::topmost(root),
        }
    }

    /// Takes from a range the addresses that share the entry at which the walk for its first ends: the one of height
    /// `lowest`, or the first above it that names no table.
    #[inline(always)]
    pub(crate) fn part<M: Memory>(mem: &M, root: u64, rest: Rest, lowest: u32) -> Part
        requires rest { IsRest (tables_of (M.word_at mem.now) E.kind_of LEVELS root) lowest rest }
        requires low { lowest ≤ 1 }
        requires some { 0 < rest.left }
        ensures reached { let tables = tables_of (M.word_at mem.now) E.kind_of LEVELS root in
            (table : ℕ) × IsReached tables lowest rest.at result.height table result.entry }
        ensures high { result.height ≤ 3 }
        ensures bytes { result.bytes ≡ min rest.left (bytes_under result.height - rest.at % bytes_under result.height) }
        ensures some { 0 < result.bytes }
        ensures at { result.rest.at ≡ (rest.at + result.bytes) % 2 ^ 64 }
        ensures left { result.rest.left ≡ rest.left - result.bytes }
        ensures rest { IsRest (tables_of (M.word_at mem.now) E.kind_of LEVELS root) lowest result.rest }
    {
        let reached = Self::descend_from(mem, rest.place, rest.at, lowest);
        let size = bytes_under(reached.height);
        let bytes = rest.left.min(size - rest.at % size);
        // The sum wraps only where nothing is left.
        let at = rest.at.wrapping_add(bytes);
        let place = Place {
            height: reached.height,
            table: reached.table,
            near: reached.near,
        };
        Part {
            height: reached.height,
            entry: reached.entry,
            bytes,
            rest: Rest {
                at,
                left: rest.left - bytes,
                place: Self::place_after(root, place, rest.at, at),
            },
        }
    }

    /// Passes the absent entries that a range begins with in its table.
    pub(crate) fn past_absent<M: Memory>(mem: &M, root: u64, rest: Rest, lowest: u32) -> Rest
        requires rest { IsRest (tables_of (M.word_at mem.now) E.kind_of LEVELS root) lowest rest }
        requires low { lowest ≤ 1 }
        ensures shorter { result.left ≤ rest.left }
        ensures rest { IsRest (tables_of (M.word_at mem.now) E.kind_of LEVELS root) lowest result }
        ensures leaves { let tables = tables_of (M.word_at mem.now) E.kind_of LEVELS root in
            leaves_in tables rest.at rest.left ≡ leaves_in tables result.at result.left }
        ensures tables { lowest ≡ 1 → let tables = tables_of (M.word_at mem.now) E.kind_of LEVELS root in
            last_tables_in tables rest.at rest.left ≡ last_tables_in tables result.at result.left }
    {
        let size = bytes_under(rest.place.height);
        let first = index_at(rest.at, rest.place.height);
        let end = Self::past_absent_entries(mem, rest.place, first);
        if end == first {
            return rest;
        }
        let bytes = rest.left.min((end - first) * size - rest.at % size);
        // The sum wraps only where nothing is left.
        let at = rest.at.wrapping_add(bytes);
        Rest {
            at,
            left: rest.left - bytes,
            place: Self::place_after(root, rest.place, rest.at, at),
        }
    }

    /// The index of a table's first entry from one on that isn't absent, or 512.
    fn past_absent_entries<M: Memory>(mem: &M, place: Place, first: u64) -> u64
        requires first { first < 512 }
        requires high { place.height ≤ 3 }
        requires aligned { place.table % 4096 ≡ 0 }
        requires room { place.table + 4096 ≤ 2 ^ 64 }
        ensures from_ { first ≤ result }
        ensures to { result ≤ 512 }
        ensures absent { (k : ℕ) → first ≤ k → k < result
            → kind_of_entry E.kind_of place.height (M.word_at mem.now (place.table + 8 * k)) ≡ Kind.Absent }
    {
        let mut index = first;
        let mut near = place.near;
        while index < 512 {
            let at = place.table + 8 * index;
            match Self::kind(mem.word_near(at, &mut near), place.height) {
                // What is like an absent entry is absent.
                Kind::Absent => index += mem.alike(at, 512 - index, &mut near),
                _ => return index,
            }
        }
        index
    }

    /// The table in which the walk for a later address goes on: the one of an address before, if both are under one
    /// entry of the height above, or else the topmost.
    #[inline(always)]
    fn place_after(root: u64, place: Place, before: u64, later: u64) -> Place
        requires high { place.height ≤ 3 }
        requires some_levels { 2 ≤ LEVELS }
        requires most_levels { LEVELS ≤ 4 }
        ensures { ((result ≡ place) × (before / bytes_under (place.height + 1) ≡ later / bytes_under (place.height + 1)))
            ⊎ ((result.height + 1 ≡ LEVELS) × (result.table ≡ root)) }
    {
        let above = bytes_under(place.height + 1);
        if before / above == later / above {
            place
        } else {
            Self::topmost(root)
        }
    }
}
