//! Walks from the topmost table down.
ghost use Rattle.std.specs.Prelude.{◌≡◌, ◌≤◌, ◌<◌, ◌%◌, ◌+◌, ◌^◌, ℕ, Option, Some, None, MatchOption, IfSome};
ghost use Rattle.fd_pte.specs.Entry.{IsPlaced};
ghost use Rattle.fd_walk.specs.PageTables.{tables_of, kind_of_entry};
ghost use Rattle.fd_walk.specs.Descent.{IsInTable, IsReached};
ghost use Rattle.fd_walk.specs.Leaf.{leaf_of_entry};
ghost use Rattle.fd_walk.specs.Step.{step_at};

use crate::address::{bytes_under, index_at};
use crate::step::Step;
use fd_image::Memory;
use fd_pte::{Entry, Kind};
use std::marker::PhantomData;

/// Walks of page tables with entries of the architecture `E` in tables of `LEVELS` levels: 4 for
/// amd64 and arm64, 3 or 4 for RISC-V.
///
/// Of an address only the index bits are used. A table outside the memory has no entries.
pub struct Walker<E: Entry, const LEVELS: usize> {
    entry: PhantomData<E>,
}

/// A table that a walk comes to, the height of its entries, and where in memory its words are looked for first.
#[derive(Clone, Copy)]
pub(crate) struct Place {
    pub(crate) height: u32,
    pub(crate) table: u64,
    pub(crate) near: usize,
}

/// The lowest entry that a walk came to, with the table that holds it, and where in memory that was found.
#[derive(Clone, Copy)]
pub(crate) struct Reached {
    pub(crate) height: u32,
    pub(crate) table: u64,
    pub(crate) near: usize,
    pub(crate) entry: Option<u64>,
}

/// A leaf's bits, and the physical address of the memory that it maps.
#[derive(Clone, Copy)]
pub(crate) struct FoundLeaf {
    pub(crate) bits: u64,
    pub(crate) address: u64,
}

impl<E: Entry, const LEVELS: usize> Walker<E, LEVELS> {
    /// What the virtual address `va` is mapped to by the topmost table at `root`.
    pub fn lookup<M: Memory>(mem: &M, root: u64, va: u64) -> Step
        requires aligned { root % 4096 ≡ 0 }
        requires some_levels { 2 ≤ LEVELS }
        requires most_levels { LEVELS ≤ 4 }
        ensures { result ≡ step_at (tables_of (M.word_at mem.now) E.kind_of LEVELS root) va }
    {
        let reached = Self::descend(mem, root, va, 0);
        let table = (reached.height == 0).then_some(reached.table);
        match Self::leaf(reached.entry, reached.height) {
            Some(leaf) => {
                let size = bytes_under(reached.height);
                Step::Leaf {
                    start: va - va % size,
                    pa: leaf.address,
                    size,
                    bits: leaf.bits,
                    table,
                }
            }
            None => Step::Absent { table },
        }
    }

    /// Walks from the topmost table down to the entry of height `lowest`, or to the first above it that names no table.
    pub(crate) fn descend<M: Memory>(mem: &M, root: u64, va: u64, lowest: u32) -> Reached
        requires aligned { root % 4096 ≡ 0 }
        requires lowest { lowest < LEVELS }
        requires most_levels { LEVELS ≤ 4 }
        ensures reached { let tables = tables_of (M.word_at mem.now) E.kind_of LEVELS root in
            IsReached tables lowest va result.height result.table result.entry }
        ensures room { result.table + 4096 ≤ 2 ^ 64 }
    {
        Self::descend_from(mem, Self::topmost(root), va, lowest)
    }

    /// The topmost table.
    pub(crate) fn topmost(root: u64) -> Place
        requires some_levels { 1 ≤ LEVELS }
        requires most_levels { LEVELS ≤ 4 }
        ensures height { result.height + 1 ≡ LEVELS }
        ensures table { result.table ≡ root }
    {
        Place {
            height: LEVELS as u32 - 1,
            table: root,
            near: 0,
        }
    }

    /// Walks on from a table that the walk for an address comes to.
    #[inline(always)]
    pub(crate) fn descend_from<M: Memory>(mem: &M, place: Place, va: u64, lowest: u32) -> Reached
        requires low { lowest ≤ place.height }
        requires high { place.height ≤ 3 }
        requires aligned { place.table % 4096 ≡ 0 }
        requires room { place.table + 4096 ≤ 2 ^ 64 }
        ensures reached { (root : ℕ) → let tables = tables_of (M.word_at mem.now) E.kind_of LEVELS root in
            IsInTable tables va place.height place.table → IsReached tables lowest va result.height result.table result.entry }
        ensures high { result.height ≤ 3 }
        ensures aligned { result.table % 4096 ≡ 0 }
        ensures room { result.table + 4096 ≤ 2 ^ 64 }
    {
        let mut height = place.height;
        let mut table = place.table;
        let mut near = place.near;
        let mut entry = mem.word_near(table + 8 * index_at(va, height), &mut near);
        while height > lowest {
            match Self::kind(entry, height) {
                Kind::Table(below) => {
                    table = below;
                    height -= 1;
                    entry = mem.word_near(table + 8 * index_at(va, height), &mut near);
                }
                _ => {
                    return Reached {
                        height,
                        table,
                        near,
                        entry,
                    };
                }
            }
        }
        Reached {
            height,
            table,
            near,
            entry,
        }
    }

    /// The kind of an entry, absent where there is none.
    pub(crate) fn kind(entry: Option<u64>, height: u32) -> Kind
        requires { height ≤ 3 }
        ensures kind { result ≡ kind_of_entry E.kind_of height entry }
        ensures placed { IsPlaced height result }
    {
        match entry {
            Some(bits) => E::kind(bits, height),
            None => Kind::Absent,
        }
    }

    /// The leaf of an entry, if it is one.
    pub(crate) fn leaf(entry: Option<u64>, height: u32) -> Option<FoundLeaf>
        requires { height ≤ 3 }
        ensures leaf { let leaf = leaf_of_entry E.kind_of height entry in
            MatchOption result (leaf ≡ None)
            (λ found. leaf ≡ Some (record { height = height; bits = found.bits; address = found.address })) }
        ensures short { IfSome result (λ found. found.address < 2 ^ 56) }
    {
        match entry {
            Some(bits) => match E::kind(bits, height) {
                Kind::Leaf(address) => Some(FoundLeaf { bits, address }),
                _ => None,
            },
            None => None,
        }
    }
}
