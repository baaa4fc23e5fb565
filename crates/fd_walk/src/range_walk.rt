//! What the entries of a range give, one after the other.
ghost use Rattle.std.specs.Prelude.{◌≡◌, ◌≤◌, ◌<◌, ◌++◌, []};
ghost use Rattle.std.specs.Iterator.{YieldsFirst, item_count};
ghost use Rattle.std.specs.Option.{option_to_list};
ghost use Rattle.fd_walk.specs.Ranges.{IsRest};

use crate::rest::Rest;
use fd_image::Memory;
use std::marker::{Model, PhantomData};

/// What a range gives first, if its first entry gives anything, and the range behind that entry.
#[derive(Clone, Copy)]
pub struct First<T: Copy> {
    pub(crate) found: Option<T>,
    pub(crate) rest: Rest,
}

/// Walks that look at the entries of a range for something: leaves, or the last-level tables that entries name.
pub trait Finds<T: Copy> {
    ghost use Rattle.std.specs.Prelude.{ℕ, Option, List};
    ghost use Rattle.fd_walk.specs.PageTables.{PageTables};

    /// The page tables in a memory's words, of which the topmost one stands at this address.
    ghost tables: { (ℕ → Option ℕ) → ℕ → PageTables };

    /// All that is found at so many addresses from one on.
    ghost found_in: { PageTables → ℕ → ℕ → List T };

    /// The lowest height of the entries that are looked at.
    ghost lowest: { ℕ };

    /// Takes from a range the addresses that share an entry with its first.
    fn first<M: Memory>(mem: &M, root: u64, rest: Rest) -> First<T>
        requires rest { IsRest (tables (M.word_at mem.now) root) lowest rest }
        requires some { 0 < rest.left }
        ensures shorter { result.rest.left < rest.left }
        ensures rest { IsRest (tables (M.word_at mem.now) root) lowest result.rest }
        ensures found { let t = tables (M.word_at mem.now) root in
            found_in t rest.at rest.left ≡ option_to_list result.found ++ found_in t result.rest.at result.rest.left };

    /// At no address nothing is found.
    ghost none: { (t : PageTables) (at : ℕ) → found_in t at 0 ≡ [] };
}

/// What a walk finds in a range, by rising address. Contracts see the list of what is left to be found.
#[derive(Drop)]
pub struct RangeWalk<'a, M: Memory, W: Finds<T>, T: Copy> {
    mem: &'a M,
    root: u64,
    rest: Rest,
    walk: PhantomData<W>,
    found: PhantomData<T>,
}

impl<'a, M: Memory, W: Finds<T>, T: Copy> Model for RangeWalk<'a, M, W, T> {
    ghost use Rattle.std.specs.Prelude.{List};
    ghost use Rattle.fd_walk.specs.Ranges.{IsRest};

    ghost Value = { List T };

    ghost view = { λ w. W.found_in (W.tables (M.word_at w.mem.now) w.root) w.rest.at w.rest.left };

    ghost invariant = { λ w. IsRest (W.tables (M.word_at w.mem.now) w.root) W.lowest w.rest };
}

impl<'a, M: Memory, W: Finds<T>, T: Copy> RangeWalk<'a, M, W, T> {
    /// Of this range.
    pub(crate) fn new(mem: &'a M, root: u64, rest: Rest) -> RangeWalk<'a, M, W, T>
        requires { IsRest (W.tables (M.word_at mem.now) root) W.lowest rest }
        ensures { result ≡ W.found_in (W.tables (M.word_at mem.now) root) rest.at rest.left }
    {
        RangeWalk {
            mem,
            root,
            rest,
            walk: PhantomData,
            found: PhantomData,
        }
    }
}

impl<'a, M: Memory, W: Finds<T>, T: Copy> Iterator for RangeWalk<'a, M, W, T> {
    type Item = T;

    ghost next_gives = { YieldsFirst (λ rest. rest) };

    ghost remaining = { item_count (λ rest. rest) };

    fn next(&mut self) -> Option<T> {
        let mut rest = self.rest;
        while rest.left > 0 {
            let first = W::first(self.mem, self.root, rest);
            rest = first.rest;
            if let Some(found) = first.found {
                self.rest = rest;
                return Some(found);
            }
        }
        self.rest = rest;
        None
    }
}
