//! Intervals of numbers, rising and apart in a list.

ghost use Rattle.std.specs.Prelude.{◌≡◌, ◌+◌, ◌<◌, ◌≤◌, ◌∷◌, ℕ, IsOk, OnErr, OnOk, drop, length, max, min, slice_index_or, take, true};
ghost use Rattle.fd_cover.specs.Intervals.{AreBefore, AreRising, IsBeside, has, with_interval};

use std::alloc::AllocError;

/// The numbers from `from` on, up to but not with `to`.
#[derive(Clone, Copy)]
pub(crate) struct Interval {
    pub from: u64,
    pub to: u64,
}

// Adds the numbers of one more interval, which becomes one with those that it meets. Memory is taken only where it
// meets none.
pub(crate) fn add_interval(intervals: &mut Vec<Interval>, new: Interval) -> Result<(), AllocError>
    requires some { new.from < new.to }
    requires rising { AreRising 0 intervals.old.items }
    ensures ok { OnOk result (intervals.new.items ≡ with_interval intervals.old.items new.from new.to) }
    ensures err { OnErr result (intervals.new.items ≡ intervals.old.items) }
    ensures beside { (i : ℕ) → IsBeside new.from new.to i → has intervals.old.items i ≡ true → IsOk result }
{
    let old = intervals.as_slice();
    let at = first_reaching(old, new.from);
    if at == old.len() || new.to < old[at].from {
        intervals.insert(at, new)?;
        return Ok(());
    }
    let joint = joined(new, old[at]);
    intervals[at] = join_behind(intervals, at + 1, joint);
    Ok(())
}

// The place of the first interval that doesn't end before a number, or of none, searched by halves.
fn first_reaching(intervals: &[Interval], from: u64) -> usize
    requires { AreRising 0 intervals.now }
    ensures bound { result ≤ length intervals.now }
    ensures before { AreBefore from (take result intervals.now) }
    ensures reaches { result < length intervals.now → from ≤ (slice_index_or intervals.now result (record { from = 0; to = 0 })).to }
{
    intervals.partition_point(|interval| interval.to < from)
}

// Takes out the intervals from a place on that one meets, all at once, and answers that one joined with them.
fn join_behind(intervals: &mut Vec<Interval>, at: usize, new: Interval) -> Interval
    requires inside { at ≤ length intervals.old.items }
    requires rising { AreRising new.from (drop at intervals.old.items) }
    ensures before { take at intervals.new.items ≡ take at intervals.old.items }
    ensures joined { result ∷ drop at intervals.new.items ≡ with_interval (drop at intervals.old.items) new.from new.to }
{
    let mut joint = new;
    let mut end = at;
    while end < intervals.len() && intervals[end].from <= joint.to {
        joint = joined(joint, intervals[end]);
        end += 1;
    }
    drop(intervals.drain(at..end));
    joint
}

// The least interval that has the numbers of both.
fn joined(a: Interval, b: Interval) -> Interval
    ensures { result ≡ record { from = min a.from b.from; to = max a.to b.to } }
{
    Interval {
        from: a.from.min(b.from),
        to: a.to.max(b.to),
    }
}
