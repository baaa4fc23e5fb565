//! How many bits are set below a bit, and the other way round.

ghost use Rattle.std.specs.Prelude.{◌≡◌, ℕ, ◌+◌, ◌*◌, ◌<◌, ◌≤◌, ◌^◌, ◌%◌, true, Some, List, Bool, length, take, slice_get, slice_index, count_ones, IfOk};
ghost use Rattle.std.specs.Int.{bit_at};
ghost use Rattle.std.specs.List.Sorted.{IsNonDecreasingBy};
ghost use Rattle.fd_bitmap.specs.Bits.{set_count};
ghost use Rattle.fd_bitmap.specs.Ranks.{IsIndexOf};

use crate::bitmap::Bitmap;
use crate::steps::{Counted, Steps};
use crate::words::{Words, ones_below, set_in_words};
use std::alloc::{AllocError, Global};
use std::marker::Model;

/// The words of a block.
const BLOCK_WORDS: u64 = 8;

/// How many bits are set below each block of 512 bits of a list. Contracts see these counts, and
/// `IsIndexOf` says of which bits they are.
#[derive(Drop)]
pub struct RankIndex {
    counts: Vec<u64>,
}

impl Model for RankIndex {
    ghost use Rattle.std.specs.Prelude.{ℕ, List};

    ghost Value = { List ℕ };

    ghost view = { λ index. index.counts.items };
}

/// The steps by which an index is made.
struct Making;

impl Counted for Making {}

impl RankIndex {
    /// The index of these bits.
    pub fn new(alloc: Global, map: &Bitmap) -> Result<RankIndex, AllocError>
        ensures { IfOk result (λ index. IsIndexOf map.now index) }
    {
        let counts = counts_of(alloc, map)?;
        Ok(RankIndex { counts })
    }

    /// How many bits below this one are set. Looks at no more than eight words.
    pub fn rank<L, W: Words<L>>(&self, words: &W, bit: u64, steps: &mut Steps<L>) -> u64
        requires made { IsIndexOf (W.listed words.now) self.now }
        requires range { bit ≤ length (W.listed words.now) }
        ensures rank { result ≡ set_count (take bit (W.listed words.now)) }
        ensures steps { steps.new ≤ steps.old + 8 }
    {
        let block = bit / 512;
        let count = self.counts[block as usize];
        count + set_in_block(words, block, bit % 512, steps)
    }

    /// The set bit that has so many set bits below it.
    pub fn select(&self, map: &Bitmap, rank: u64) -> u64
        requires made { IsIndexOf map.now self.now }
        requires rank { rank < set_count map.now }
        ensures bit { slice_get map.now result ≡ Some true }
        ensures rank { set_count (take result map.now) ≡ rank }
    {
        let block = last_up_to(self.counts.as_slice(), rank);
        select_from(map, BLOCK_WORDS * block as u64, rank - self.counts[block])
    }
}

/// The last of these counts that is no larger than a number, by binary search.
fn last_up_to(counts: &[u64], number: u64) -> usize
    requires some { 0 < length counts.now }
    requires first { slice_index counts.now 0 ≤ number }
    requires rising { IsNonDecreasingBy (λ count. count) counts.now }
    ensures within { result < length counts.now }
    ensures low { slice_index counts.now result ≤ number }
    ensures last { result + 1 < length counts.now → number < slice_index counts.now (result + 1) }
{
    counts.partition_point(|count| *count <= number) - 1
}

/// The set bit that has so many set bits below it, from the word `first` on.
fn select_from(map: &Bitmap, first: u64, rank: u64) -> u64
    requires some { set_count (take (64 * first) map.now) + rank < set_count map.now }
    ensures bit { slice_get map.now result ≡ Some true }
    ensures rank { set_count (take result map.now) ≡ set_count (take (64 * first) map.now) + rank }
{
    let mut left = rank;
    for at in first..map.len().div_ceil(64) {
        let word = map.word_at(at);
        let ones = u64::from(word.count_ones());
        if left < ones {
            return 64 * at + select_in(word, left);
        }
        left -= ones;
    }
    0
}

/// The set bit of a word that has so many set bits below it, by binary search.
fn select_in(word: u64, rank: u64) -> u64
    requires { rank < count_ones word }
    ensures within { result < 64 }
    ensures bit { bit_at word result ≡ 1 }
    ensures rank { count_ones (word % 2 ^ result) ≡ rank }
{
    let mut low = 0;
    let mut high = 64;
    while low + 1 < high {
        let middle = (low + high) / 2;
        if ones_below(word, middle) <= rank {
            low = middle;
        } else {
            high = middle;
        }
    }
    low
}

/// How many of the first bits of this block are set.
fn set_in_block<L, W: Words<L>>(words: &W, block: u64, bits: u64, steps: &mut Steps<L>) -> u64
    requires within { 512 * block + bits < 2 ^ 64 }
    requires few { bits < 512 }
    ensures value { set_count (take (512 * block) (W.listed words.now)) + result ≡ set_count (take (512 * block + bits) (W.listed words.now)) }
    ensures steps { steps.new ≤ steps.old + 8 }
{
    let first = BLOCK_WORDS * block;
    let whole = bits / 64;
    let set = set_in_words(words, first, whole, steps);
    set + ones_below(words.word(first + whole, steps), bits % 64)
}

/// For each block, and for the end, how many bits below it are set.
fn counts_of(alloc: Global, map: &Bitmap) -> Result<Vec<u64>, AllocError>
    ensures { IfOk result (λ counts. IsIndexOf map.now counts.items) }
{
    let blocks = map.len() / 512 + 1;
    let mut counts = Vec::with_capacity(alloc, blocks as usize)?;
    let mut count = 0;
    let mut steps = Steps::<Making>::new();
    for block in 0..blocks {
        counts.push(count)?;
        count += set_in_words(map, BLOCK_WORDS * block, BLOCK_WORDS, &mut steps);
    }
    Ok(counts)
}
