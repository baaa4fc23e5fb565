//! Memory by physical addresses.
ghost use Rattle.std.specs.Prelude.{◌≡◌, ◌≢◌, ◌<◌, ◌≤◌, ◌+◌, ◌*◌, ◌%◌, ◌^◌, ℕ, Option};

pub trait Memory {
    /// The little-endian word of eight bytes at a physical address, if there is one.
    ghost word_at: { Self → ℕ → Option ℕ };

    /// The word at a physical address. `near` says which part of the memory is looked at first, and then in which one
    /// the word was found. Any number gives the same word; where words lie together, only the first is searched for.
    fn word_near(&self, pa: u64, near: &mut usize) -> Option<u64>
        ensures { result ≡ word_at self.now pa };

    /// How many of the `most` words of a page from an address on are like the first of them, one behind the other.
    fn alike(&self, pa: u64, most: u64, near: &mut usize) -> u64
        requires aligned { pa % 8 ≡ 0 }
        requires some { 0 < most }
        requires page { pa % 4096 + 8 * most ≤ 4096 }
        ensures some { 0 < result }
        ensures most { result ≤ most }
        ensures alike { (k : ℕ) → k < result → word_at self.now (pa + 8 * k) ≡ word_at self.now pa }
        ensures other { result < most → word_at self.now (pa + 8 * result) ≢ word_at self.now pa }
    {
        let first = self.word_near(pa, near);
        for count in 1..most {
            if self.word_near(pa + 8 * count, near) != first {
                return count;
            }
        }
        most
    }

    /// The word at a physical address.
    fn word(&self, pa: u64) -> Option<u64>
        ensures { result ≡ word_at self.now pa }
    {
        let mut near = 0;
        self.word_near(pa, &mut near)
    }
}
