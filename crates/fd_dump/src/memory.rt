//! The dumped pages, lent as runs.
ghost use Rattle.std.specs.Prelude.{◌≡◌, ◌+◌, ◌*◌, ◌%◌, ◌^◌, ◌<◌, ◌≤◌, length, slice_range};
ghost use Rattle.std.specs.Bool.{OnTrue};
ghost use Rattle.fd_bitmap.specs.Bits.{set_count};
ghost use Rattle.fd_dump.specs.Minidump.{memory_of};
ghost use Rattle.fd_dump.specs.Plan.{IsPlanOf};
ghost use Rattle.fd_dump.specs.Sections.{IsRun};

use crate::plan::Plan;
use fd_image::Image;

impl Plan {
    /// Lends dumped pages from the one of this rank on: as many as follow one another in the bitmap and in a segment of
    /// memory, up to `most`.
    pub(crate) fn run_at<'a>(&self, image: &'a Image, rank: u64, most: u64) -> &'a [u8]
        requires plan { IsPlanOf self.now image.now }
        requires rank { rank < set_count self.now.bits }
        requires some { 0 < most }
        requires few { most ≤ 256 }
        ensures bytes { result.now ≡ slice_range (memory_of image.now) (4096 * rank) (4096 * rank + length result.now) }
        ensures whole { length result.now % 4096 ≡ 0 }
        ensures some { 0 < length result.now }
        ensures most { length result.now ≤ 4096 * most }
        ensures within { 4096 * rank + length result.now ≤ length (memory_of image.now) }
    {
        let bit = self.index.select(&self.map, rank);
        match self.avail.page_of(bit) {
            Some(pa) => image.pages(pa, self.run_length(bit, pa, most)),
            // Each bit has its page.
            None => unreachable!(),
        }
    }

    /// How many dumped pages follow one another from this bit on, whose page is at this address, up to `most`.
    fn run_length(&self, bit: u64, pa: u64, most: u64) -> u64
        requires first { IsRun self.now bit pa 1 }
        requires bit { bit < 2 ^ 60 }
        requires address { pa < 2 ^ 60 }
        requires some { 0 < most }
        requires few { most ≤ 256 }
        ensures run { IsRun self.now bit pa result }
        ensures some { 0 < result }
        ensures most { result ≤ most }
    {
        for count in 1..most {
            if !self.is_dumped_at(bit + count, pa + 4096 * count) {
                return count;
            }
        }
        most
    }

    /// Whether the page of this bit is dumped and lies at this address.
    fn is_dumped_at(&self, bit: u64, pa: u64) -> bool
        ensures { OnTrue result (IsRun self.now bit pa 1) }
    {
        if !self.map.has(bit) {
            return false;
        }
        match self.avail.page_of(bit) {
            Some(address) => address == pa,
            None => false,
        }
    }
}
