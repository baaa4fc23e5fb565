//! The walk of all dumped pages.
ghost use Rattle.std.specs.Prelude.{◌≡◌, ℕ, ◌+◌, ◌*◌, ◌^◌, ◌<◌, ◌/◌, ◌%◌, ◌≢◌, ◌≤◌, false, List, Some, IfOk, IfSome, OnErr, OnOk, length, replicate, take};
ghost use Rattle.fd_site.specs.Contents.{Told, file_of};
ghost use Rattle.fd_site.specs.Fault.{Rose};
ghost use Rattle.fd_site.specs.Seen.{Untouched};
ghost use Rattle.fd_bitmap.specs.Bits.{set_count};
ghost use Rattle.fd_bytes.specs.Field.{u64_le_at};
ghost use Rattle.fd_mini.specs.Places.{places_of};
ghost use Rattle.fd_kvm.specs.OpenFile.{StandsWith};
ghost use Rattle.fd_kvm.specs.Parts.{AreOfPart, IsBlock, IsPart, IsTable, IsTaken, count_of_entry, entry_pieces, goes_on, other_page, other_pages, pages_of_entry};
ghost use Rattle.fd_kvm.specs.Visits.{AreGiven, AreOfWalk, IsWalk};
ghost use Rattle.fd_kvm.specs.Walk.{piece_count, walk_of, window_pages};

use crate::page::{Page, Visit};
use crate::vmcore::Vmcore;
use fd_bitmap::Bitmap;
use fd_bytes::get_u64_le;
use fd_cache::Pages;
use fd_mini::{MiniHeader, entry_height_of, unit_of};
use fd_pte::{Kind, entry_kind};
use fd_site::{Site, SiteFault};

// How many pieces of 4096 bytes the kernel window has, as far as they begin below 2^64.
fn piece_count(header: &MiniHeader) -> u64
    ensures count { result ≡ piece_count header.now }
{
    let pieces = u64::from(header.pmapsize / 8) * (unit_of(header) / 4096);
    let below = (1u128 << 64) - u128::from(header.kernbase);
    pieces.min(below.div_ceil(4096) as u64)
}

impl Vmcore {
    // The entry of this index of the directory, of which `block` holds the last 4096 bytes that were read.
    fn directory_entry<S: Site>(
        &self,
        pages: &mut Pages,
        site: &mut S,
        block: &mut [u8; 4096],
        index: u64,
    ) -> Result<u64, SiteFault>
        requires stands { Told (S.seen site.old).told (StandsWith self.now pages.old) }
        requires inside { index < self.now.sections.header.pmapsize / 8 }
        requires low { index < 2 ^ 52 }
        requires kept { index % 512 ≢ 0 → Told (S.seen site.old).told (λ c. (f : List ℕ) → file_of c self.now.name ≡ Some f → IsBlock f self.now.sections index block.old) }
        ensures entry { IfOk result (λ bits. Told (S.seen site.old).told (λ c. (f : List ℕ) → file_of c self.now.name ≡ Some f
            → bits ≡ u64_le_at f ((places_of self.now.sections.header).directory + 8 * index))) }
        ensures kept { OnOk result (Told (S.seen site.old).told (λ c. (f : List ℕ) → file_of c self.now.name ≡ Some f → IsBlock f self.now.sections index block.new)) }
        ensures stands { Told (S.seen site.new).told (StandsWith self.now pages.new) }
        ensures untouched { Untouched (S.seen site.old) (S.seen site.new) }
        ensures cause { OnErr result (Rose (S.seen site.old).faults (S.seen site.new).faults) }
    {
        if index % 512 == 0 {
            let place = self.directory() + 8 * index;
            self.read_block(pages, site, place, block)?;
            return Ok(get_u64_le(block, 0));
        }
        Ok(get_u64_le(block, 8 * (index % 512) as usize))
    }

    // The kind of an entry, with the page table that it names. Where that isn't dumped, the entry stands for nothing.
    fn read_table<S: Site>(
        &self,
        pages: &mut Pages,
        site: &mut S,
        kind: Kind,
        table: &mut [u8; 4096],
    ) -> Result<Kind, SiteFault>
        requires stands { Told (S.seen site.old).told (StandsWith self.now pages.old) }
        ensures table { IfOk result (λ found. Told (S.seen site.old).told (λ c. (f : List ℕ) → file_of c self.now.name ≡ Some f → IsTable f self.now.sections kind found table.new)) }
        ensures stands { Told (S.seen site.new).told (StandsWith self.now pages.new) }
        ensures untouched { Untouched (S.seen site.old) (S.seen site.new) }
        ensures cause { OnErr result (Rose (S.seen site.old).faults (S.seen site.new).faults) }
    {
        let address = match kind {
            Kind::Table(address) => address,
            Kind::Absent | Kind::Leaf(_) => return Ok(kind),
        };
        match self.find(u128::from(address)) {
            Some(place) => {
                self.read_block(pages, site, place, table)?;
                Ok(kind)
            }
            None => Ok(Kind::Absent),
        }
    }

    // Gives the pages of the kernel window that the directory's entry of this index maps.
    fn walk_entry<S: Site, V: Visit>(
        &self,
        pages: &mut Pages,
        walked: &mut Bitmap,
        site: &mut S,
        visit: &mut V,
        block: &mut [u8; 4096],
        index: u64,
    ) -> Result<bool, SiteFault>
        requires stands { Told (S.seen site.old).told (StandsWith self.now pages.old) }
        requires kept { index % 512 ≢ 0 → Told (S.seen site.old).told (λ c. (f : List ℕ) → file_of c self.now.name ≡ Some f → IsBlock f self.now.sections index block.old) }
        requires marks { length walked.old ≡ set_count self.now.sections.bits }
        requires inside { entry_pieces self.now.sections * index < piece_count self.now.sections.header }
        ensures part { IsPart V.took self.now.sections visit.old visit.new walked.old walked.new (goes_on result) (λ pages. (length pages ≤ count_of_entry self.now.sections index)
            × Told (S.seen site.old).told (λ c. (f : List ℕ) → file_of c self.now.name ≡ Some f → AreOfPart (pages_of_entry f self.now.sections index) pages result)) }
        ensures kept { OnOk result (Told (S.seen site.old).told (λ c. (f : List ℕ) → file_of c self.now.name ≡ Some f → IsBlock f self.now.sections index block.new)) }
        ensures stands { Told (S.seen site.new).told (StandsWith self.now pages.new) }
        ensures untouched { Untouched (S.seen site.old) (S.seen site.new) }
        ensures cause { OnErr result (Rose (S.seen site.old).faults (S.seen site.new).faults) }
    {
        let header = self.header();
        let bits = self.directory_entry(pages, site, block, index)?;
        let mut table = [0; 4096];
        let kind = entry_kind(header.arch, bits, entry_height_of(header));
        let found = self.read_table(pages, site, kind, &mut table)?;
        let each = unit_of(header) / 4096;
        let first = each * index;
        let end = (first + each).min(piece_count(header));
        Ok(self.walk_pieces(walked, visit, bits, &table, found, first, end))
    }

    // Gives the pages of the kernel window.
    fn walk_window<S: Site, V: Visit>(
        &self,
        pages: &mut Pages,
        walked: &mut Bitmap,
        site: &mut S,
        visit: &mut V,
    ) -> Result<bool, SiteFault>
        requires stands { Told (S.seen site.old).told (StandsWith self.now pages.old) }
        requires marks { length walked.old ≡ set_count self.now.sections.bits }
        ensures part { IsPart V.took self.now.sections visit.old visit.new walked.old walked.new (goes_on result) (λ pages. (length pages ≤ piece_count self.now.sections.header)
            × Told (S.seen site.old).told (λ c. (f : List ℕ) → file_of c self.now.name ≡ Some f → AreOfPart (window_pages f self.now.sections) pages result)) }
        ensures stands { Told (S.seen site.new).told (StandsWith self.now pages.new) }
        ensures untouched { Untouched (S.seen site.old) (S.seen site.new) }
        ensures cause { OnErr result (Rose (S.seen site.old).faults (S.seen site.new).faults) }
    {
        let header = self.header();
        let entries = piece_count(header).div_ceil(unit_of(header) / 4096);
        let mut block = [0; 4096];
        for index in 0..entries {
            if !self.walk_entry(pages, walked, site, visit, &mut block, index)? {
                return Ok(false);
            }
        }
        Ok(true)
    }

    // The page of a bit, if the bit is set, has a page, and that isn't marked. So many bits below it are set.
    fn other_page(&self, walked: &Bitmap, bit: u64, number: u64) -> Option<Page>
        requires number { number ≡ set_count (take bit self.now.sections.bits) }
        requires few { number < 2 ^ 40 }
        ensures { result ≡ other_page self.now.sections walked.now bit }
    {
        if walked.has(number) || !self.map().has(bit) {
            return None;
        }
        match self.core.bit_page(bit) {
            Some(pa) => Some(self.page_at(pa, None, 3, self.first_page() + 4096 * number)),
            None => None,
        }
    }

    // Gives the dumped pages that aren't marked, by rising bit.
    pub(crate) fn walk_others<V: Visit>(&self, walked: &Bitmap, visit: &mut V) -> bool
        ensures taken { IsTaken V.took visit.old visit.new result
            (λ pages. AreGiven pages (other_pages self.now.sections walked.now (length self.now.sections.bits)) result) }
        ensures few { length self.now.sections.bits < 2 ^ 40 }
    {
        let map = self.map();
        let mut number = 0;
        for bit in 0..8 * u64::from(self.header().bitmapsize) {
            if let Some(page) = self.other_page(walked, bit, number) {
                if !visit.visit(&page) {
                    return false;
                }
            }
            if map.has(bit) {
                number += 1;
            }
        }
        true
    }

    // Gives all dumped pages: those of the kernel window, which are marked, and then the others.
    pub(crate) fn walk<S: Site, V: Visit>(
        &self,
        pages: &mut Pages,
        walked: &mut Bitmap,
        site: &mut S,
        visit: &mut V,
    ) -> Result<(), SiteFault>
        requires stands { Told (S.seen site.old).told (StandsWith self.now pages.old) }
        requires marks { walked.old ≡ replicate (set_count self.now.sections.bits) false }
        ensures walk { IsWalk V.took visit.old visit.new result (λ pages went_on. Told (S.seen site.old).told (λ c. (f : List ℕ) → file_of c self.now.name ≡ Some f
            → AreOfWalk result (walk_of f self.now.sections) pages went_on)) }
        ensures len { length walked.new ≡ length walked.old }
        ensures stands { Told (S.seen site.new).told (StandsWith self.now pages.new) }
        ensures untouched { Untouched (S.seen site.old) (S.seen site.new) }
        ensures cause { OnErr result (Rose (S.seen site.old).faults (S.seen site.new).faults) }
    {
        if self.walk_window(pages, walked, site, visit)? {
            self.walk_others(walked, visit);
        }
        Ok(())
    }
}
