//! The pages of the kernel window that one entry of the page directory maps.
ghost use Rattle.std.specs.Prelude.{◌≡◌, ◌+◌, ◌-◌, ◌*◌, ◌/◌, ◌%◌, ◌^◌, ◌<◌, ◌≤◌, Some, IfSome, [], ◌∷◌, length};
ghost use Rattle.fd_bitmap.specs.Bits.{set_count};
ghost use Rattle.fd_pte.specs.Architecture.{kind_of};
ghost use Rattle.fd_kvm.specs.Parts.{AreMarked, HasNumber, IsPart, by_last_entry, page_by_kind, pages_by_kind};
ghost use Rattle.fd_kvm.specs.Visits.{AreGiven};
ghost use Rattle.fd_kvm.specs.Walk.{direct_address, dumped_page, page_at, protection_of};

use crate::page::{Page, Visit};
use crate::vmcore::Vmcore;
use fd_bitmap::Bitmap;
use fd_bytes::{Arch, get_u64_le};
use fd_mini::{MiniHeader, unit_of};
use fd_pte::{Amd64, Arm64, Entry, Kind, Riscv, entry_kind};

// The accesses that an entry allows.
fn entry_protection(arch: Arch, bits: u64) -> u8
    ensures { result ≡ protection_of arch bits }
{
    match arch {
        Arch::Amd64 => Amd64::prot(bits),
        Arch::Arm64 => Arm64::prot(bits),
        Arch::Riscv => Riscv::prot(bits),
    }
}

// The address in the direct map that stands for a physical address, if one does.
fn direct_address(header: &MiniHeader, pa: u64) -> Option<u64>
    ensures { result ≡ direct_address header.now pa }
{
    if pa < header.dmapphys {
        return None;
    }
    let offset = pa - header.dmapphys;
    if offset < header.dmapend.saturating_sub(header.dmapbase) {
        Some(offset + header.dmapbase)
    } else {
        None
    }
}

impl Vmcore {
    // The page at a physical address.
    pub(crate) fn page_at(&self, pa: u64, kva: Option<u64>, prot: u8, place: u64) -> Page
        ensures { result ≡ page_at self.now.sections.header pa kva prot place }
    {
        Page {
            pa,
            kva,
            dva: direct_address(self.header(), pa),
            prot,
            offset: place,
            len: 4096,
        }
    }

    // The page in which a physical address lies that an address of the kernel window is mapped to, if it is dumped.
    fn dumped_page(&self, va: u64, prot: u8, pa: u128) -> Option<Page>
        ensures page { result ≡ dumped_page self.now.sections (Some va) prot pa }
        ensures number { IfSome result (HasNumber self.now.sections) }
    {
        match self.find(pa) {
            Some(place) => {
                let first = (pa / 4096 * 4096) as u64;
                Some(self.page_at(first, Some(va), prot, place))
            }
            None => None,
        }
    }

    // The same by an entry of height 0.
    fn page_by_entry(&self, va: u64, bits: u64) -> Option<Page>
        ensures page { result ≡ by_last_entry self.now.sections va bits (kind_of self.now.sections.header.arch bits 0) }
        ensures number { IfSome result (HasNumber self.now.sections) }
    {
        let arch = self.header().arch;
        match entry_kind(arch, bits, 0) {
            Kind::Leaf(address) => {
                let pa = u128::from(address) + u128::from(va % 4096);
                self.dumped_page(va, entry_protection(arch, bits), pa)
            }
            Kind::Absent | Kind::Table(_) => None,
        }
    }

    // The page of a piece of the kernel window, by the directory's entry, its kind and the page table that it names.
    #[tactic(auto, unfolding(crate::specs::Parts::page_by_kind))]
    fn page_by_kind(&self, bits: u64, table: &[u8; 4096], kind: Kind, piece: u64) -> Option<Page>
        requires { self.now.sections.header.kernbase + 4096 * piece < 2 ^ 64 }
        ensures page { result ≡ page_by_kind self.now.sections bits table.now kind (self.now.sections.header.kernbase + 4096 * piece) }
        ensures number { IfSome result (HasNumber self.now.sections) }
    {
        let header = self.header();
        let va = header.kernbase + 4096 * piece;
        match kind {
            Kind::Absent => None,
            Kind::Leaf(address) => {
                let pa = u128::from(address) + u128::from(4096 * piece % unit_of(header));
                self.dumped_page(va, entry_protection(header.arch, bits), pa)
            }
            Kind::Table(_) => {
                let index = (va / 4096 % 512) as usize;
                self.page_by_entry(va, get_u64_le(table, 8 * index))
            }
        }
    }

    // Marks a page by the number of its place in the file.
    fn mark(&self, walked: &mut Bitmap, page: &Page)
        requires number { HasNumber self.now.sections page.now }
        requires marks { length walked.old ≡ set_count self.now.sections.bits }
        ensures { AreMarked self.now.sections (page.now ∷ []) walked.old walked.new }
    {
        walked.set((page.offset - self.first_page()) / 4096);
    }

    // Gives the pages of the pieces from one to another, which an entry of the directory maps, and marks them.
    pub(crate) fn walk_pieces<V: Visit>(
        &self,
        walked: &mut Bitmap,
        visit: &mut V,
        bits: u64,
        table: &[u8; 4096],
        kind: Kind,
        first: u64,
        end: u64,
    ) -> bool
        requires order { first ≤ end }
        requires below { self.now.sections.header.kernbase + 4096 * end < 2 ^ 64 + 4096 }
        requires marks { length walked.old ≡ set_count self.now.sections.bits }
        ensures part { IsPart V.took self.now.sections visit.old visit.new walked.old walked.new result
            (λ pages. AreGiven pages (pages_by_kind self.now.sections bits table.now kind first (end - first)) result) }
    {
        if let Kind::Absent = kind {
            return true;
        }
        for piece in first..end {
            if let Some(page) = self.page_by_kind(bits, table, kind, piece) {
                self.mark(walked, &page);
                if !visit.visit(&page) {
                    return false;
                }
            }
        }
        true
    }
}
