//! An open vmcore.
ghost use Rattle.std.specs.Prelude.{◌≡◌, ℕ, ◌+◌, ◌*◌, ◌≤◌, ◌<◌, ◌^◌, IfSome, IsErrOf, IsTrue, List, None, Ok, Some, length};
ghost use Rattle.fd_site.specs.Contents.{Told, file_of};
ghost use Rattle.fd_site.specs.Fault.{Rose};
ghost use Rattle.fd_site.specs.Name.{is_good_name};
ghost use Rattle.fd_site.specs.Seen.{Untouched};
ghost use Rattle.fd_bitmap.specs.Pages.{page_of};
ghost use Rattle.fd_mini.specs.Places.{places_of};
ghost use Rattle.fd_vmcore.specs.Parts.{HasLength};
ghost use Rattle.fd_vmcore.specs.Sections.{IsAnswer, IsOpening, by_header, offset_of_bit, page_offset, pages_end};
ghost use Rattle.fd_vmcore.specs.declared.open.OpenFault.TheVariants.{SiteFault};

use crate::open::OpenFault;
use crate::parts::{read_avail, read_bitmap};
use fd_bitmap::{Avail, Bitmap, RankIndex, Steps};
use fd_mini::{MiniHeader, Places, places_of, read_header};
use fd_site::Site;
use std::alloc::Global;
use std::marker::Model;

/// The sections of a vmcore, without its dumped pages. Contracts see its header page, the pages that have a bit, in the
/// order of their bits, and the bits.
#[derive(Drop)]
pub struct Core {
    header: MiniHeader,
    avail: Avail,
    map: Bitmap,
    index: RankIndex,
}

impl Model for Core {
    ghost use Rattle.fd_vmcore.specs.Sections.{Sections};
    ghost use Rattle.fd_vmcore.specs.Kept.{IsKept};

    ghost Value = { Sections };

    ghost view = { λ core. record { header = core.header; pages = core.avail; bits = core.map } };

    ghost invariant = { λ core. IsKept core.header core.avail core.map core.index };
}

impl Core {
    /// Opens the file of this name, or answers the first reason to refuse it. A file that is longer than its header
    /// tells is accepted. The dumped pages aren't read.
    pub fn open<S: Site>(alloc: Global, site: &mut S, name: &str) -> Result<Core, OpenFault>
        requires { IsTrue (is_good_name name.now) }
        ensures opening { Told (S.seen site.old).told (λ c. IsOpening (file_of c name.now) result) }
        ensures untouched { Untouched (S.seen site.old) (S.seen site.new) }
        ensures cause { IsErrOf result SiteFault → Rose (S.seen site.old).faults (S.seen site.new).faults }
    {
        match site.file_len(name)? {
            Some(len) => open_file(alloc, site, name, len),
            None => Err(OpenFault::NoFile),
        }
    }

    /// The fields of the header page.
    pub fn header(&self) -> &MiniHeader
        ensures { result.now ≡ self.now.header }
    {
        &self.header
    }

    /// Where the sections begin in the file.
    pub fn places(&self) -> Places
        ensures places { result ≡ places_of self.now.header }
        ensures limit { result.pages < 2 ^ 36 }
    {
        places_of(&self.header)
    }

    /// The bits, eight for each byte of the bitmap. A bit that is set says that its page is dumped, where it has one.
    pub fn map(&self) -> &Bitmap
        ensures bits { result.now ≡ self.now.bits }
        ensures len { length result.now ≡ 8 * self.now.header.bitmapsize }
    {
        &self.map
    }

    /// The address of the page that the ranges give to a bit, whether it is set or not, or None where they give it to none.
    pub fn bit_page(&self, bit: u64) -> Option<u64>
        ensures { result ≡ page_of self.now.pages bit }
    {
        self.avail.page_of(bit)
    }

    /// Where the page of a physical address stands in the file, or None where it isn't dumped. Looks at no more than eight
    /// words of the bits below it.
    pub fn find<L>(&self, pa: u64, steps: &mut Steps<L>) -> Option<u64>
        ensures place { result ≡ page_offset self.now pa }
        ensures limit { IfSome result (λ place. place < 2 ^ 62) }
        ensures steps { steps.new ≤ steps.old + 8 }
    {
        self.place_of(self.avail.bit_of(pa)?, steps)
    }

    /// A law: no page has an address of 2^64 or more, which an address in a direct map may stand for.
    pub fn no_page_is_past_the_top(&self)
        ensures { (pa : ℕ) → 2 ^ 64 ≤ pa → page_offset self.now pa ≡ None }
    {
        // Looking at a field makes the invariant known.
        let _avail = &self.avail;
    }

    // Where the page of this bit stands in the file, if the bit is set.
    fn place_of<L>(&self, bit: u64, steps: &mut Steps<L>) -> Option<u64>
        ensures place { result ≡ offset_of_bit self.now bit }
        ensures limit { IfSome result (λ place. place < 2 ^ 62) }
        ensures steps { steps.new ≤ steps.old + 8 }
    {
        if !self.map.has(bit) {
            return None;
        }
        Some(self.places().pages + 4096 * self.index.rank(&self.map, bit, steps))
    }

    // Where the dumped pages end.
    fn pages_end(&self) -> u64
        ensures { result ≡ pages_end self.now }
    {
        self.places().pages + 4096 * self.map.count()
    }
}

// Opens a file of this length.
fn open_file<S: Site>(alloc: Global, site: &mut S, name: &str, len: u64) -> Result<Core, OpenFault>
    requires name { IsTrue (is_good_name name.now) }
    requires len { Told (S.seen site.old).told (λ c. HasLength (file_of c name.now) len) }
    ensures opening { Told (S.seen site.old).told (λ c. IsOpening (file_of c name.now) result) }
    ensures untouched { Untouched (S.seen site.old) (S.seen site.new) }
    ensures cause { IsErrOf result SiteFault → Rose (S.seen site.old).faults (S.seen site.new).faults }
{
    if len < 4096 {
        return Err(OpenFault::Short(4096, len));
    }
    let mut page = [0; 4096];
    site.read_file(name, 0, &mut page)?;
    match read_header(&page) {
        Ok(header) => open_sections(alloc, site, name, len, header),
        Err(fault) => Err(OpenFault::Mini(fault)),
    }
}

// Opens a file of this length with this header page.
fn open_sections<S: Site>(
    alloc: Global,
    site: &mut S,
    name: &str,
    len: u64,
    header: MiniHeader,
) -> Result<Core, OpenFault>
    requires name { IsTrue (is_good_name name.now) }
    requires len { Told (S.seen site.old).told (λ c. HasLength (file_of c name.now) len) }
    requires limit { header.bitmapsize ≤ 2 ^ 26 }
    ensures opening { Told (S.seen site.old).told (λ c. (f : List ℕ) → file_of c name.now ≡ Some f → IsAnswer (by_header f (Ok header)) ((places_of header).pages ≤ length f) result) }
    ensures untouched { Untouched (S.seen site.old) (S.seen site.new) }
    ensures cause { IsErrOf result SiteFault → Rose (S.seen site.old).faults (S.seen site.new).faults }
{
    let pages = places_of(&header).pages;
    if len < pages {
        return Err(OpenFault::Short(pages, len));
    }
    let avail = read_avail(alloc, site, name, &header)?;
    let map = read_bitmap(alloc, site, name, &header)?;
    let index = RankIndex::new(alloc, &map)?;
    let core = Core {
        header,
        avail,
        map,
        index,
    };
    let need = core.pages_end();
    if len < need {
        return Err(OpenFault::Short(need, len));
    }
    Ok(core)
}
