//! A file that was opened.
ghost use Rattle.std.specs.Prelude.{◌≡◌, ◌*◌, ◌%◌, ◌^◌, ◌<◌, length, IfSome, IsTrue};
ghost use Rattle.fd_site.specs.Name.{is_good_name};
ghost use Rattle.fd_mini.specs.Places.{places_of};
ghost use Rattle.fd_vmcore.specs.Sections.{page_offset};
ghost use Rattle.fd_kvm.specs.Parts.{first_place};

use fd_bitmap::{Bitmap, Counted, Steps};
use fd_mini::MiniHeader;
use fd_vmcore::Core;
use std::marker::Model;

// Looks for pages in the bitmap, which no one counts here.
struct Looks;

impl Counted for Looks {}

/// A file that was opened: its name, and its sections. Its pages are read through a cache that the caller keeps.
#[derive(Drop)]
pub(crate) struct Vmcore {
    pub(crate) name: String,
    pub(crate) core: Core,
}

impl Model for Vmcore {
    ghost use Rattle.std.specs.Prelude.{IsTrue, string_bytes};
    ghost use Rattle.fd_site.specs.Name.{is_good_name};
    ghost use Rattle.fd_kvm.specs.OpenFile.{OpenFile};

    ghost Value = { OpenFile };

    ghost view = { λ vmcore. record { name = string_bytes vmcore.name; sections = vmcore.core } };

    ghost invariant = { λ vmcore. IsTrue (is_good_name (string_bytes vmcore.name)) };
}

impl Vmcore {
    // The file's name.
    pub(crate) fn name(&self) -> &str
        ensures text { result.now ≡ self.now.name }
        ensures good { IsTrue (is_good_name self.now.name) }
    {
        self.name.as_str()
    }

    // The fields of the header page.
    pub(crate) fn header(&self) -> &MiniHeader
        ensures { result.now ≡ self.now.sections.header }
    {
        self.core.header()
    }

    // The bits, eight for each byte of the bitmap.
    pub(crate) fn map(&self) -> &Bitmap
        ensures bits { result.now ≡ self.now.sections.bits }
        ensures len { length self.now.sections.bits ≡ 8 * self.now.sections.header.bitmapsize }
    {
        self.core.map()
    }

    // Where the page directory begins in the file.
    pub(crate) fn directory(&self) -> u64
        ensures place { result ≡ (places_of self.now.sections.header).directory }
        ensures whole { result % 4096 ≡ 0 }
        ensures limit { result < 2 ^ 62 }
    {
        self.core.places().directory
    }

    // Where the dumped pages begin in the file.
    pub(crate) fn first_page(&self) -> u64
        ensures place { result ≡ first_place self.now.sections }
        ensures limit { result < 2 ^ 62 }
    {
        self.core.places().pages
    }

    // Where the page of a physical address stands in the file, if it is dumped. An address in a direct map may have more
    // than 64 bits, and no page has such an address.
    pub(crate) fn find(&self, pa: u128) -> Option<u64>
        ensures place { result ≡ page_offset self.now.sections pa }
        ensures whole { IfSome result (λ page. page % 4096 ≡ 0) }
        ensures limit { IfSome result (λ page. page < 2 ^ 62) }
        ensures low { IfSome result (λ _. pa < 2 ^ 64) }
    {
        match u64::try_from(pa) {
            Ok(pa) => self.core.find(pa, &mut Steps::<Looks>::new()),
            Err(_) => {
                self.core.no_page_is_past_the_top();
                None
            }
        }
    }
}
