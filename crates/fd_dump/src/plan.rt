//! What is prepared before a dump is written.
ghost use Rattle.std.specs.Prelude.{◌≡◌, length, IfOk};
ghost use Rattle.fd_bitmap.specs.Pages.{pages_of};
ghost use Rattle.fd_image.specs.Image.{MachineImage};
ghost use Rattle.fd_kdh.specs.Header.{FitsFields};
ghost use Rattle.fd_mini.specs.Places.{places_of};
ghost use Rattle.fd_dump.specs.Header.{header_of};
ghost use Rattle.fd_dump.specs.Minidump.{minidump_of};
ghost use Rattle.fd_dump.specs.Plan.{IsPlanOf};

use crate::dumped::dumped_bits;
use crate::header_page::mini_header;
use fd_bitmap::{Avail, AvailFault, Bitmap, RankIndex};
use fd_bytes::Label;
use fd_image::Image;
use fd_kdh::Header;
use fd_mini::{MiniHeader, Places, places_of};
use std::alloc::{AllocError, Global};
use std::marker::Model;

/// What is known of a machine image's minidump before any of it is written: the fields of the header page, the pages
/// that have a bit, and for each whether it is dumped. The minidump is made of these and the image, a piece at a time;
/// that takes no memory.
#[derive(Drop)]
pub struct Plan {
    pub(crate) header: MiniHeader,
    pub(crate) avail: Avail,
    pub(crate) map: Bitmap,
    pub(crate) index: RankIndex,
    pub(crate) dumped: u64,
}

impl Model for Plan {
    ghost use Rattle.fd_dump.specs.Plan.{Planned, IsKept};

    ghost Value = { Planned };

    ghost view = { λ plan. record { header = plan.header; pages = plan.avail; bits = plan.map } };

    ghost invariant = { λ plan. IsKept plan.header plan.map plan.index plan.dumped };
}

impl Plan {
    /// The plan of the image's dump.
    pub fn prepare(alloc: Global, image: &Image) -> Result<Plan, AllocError>
        ensures { IfOk result (λ plan. IsPlanOf plan image.now) }
    {
        let avail = pages_of(alloc, image)?;
        let map = dumped_bits(alloc, image, &avail)?;
        let index = RankIndex::new(alloc, &map)?;
        let header = mini_header(image, avail.bits());
        let dumped = map.count();
        Ok(Plan {
            header,
            avail,
            map,
            index,
            dumped,
        })
    }

    /// How many bytes the minidump has: a multiple of 4096.
    pub fn length(&self) -> u64
        ensures { (m : MachineImage) → IsPlanOf self.now m → result ≡ length (minidump_of m) }
    {
        self.places().pages + 4096 * self.dumped
    }

    /// Where the sections begin.
    pub(crate) fn places(&self) -> Places
        ensures { result ≡ places_of self.now.header }
    {
        places_of(&self.header)
    }

    /// The header of the image's dump on a device with such blocks, in bytes: neither compressed nor encrypted, with
    /// the image's texts cut to their fields. The plan was prepared of the image.
    pub fn header(&self, image: &Image, block: u32) -> Header
        requires { IsPlanOf self.now image.now }
        ensures value { result ≡ header_of image.now block }
        ensures labels { FitsFields result }
    {
        self.fields(image, block)
    }

    // The header's fields.
    fn fields(&self, image: &Image, block: u32) -> Header
        requires { IsPlanOf self.now image.now }
        ensures { result ≡ header_of image.now block }
    {
        let arch = image.arch();
        let texts = image.texts();
        let length = self.length();
        Header {
            architecture: Label::cut(arch.name()),
            architectureversion: arch.header_version(),
            dumplength: length,
            dumptime: texts.time,
            dumpkeysize: 0,
            blocksize: block,
            hostname: Label::cut(texts.host.as_slice()),
            versionstring: Label::cut_version(texts.version.as_slice()),
            panicstring: Label::cut(texts.panic.as_slice()),
            compression: 0,
            dumpextent: length,
        }
    }
}

/// The pages of the image's available memory.
fn pages_of(alloc: Global, image: &Image) -> Result<Avail, AllocError>
    ensures { IfOk result (λ avail. avail ≡ pages_of image.now.avail) }
{
    match Avail::new(alloc, image.avail()) {
        Ok(avail) => Ok(avail),
        Err(AvailFault::NoMemory) => Err(AllocError),
        // A valid image's ranges follow one another.
        Err(AvailFault::BadAvail(_)) => unreachable!(),
    }
}
