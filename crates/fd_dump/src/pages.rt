//! The minidump of a machine image, page by page.
ghost use Rattle.std.specs.Prelude.{◌≡◌, ◌+◌, ◌*◌, ◌/◌, ◌%◌, ◌<◌, length, slice_range};
ghost use Rattle.fd_mini.specs.Places.{places_of};
ghost use Rattle.fd_dump.specs.Minidump.{minidump_of};
ghost use Rattle.fd_dump.specs.Plan.{IsPlanOf};

use crate::plan::Plan;
use crate::sections::{avail_page, bitmap_page, directory_page, filled_page};
use fd_image::Image;
use fd_mini::write_header;

impl Plan {
    /// The page of this index of the minidump, the first being 0. The plan was prepared of the image.
    pub fn page_at(&self, image: &Image, index: u64, out: &mut [u8; 4096])
        requires plan { IsPlanOf self.now image.now }
        requires within { index < length (minidump_of image.now) / 4096 }
        ensures { out.new ≡ slice_range (minidump_of image.now) (4096 * index) (4096 * index + 4096) }
    {
        let front = self.front_pages();
        if index < front {
            self.front_page(image, index, out);
        } else {
            out.copy_from_slice(self.run_at(image, index - front, 1));
        }
    }

    /// How many pages there are before the dumped ones.
    pub(crate) fn front_pages(&self) -> u64
        ensures { 4096 * result ≡ (places_of self.now.header).pages }
    {
        self.places().pages / 4096
    }

    /// The page of this index, which isn't a dumped one.
    pub(crate) fn front_page(&self, image: &Image, index: u64, out: &mut [u8; 4096])
        requires plan { IsPlanOf self.now image.now }
        requires front { 4096 * index < (places_of self.now.header).pages }
        ensures { out.new ≡ slice_range (minidump_of image.now) (4096 * index) (4096 * index + 4096) }
    {
        let places = self.places();
        let at = 4096 * index;
        if at < places.msgbuf {
            write_header(&self.header, out);
        } else if at < places.avail {
            filled_page(
                image.texts().msgbuf.as_slice(),
                (at - places.msgbuf) / 4096,
                out,
            );
        } else if at < places.bitmap {
            avail_page(image.avail(), (at - places.avail) / 4096, out);
        } else if at < places.directory {
            bitmap_page(&self.map, (at - places.bitmap) / 4096, out);
        } else {
            directory_page(image, (at - places.directory) / 4096, out);
        }
    }
}
