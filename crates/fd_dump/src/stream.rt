//! The minidump of a machine image in pieces.
ghost use Rattle.std.specs.Prelude.{◌≡◌, ◌*◌, ◌%◌, ◌≤◌, ◌^◌, [], drop, length, option_copied, unwrap_or};
ghost use Rattle.fd_dump.specs.Minidump.{minidump_of};
ghost use Rattle.fd_dump.specs.Plan.{IsPlanOf};

use crate::plan::Plan;
use fd_image::Image;
use fd_site::Pieces;

/// How many pages are lent at most as one piece, which has 1 MiB then.
const MOST_PAGES: u64 = 256;

/// The pieces of a minidump. The pages before the dumped ones are made one at a time, in the stream's own buffer; the
/// dumped ones are lent by the image, as many at once as follow one another there, up to 1 MiB. No piece takes memory.
#[derive(Drop)]
pub struct Stream<'a> {
    plan: &'a Plan,
    image: &'a Image,
    // The index of the page that comes next, and of the one past the last.
    next: u64,
    end: u64,
    // The current piece, where the image lends it. Else it is the page in the buffer.
    lent: Option<&'a [u8]>,
    page: [u8; 4096],
    ghost made: { IsPlanOf plan.now image.now },
    ghost whole: { 4096 * end ≡ length (minidump_of image.now) },
}

impl Plan {
    /// The minidump in pieces. The plan was prepared of the image.
    pub fn pieces<'a>(&'a self, image: &'a Image) -> Stream<'a>
        requires { IsPlanOf self.now image.now }
        ensures to_come { ⟦<Stream<'a> as Pieces>⟧.to_come result ≡ minidump_of image.now }
        ensures pages { length (minidump_of image.now) % 4096 ≡ 0 }
        ensures small { length (minidump_of image.now) ≤ 2 ^ 62 }
        ensures current { ⟦<Stream<'a> as Pieces>⟧.current result ≡ [] }
    {
        Stream {
            plan: self,
            image,
            next: 0,
            end: self.length() / 4096,
            lent: Some(&[]),
            page: [0; 4096],
        }
    }
}

impl<'a> Pieces for Stream<'a> {
    ghost to_come = { λ stream. drop (4096 * stream.next) (minidump_of stream.image.now) };

    ghost current = { λ stream. unwrap_or (option_copied stream.lent) stream.page };

    fn advance(&mut self) -> bool {
        if self.next >= self.end {
            self.lent = Some(&[]);
            return false;
        }
        let front = self.plan.front_pages();
        if self.next < front {
            self.plan.front_page(self.image, self.next, &mut self.page);
            self.lent = None;
            self.next += 1;
            return true;
        }
        let run = self.plan.run_at(self.image, self.next - front, MOST_PAGES);
        self.lent = Some(run);
        self.next += run.len() as u64 / 4096;
        true
    }

    fn piece(&self) -> &[u8] {
        match self.lent {
            Some(bytes) => bytes,
            None => &self.page,
        }
    }
}
