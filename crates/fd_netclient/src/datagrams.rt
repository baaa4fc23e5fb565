//! The datagrams of a machine image's dump.

ghost use Rattle.std.specs.Prelude.{◌≡◌, ◌≢◌, ◌+◌, ◌<◌, ◌≤◌, ◌^◌, take};
ghost use Rattle.fd_dump.specs.Header.{header_of};
ghost use Rattle.fd_dump.specs.Minidump.{minidump_of};
ghost use Rattle.fd_dump.specs.Plan.{IsPlanOf};
ghost use Rattle.fd_netclient.specs.Datagram.{chunks, datagram};

use fd_dump::Plan;
use fd_image::Image;
use fd_kdh::encode;
use fd_netmsg::{FINISHED, HERALD, KDH, VMCORE, put_message};

/// What is sent of an image: its minidump, in chunks of 4096 bytes, and the header of its dump on a device whose blocks
/// have 512 bytes.
#[derive(Drop)]
pub(crate) struct Datagrams<'a> {
    plan: &'a Plan,
    pub(crate) image: &'a Image,
    count: u32,
    ghost made: { IsPlanOf plan.now image.now },
    ghost counted: { count ≡ chunks (minidump_of image.now) },
}

impl<'a> Datagrams<'a> {
    /// Those of the image. The plan was prepared of it.
    pub fn new(plan: &'a Plan, image: &'a Image) -> Datagrams<'a>
        requires { IsPlanOf plan.now image.now }
        ensures plan { result.plan.now ≡ plan.now }
        ensures image { result.image.now ≡ image.now }
    {
        Datagrams {
            plan,
            image,
            count: (plan.length() / 4096) as u32,
        }
    }

    /// How many chunks there are.
    pub fn chunks(&self) -> u32
        ensures value { result ≡ chunks (minidump_of self.now.image.now) }
        ensures some { 1 ≤ result }
        ensures few { result ≤ 2 ^ 30 }
    {
        self.count
    }

    /// Writes the datagram of a number to the front of `out`, and answers how many bytes it has.
    pub fn put(&self, number: u32, out: &mut [u8; 4120]) -> usize
        ensures len { result ≤ 4120 }
        ensures bytes { take result out.new ≡ datagram (minidump_of self.now.image.now) (header_of self.now.image.now 512) number }
    {
        if number == 1 {
            return put_message(HERALD, number, 0, &[], out);
        }
        if number < self.count + 2 {
            return self.put_chunk(number, out);
        }
        if number == self.count + 2 {
            let header = encode(&self.plan.header(self.image, 512));
            return put_message(KDH, number, 0, &header, out);
        }
        put_message(FINISHED, number, 0, &[], out)
    }

    // The same for the number of a chunk: the first one's is 2.
    fn put_chunk(&self, number: u32, out: &mut [u8; 4120]) -> usize
        requires { number < chunks (minidump_of self.now.image.now) + 2 }
        ensures len { result ≤ 4120 }
        ensures bytes { number ≢ 1 → take result out.new ≡ datagram (minidump_of self.now.image.now) (header_of self.now.image.now 512) number }
    {
        let index = u64::from(number.saturating_sub(2));
        let mut page = [0; 4096];
        self.plan.page_at(self.image, index, &mut page);
        put_message(VMCORE, number, 4096 * index, &page, out)
    }
}
