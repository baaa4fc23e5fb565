//! The words of data: each tells the image's number and its own physical address.
ghost use Rattle.std.specs.Prelude.{◌^◌, ◌<◌};

use crate::segment::Words;

/// A segment of data: the image's number, and the segment's first address.
#[derive(Clone, Copy)]
pub struct Data {
    pub number: u64,
    pub start: u64,
    ghost low: { start < 2 ^ 40 },
}

impl Words for Data {
    ghost use Rattle.std.specs.Prelude.{◌+◌, ◌*◌};
    ghost use Rattle.fd_gen.specs.Generated.{data_word};

    ghost word_at = { λ segment page index. data_word segment.number (segment.start + 4096 * page + 8 * index) };

    fn word(&self, page: u64, index: u64) -> u64 {
        let pa = self.start + 4096 * page + 8 * index;
        pa.wrapping_add(self.number.wrapping_mul(1 << 40))
    }
}
