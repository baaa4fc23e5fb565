//! What walks of leaves meet.
ghost use Rattle.std.specs.Prelude.{◌≡◌, ◌≤◌, ◌+◌, ◌^◌};
ghost use Rattle.fd_image.specs.Physical.{word_of};
ghost use Rattle.fd_pte.specs.Amd64.{amd64_kind};
ghost use Rattle.fd_walk.specs.PageTables.{tables_of};
ghost use Rattle.fd_walk.specs.Ranges.{leaves_in};
ghost use Rattle.fd_bench.specs.Tally.{tally_after};

use crate::failure::Failure;
use fd_bytes::Arch;
use fd_gen::make;
use fd_image::Image;
use fd_pte::Amd64;
use fd_walk::Walker;
use std::alloc::Global;
use std::fmt;

/// The first address of the image's kernel window. The kernel addresses from there on are `MOST_GIGABYTES`.
const WINDOW: u64 = 0xffff_fe00_0000_0000;

const MOST_GIGABYTES: u64 = 2048;

/// How many leaves were met, and the sum of their physical addresses, both modulo 2^64.
#[derive(Clone, Copy)]
pub struct Tally {
    pub leaves: u64,
    pub sum: u64,
}

impl Tally {
    /// The tally after another walk of the leaves of the `bytes` addresses from `from` on.
    pub fn after_walk(self, image: &Image, from: u64, bytes: u64) -> Tally
        requires { from + bytes ≤ 2 ^ 64 }
        ensures { result ≡ tally_after self (leaves_in (tables_of (word_of image.now) amd64_kind 4 image.now.root) from bytes) }
    {
        let mut tally = self;
        for leaf in Walker::<Amd64, 4>::leaves(image, image.root(), from, bytes) {
            tally = Tally {
                leaves: tally.leaves.wrapping_add(1),
                sum: tally.sum.wrapping_add(leaf.pa),
            };
        }
        tally
    }
}

/// What walks of the first gigabytes of the kernel window of a number's image meet.
pub fn walked(alloc: Global, number: u64, gigabytes: u64, rounds: u64) -> Result<Tally, Failure> {
    if gigabytes > MOST_GIGABYTES {
        return Err(Failure::NotWords);
    }
    let image = make(alloc, Arch::Amd64, number)?;
    let mut tally = Tally { leaves: 0, sum: 0 };
    for _ in 0..rounds {
        // A round goes on with the tally of the one before, so that none can be left out.
        tally = tally.after_walk(&image, WINDOW, gigabytes << 30);
    }
    Ok(tally)
}

impl fmt::Display for Tally {
    fn fmt<W: fmt::Write>(&self, f: &mut fmt::Formatter<W>) -> fmt::Result {
        let leaves = self.leaves;
        let sum = self.sum;
        write!(f, "{leaves} leaves, their addresses add up to {sum}")
    }
}
