//! The ranges of available memory, and the wanted pages.
ghost use Rattle.std.specs.Prelude.{◌≡◌, ◌^◌, ◌<◌, ◌≤◌, All, IfOk, map};
ghost use Rattle.fd_image.specs.Image.{end_of};
ghost use Rattle.fd_gen.specs.Generated.{extent_of, wanted_pages};

use crate::layout::{TABLES, data_address};
use fd_image::Seg;
use std::alloc::{AllocError, Global};

/// All memory of these segments, as pairs of a first address and the address past the last.
pub fn extents(alloc: Global, segs: &[Seg]) -> Result<Vec<(u64, u64)>, AllocError>
    requires { All (λ seg. end_of seg < 2 ^ 64) segs.now }
    ensures { IfOk result (λ pairs. pairs.items ≡ map extent_of segs.now) }
{
    let mut pairs = Vec::with_capacity(alloc, segs.len())?;
    for seg in segs {
        pairs.push((seg.start, seg.start + seg.bytes.len() as u64))?;
    }
    Ok(pairs)
}

/// The wanted pages of an image with so many pages of data.
pub fn wanted_pages(alloc: Global, pages: u64) -> Result<Vec<u64>, AllocError>
    requires { pages < 2 ^ 15 }
    ensures { IfOk result (λ wanted. wanted.items ≡ wanted_pages pages) }
{
    let mut wanted = vec![in alloc; TABLES]?;
    for page in 0..pages {
        if page % 6 == 2 {
            wanted.push(data_address(pages, page))?;
        }
    }
    Ok(wanted)
}
