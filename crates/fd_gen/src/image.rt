//! The image of an architecture and a number.
ghost use Rattle.std.specs.Prelude.{◌≡◌, IfOk};
ghost use Rattle.fd_gen.specs.Generated.{generated, segments};

use crate::data::Data;
use crate::layout::{
    FIRST_DATA, SECOND_DATA, TABLES, data_pages, first_pages, last_tables, upper_tables, windows_of,
};
use crate::ranges::{extents, wanted_pages};
use crate::segment::segment;
use crate::tables::Tables;
use crate::texts::texts_of;
use fd_bytes::Arch;
use fd_image::{Image, Parts, Seg, Sequence};
use std::alloc::{AllocError, Global};

/// The image of a number. Its low 14 bits tell how many pages of data it has, from 8 to 16391, and all its bits what
/// stands in them. `Err` where there is not as much memory.
pub fn make(alloc: Global, arch: Arch, number: u64) -> Result<Image, AllocError>
    ensures { IfOk result (λ image. image ≡ generated arch number) }
{
    match Image::new(parts(alloc, arch, number)?) {
        Ok(image) => Ok(image),
        // A generated image keeps all rules.
        Err(_) => unreachable!(),
    }
}

#[tactic(auto, unfolding(crate::specs::Generated::generated))]
fn parts(alloc: Global, arch: Arch, number: u64) -> Result<Parts, AllocError>
    ensures { IfOk result (λ parts. parts ≡ generated arch number) }
{
    let pages = data_pages(number);
    let segs = segments(alloc, arch, number)?;
    let avail = extents(alloc, &segs)?;
    let wanted = wanted_pages(alloc, pages)?;
    let texts = texts_of(alloc, number)?;
    Ok(Parts {
        arch,
        sv48: false,
        segs: Sequence::new(segs),
        avail: Sequence::new(avail),
        wanted: Sequence::new(wanted),
        root: TABLES,
        windows: windows_of(arch, pages),
        texts,
    })
}

#[tactic(auto, unfolding(crate::specs::Generated::segments))]
fn segments(alloc: Global, arch: Arch, number: u64) -> Result<Vec<Seg>, AllocError>
    ensures { IfOk result (λ segs. segs.items ≡ segments arch number) }
{
    let pages = data_pages(number);
    let first = first_pages(pages);
    let tables = upper_tables(arch) + last_tables(pages);
    let mut segs = Vec::with_capacity(alloc, 3)?;
    segs.push(segment(alloc, &Tables { arch, pages }, TABLES, tables)?)?;
    let start = FIRST_DATA;
    segs.push(segment(alloc, &Data { number, start }, start, first)?)?;
    let start = SECOND_DATA;
    segs.push(segment(alloc, &Data { number, start }, start, pages - first)?)?;
    Ok(segs)
}
