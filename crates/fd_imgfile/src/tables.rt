//! The tables behind the fields.
ghost use Rattle.std.specs.Prelude.{◌≡◌, ◌+◌, ◌*◌, ◌≤◌, ◌++◌, IfOk, length, map, sum};
ghost use Rattle.std.specs.List.{flat_map};
ghost use Rattle.fd_imgfile.specs.Front.{HasCounts, IsWithinLimits, bytes_of, lengths_in, second, tables_length, texts_length};
ghost use Rattle.fd_imgfile.specs.Spelling.{u64, avail_bytes, seg_bytes};

use crate::front::{Front, tables_length, texts_length};
use fd_bytes::{Page, get_u64_le};
use fd_image::Seg;
use std::alloc::{AllocError, Global};

/// How many numbers a buffer of the table of wanted pages has.
pub(crate) const NUMBERS: usize = 512;

/// Each segment's start and length, each pair of available memory, and the wanted pages.
#[derive(Drop)]
pub(crate) struct Tables {
    pub(crate) segs: Vec<(u64, u64)>,
    pub(crate) avail: Vec<(u64, u64)>,
    pub(crate) wanted: Vec<u64>,
}

/// The tables, of which the first has these bytes, and the other two those that follow.
pub(crate) fn tables_in(
    alloc: Global,
    table: &[u8],
    ranges: &[u8],
    front: &Front,
) -> Result<Tables, AllocError>
    requires table { length table.now ≡ 16 * front.now.segs }
    requires ranges { length ranges.now ≡ 16 * front.now.avail + 8 * front.now.wanted }
    requires limits { IsWithinLimits front.now }
    ensures spelling { IfOk result (λ t. bytes_of t ≡ table.now ++ ranges.now) }
    ensures counts { IfOk result (λ t. HasCounts t front.now) }
    ensures lengths { IfOk result (λ t. map second t.segs.items ≡ lengths_in table.now front.now.segs) }
{
    let avail = front.avail as usize;
    let wanted_at = 16 * avail;
    Ok(Tables {
        segs: read_pairs(alloc, table, front.segs as usize)?,
        avail: read_pairs(alloc, &ranges[..wanted_at], avail)?,
        wanted: read_numbers(alloc, &ranges[wanted_at..], front.wanted as usize)?,
    })
}

/// The length that the tables give the file, of which the first has these bytes.
pub(crate) fn whole_length(front: &Front, table: &[u8]) -> u128
    requires room { length table.now ≡ 16 * front.now.segs }
    requires few { front.now.segs ≤ 64 }
    ensures { result ≡ 112 + tables_length front.now + texts_length front.now + sum (lengths_in table.now front.now.segs) }
{
    let mut len = 112 + u128::from(tables_length(front)) + u128::from(texts_length(front));
    for i in 0..front.segs as usize {
        len += u128::from(get_u64_le(table, 16 * i + 8));
    }
    len
}

fn read_pairs(alloc: Global, bytes: &[u8], count: usize) -> Result<Vec<(u64, u64)>, AllocError>
    requires { length bytes.now ≡ 16 * count }
    ensures spelling { IfOk result (λ pairs. flat_map avail_bytes pairs.items ≡ bytes.now) }
    ensures count { IfOk result (λ pairs. length pairs.items ≡ count) }
    ensures seconds { IfOk result (λ pairs. map second pairs.items ≡ lengths_in bytes.now count) }
{
    let mut pairs = Vec::new(alloc);
    for i in 0..count {
        let first = get_u64_le(bytes, 16 * i);
        let second = get_u64_le(bytes, 16 * i + 8);
        pairs.push((first, second))?;
    }
    Ok(pairs)
}

fn read_numbers(alloc: Global, bytes: &[u8], count: usize) -> Result<Vec<u64>, AllocError>
    requires { length bytes.now ≡ 8 * count }
    ensures spelling { IfOk result (λ numbers. flat_map u64 numbers.items ≡ bytes.now) }
    ensures count { IfOk result (λ numbers. length numbers.items ≡ count) }
{
    let mut numbers = Vec::new(alloc);
    for i in 0..count {
        numbers.push(get_u64_le(bytes, 8 * i))?;
    }
    Ok(numbers)
}

/// The table of these segments.
pub(crate) fn segs_page(segs: &[Seg]) -> Page<1024>
    requires { length segs.now ≤ 64 }
    ensures { result ≡ flat_map seg_bytes segs.now }
{
    let mut page = Page::new();
    for seg in segs {
        page.put_u64_le(seg.start);
        page.put_u64_le(seg.bytes.len() as u64);
    }
    page
}

/// The table of these pairs of available memory.
pub(crate) fn avail_page(avail: &[(u64, u64)]) -> Page<16384>
    requires { length avail.now ≤ 1024 }
    ensures { result ≡ flat_map avail_bytes avail.now }
{
    let mut page = Page::new();
    for pair in avail {
        page.put_u64_le(pair.0);
        page.put_u64_le(pair.1);
    }
    page
}

/// These numbers, one after another.
pub(crate) fn numbers_page(numbers: &[u64]) -> Page<4096>
    requires { length numbers.now ≤ 512 }
    ensures { result ≡ flat_map u64 numbers.now }
{
    let mut page = Page::new();
    for number in numbers {
        page.put_u64_le(*number);
    }
    page
}
