//! Ranges, bitmaps and their counts, by examples.
ghost use Rattle.std.specs.Prelude.{◌≡◌, length};
ghost use Rattle.fd_bitmap.specs.Ranks.{IsIndexOf};

use fd_bitmap::{Avail, AvailFault, Bitmap, Counted, RankIndex, Steps};
use std::alloc::Global;
use std::mem::size_of;
use std::process::Abort;
use std::test::Fail;

// Two ranges with a gap between them: their pages have the bits 0 to 5, and 6 and 7.
const PAIRS: [(u64, u64); 2] = [(0x10_0000, 0x10_6000), (0x401f_f000, 0x4020_1000)];

fn check_bits(rt: &impl Abort, avail: &Avail) {
    assert_eq!(rt; avail.bits(), 8);
    for (pa, bit) in [
        (0x10_0000, Some(0)),
        (0x10_5000, Some(5)),
        (0x10_5fff, Some(5)),
        (0x10_6000, None),
        (0x401f_efff, None),
        (0x401f_f000, Some(6)),
        (0x4020_0000, Some(7)),
        (0x4020_1000, None),
        (0, None),
        (u64::MAX, None),
    ]
    .as_slice()
    {
        assert_eq!(rt; avail.bit_of(*pa), *bit, "the bit of {pa}");
    }
}

fn check_pages(rt: &impl Abort, avail: &Avail) {
    for (bit, page) in [
        (0, Some(0x10_0000)),
        (5, Some(0x10_5000)),
        (6, Some(0x401f_f000)),
        (7, Some(0x4020_0000)),
        (8, None),
    ]
    .as_slice()
    {
        assert_eq!(rt; avail.page_of(*bit), *page, "the page of {bit}");
    }
}

#[test]
fn bits_go_on_behind_a_gap(rt: HostRuntime) -> Result<(), Fail> {
    let avail = Avail::new(rt.alloc(), &PAIRS)?;
    check_bits(&rt, &avail);
    check_pages(&rt, &avail);
    Ok(())
}

fn check_whole(rt: &impl Abort, avail: &Avail) {
    assert_eq!(rt;
        (avail.page_of(0), avail.page_of(1)),
        (Some(0x1000), Some(0x2000))
    );
    assert_eq!(rt; avail.bits(), (1 << 52) - 1);
    assert_eq!(rt; avail.bit_of(u64::MAX), Some((1 << 52) - 2));
}

#[test]
fn pages_are_whole(rt: HostRuntime) -> Result<(), Fail> {
    let avail = Avail::new(rt.alloc(), &[(0x1fff, 0x2001), (0x3000, u64::MAX)])?;
    check_whole(&rt, &avail);
    Ok(())
}

fn is_bad(rt: &impl Abort, alloc: Global, pairs: &[(u64, u64)], index: usize) {
    let fault = Avail::new(alloc, pairs).err();
    assert_eq!(rt; fault, Some(AvailFault::BadAvail(index)));
}

#[test]
fn the_first_bad_pair_is_named(rt: HostRuntime) {
    let alloc = rt.alloc();
    is_bad(&rt, alloc, &[(0x2000, 0x2000)], 0);
    is_bad(&rt, alloc, &[(0x1000, 0x2001), (0x2fff, 0x4000), (0, 0)], 1);
    is_bad(&rt, alloc, &[(0x5000, 0x6000), (0x1000, 0x2000)], 1);
}

#[test]
fn no_pairs_have_no_bits(rt: HostRuntime) -> Result<(), Fail> {
    let avail = Avail::new(rt.alloc(), &[])?;
    assert_eq!(rt; avail.bits(), 0);
    Ok(())
}

#[test]
fn each_page_is_its_own_bit(rt: HostRuntime) {
    let avail = Avail::identity(1 << 52);
    assert_eq!(rt; avail.bit_of(u64::MAX), Some((1 << 52) - 1));
    assert_eq!(rt; avail.page_of((1 << 52) - 1), Some(u64::MAX - 0xfff));
    assert_eq!(rt; avail.page_of(1 << 52), None);
}

fn set_ten(map: &mut Bitmap)
    requires { length map.old ≡ 10 }
    ensures { length map.new ≡ 10 }
{
    map.set(0);
    map.set_range(3, 5);
    map.set(9);
}

fn check_ten(rt: &impl Abort, map: &Bitmap) {
    assert_eq!(rt; (map.byte(0), map.byte(1), map.byte(2)), (0xf9, 2, 0));
    assert_eq!(rt; map.count(), 7);
    assert!(rt; map.has(9) && !map.has(8) && !map.has(10) && !map.has(u64::MAX));
}

#[test]
fn bits_fill_bytes_from_the_lowest(rt: HostRuntime) -> Result<(), Fail> {
    let mut map = Bitmap::new(rt.alloc(), 10)?;
    set_ten(&mut map);
    check_ten(&rt, &map);
    map.clear_all();
    assert_eq!(rt; map.count(), 0);
    Ok(())
}

fn check_sixteen(rt: &impl Abort, map: &Bitmap) {
    assert_eq!(rt; (map.byte(0), map.byte(1), map.byte(2)), (0xf9, 0x80, 0));
    assert!(rt; map.has(15) && !map.has(14) && map.has(0) && !map.has(1));
    assert_eq!(rt; map.count(), 7);
}

#[test]
fn bytes_are_read_as_they_were_given(rt: HostRuntime) -> Result<(), Fail> {
    let map = Bitmap::from_bytes(rt.alloc(), &[0xf9, 0x80])?;
    check_sixteen(&rt, &map);
    Ok(())
}

// Counts looks at words of bits.
struct Looks;

impl Counted for Looks {}

// The clause proves the count. What runs shows that it costs nothing.
fn two_steps() -> Steps<Looks>
    ensures { result ≡ 2 }
{
    let mut steps = Steps::new();
    steps.tick();
    steps.tick();
    steps
}

#[test]
fn steps_take_no_bytes(rt: HostRuntime) {
    let _steps = two_steps();
    assert_eq!(rt; size_of::<Steps<Looks>>(), 0);
}

fn set_many(map: &mut Bitmap)
    requires { length map.old ≡ 1100 }
    ensures { length map.new ≡ 1100 }
{
    map.set(0);
    map.set_range(60, 10);
    map.set_range(500, 30);
    map.set(1099);
}

fn check_ranks(rt: &impl Abort, map: &Bitmap, index: &RankIndex)
    requires bits { length map.now ≡ 1100 }
    requires made { IsIndexOf map.now index.now }
{
    let mut steps = Steps::<Looks>::new();
    for (bit, rank) in [
        (0, 0),
        (1, 1),
        (64, 5),
        (70, 11),
        (512, 23),
        (530, 41),
        (1024, 41),
        (1099, 41),
        (1100, 42),
    ]
    .as_slice()
    {
        assert!(rt; *bit <= 1100);
        assert_eq!(rt;
            index.rank(map, *bit, &mut steps),
            *rank,
            "the rank of {bit}"
        );
    }
}

fn check_selects(rt: &impl Abort, map: &Bitmap, index: &RankIndex)
    requires made { IsIndexOf map.now index.now }
{
    assert_eq!(rt; map.count(), 42);
    for (rank, bit) in [
        (0, 0),
        (1, 60),
        (5, 64),
        (10, 69),
        (11, 500),
        (23, 512),
        (41, 1099),
    ]
    .as_slice()
    {
        assert!(rt; *rank < 42);
        assert_eq!(rt; index.select(map, *rank), *bit, "the bit of rank {rank}");
    }
}

#[test]
fn ranks_are_counts_and_selects_undo_them(rt: HostRuntime) -> Result<(), Fail> {
    let mut map = Bitmap::new(rt.alloc(), 1100)?;
    set_many(&mut map);
    let index = RankIndex::new(rt.alloc(), &map)?;
    check_ranks(&rt, &map, &index);
    check_selects(&rt, &map, &index);
    Ok(())
}

fn set_some(avail: &Avail, map: &mut Bitmap)
    requires { length map.old ≡ length avail.now }
{
    let mut near = 7;
    avail.set_pages(map, 0x105, 0x40200, &mut near);
    avail.set_pages(map, 0x102, 0x103, &mut near);
    avail.set_pages(map, 0x106, 0x401ff, &mut near);
    avail.set_pages(map, 0x40201, u64::MAX, &mut near);
}

#[test]
fn pages_are_set_in_each_range_that_they_meet(rt: HostRuntime) -> Result<(), Fail> {
    let avail = Avail::new(rt.alloc(), &PAIRS)?;
    let mut map = Bitmap::new(rt.alloc(), avail.bits())?;
    set_some(&avail, &mut map);
    assert_eq!(rt; map.byte(0), 0b0110_0100);
    Ok(())
}
