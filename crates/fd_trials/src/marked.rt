//! What judging answers when a dump that marks first stops over one that stands on the partition.

ghost use Rattle.std.specs.Prelude.{◌≡◌, ◌≤◌, ◌%◌, ◌^◌, length};

use crate::partitions::{failing_partition, header, partition};
use crate::verdicts::{block_of, earlier, earlier_partition, is_dump, refusal, tear};
use fd_fake::{MemSite, StopSite};
use fd_judge::Why;
use fd_kdh::{CLEARED_MAGIC, LIVE_MAGIC, encode};
use fd_part::{PartFault, good_partition, write_dump, write_marked};
use fd_site::{Site, SlicePieces};
use std::alloc::Global;
use std::process::Abort;
use std::test::Fail;

// The dump that stands there: 64 sectors. The new one has 56, so that a marked one has 59 with its mark and its headers.
const OLD: [u8; 32768] = [7; 32768];

const NEW: [u8; 28672] = [9; 28672];

// What a writer answers that a site stops or fails.
const STOPPED: Option<PartFault> = Some(PartFault::SiteFault);

// Writes a dump as far as the site takes it, marked or not, and answers why it isn't whole.
fn dump<S: Site>(rt: &impl Abort, site: &mut S, body: &[u8], marks: bool) -> Option<PartFault>
    requires pages { length body.now % 4096 ≡ 0 }
    requires small { length body.now ≤ 2 ^ 62 }
{
    assert!(rt; good_partition(site.size(), site.block()));
    let mut pieces = SlicePieces::new(body);
    let header = header(site.block(), body.len() as u64);
    if marks {
        write_marked(site, &mut pieces, &header).err()
    } else {
        write_dump(site, &mut pieces, &header, None).err()
    }
}

// Puts the old dump there, and writes the new one through a site that stops after so many sectors.
fn over_the_old<S: Site>(
    rt: &impl Abort,
    site: &mut S,
    sectors: u64,
    marks: bool,
) -> Option<PartFault> {
    assert_eq!(rt; dump(rt, site, &OLD, false), None);
    dump(rt, &mut StopSite::new(site, sectors), &NEW, marks)
}

#[test]
fn before_its_mark_the_old_dump_stands(rt: HostRuntime) -> Result<(), Fail> {
    let mut site = partition(rt.alloc(), 131072, 512)?;
    assert_eq!(rt; over_the_old(&rt, &mut site, 0, true), STOPPED);
    assert!(rt; is_dump(&rt, &mut site, &header(512, 32768), 97792, &OLD)?);
    Ok(())
}

#[test]
fn behind_its_mark_none_is_found(rt: HostRuntime) -> Result<(), Fail> {
    for sectors in [1, 58] {
        let mut site = partition(rt.alloc(), 131072, 512)?;
        assert_eq!(rt; over_the_old(&rt, &mut site, sectors, true), STOPPED);
        assert_eq!(rt; refusal(&rt, &mut site)?, Some(Why::Cleared));
    }
    Ok(())
}

#[test]
fn a_whole_marked_dump_is_found(rt: HostRuntime) -> Result<(), Fail> {
    let mut site = partition(rt.alloc(), 131072, 512)?;
    assert_eq!(rt; over_the_old(&rt, &mut site, 59, true), None);
    assert!(rt; is_dump(&rt, &mut site, &header(512, 28672), 101888, &NEW)?);
    Ok(())
}

// Why a plain dump wants a clear partition: stopped in its body, the old header stands over some of both.
#[test]
fn a_plain_dump_over_another_mixes_them(rt: HostRuntime) -> Result<(), Fail> {
    let mut mixed = OLD;
    mixed[4096..4608].fill(9);
    let mut site = partition(rt.alloc(), 131072, 512)?;
    assert_eq!(rt; over_the_old(&rt, &mut site, 1, false), STOPPED);
    assert!(rt; is_dump(&rt, &mut site, &header(512, 32768), 97792, &mixed)?);
    Ok(())
}

// What an earlier dump has, and a page of the new one. That has two pages, which are two writes. With blocks of 4096 each of
// them, the leading block and the trailing one has eight sectors: 24 stand before the trailing block's, whose first one
// makes the dump whole to a judge.
const ZEROS: [u8; 32768] = [0; 32768];

const PAGE: [u8; 4096] = [9; 4096];

const PAGES: [u8; 8192] = [9; 8192];

const TRAILING: u64 = 24;

// What stands on a partition of 106496 bytes with such blocks before the new dump.
#[derive(Clone, Copy, Debug)]
enum Before {
    Live,
    Cleared,
    Zeros,
}

const BEFORE: [Before; 3] = [Before::Live, Before::Cleared, Before::Zeros];

// What is found there after it.
#[derive(Clone, Copy)]
enum Left {
    Earlier,
    Refused(Why),
    Pages,
}

impl Before {
    // The partition; the calls of these numbers fail.
    fn partition(self, alloc: Global, fails: Vec<u64>) -> Result<MemSite, Fail> {
        match self {
            Before::Live => earlier_partition(alloc, &LIVE_MAGIC, fails),
            Before::Cleared => earlier_partition(alloc, &CLEARED_MAGIC, fails),
            Before::Zeros => Ok(failing_partition(alloc, 106496, 4096, fails)?),
        }
    }

    // How many sectors are written to mark it.
    fn marks(self) -> u64
        ensures { result ≤ 1 }
    {
        match self {
            Before::Live => 1,
            _ => 0,
        }
    }

    // What is left behind the mark.
    fn marked(self) -> Left {
        match self {
            Before::Zeros => Left::Refused(Why::NoMagic),
            _ => Left::Refused(Why::Cleared),
        }
    }

    // What is left before the mark.
    fn unmarked(self) -> Left {
        match self {
            Before::Live => Left::Earlier,
            _ => self.marked(),
        }
    }

    // What is left by so many sectors.
    fn after(self, sectors: u64) -> Left {
        let marks = self.marks();
        if sectors < marks {
            return self.unmarked();
        }
        if sectors - marks <= TRAILING {
            return self.marked();
        }
        Left::Pages
    }
}

fn is_left<S: Site>(rt: &impl Abort, site: &mut S, left: Left) -> Result<bool, Fail> {
    match left {
        Left::Earlier => is_dump(rt, site, &earlier(), 69632, &ZEROS),
        Left::Refused(why) => Ok(refusal(rt, site)? == Some(why)),
        Left::Pages => is_dump(rt, site, &header(4096, 8192), 94208, &PAGES),
    }
}

// Writes the two pages through a site that stops after so many sectors.
fn leaves<S: Site>(
    rt: &impl Abort,
    site: &mut S,
    sectors: u64,
    fault: Option<PartFault>,
    left: Left,
) -> Result<bool, Fail> {
    let stopped = dump(rt, &mut StopSite::new(site, sectors), &PAGES, true);
    Ok(stopped == fault && is_left(rt, site, left)?)
}

fn stops_after(rt: &impl Abort, alloc: Global, before: Before, sectors: u64) -> Result<(), Fail> {
    let whole = sectors == before.marks() + TRAILING + 8;
    let fault = if whole { None } else { STOPPED };
    let mut site = before.partition(alloc, Vec::new(alloc))?;
    let left = leaves(rt, &mut site, sectors, fault, before.after(sectors))?;
    assert!(rt; left, "{before:?} {sectors}");
    Ok(())
}

#[test]
fn wherever_it_stops_the_earlier_dump_or_none_or_the_new_one_is_found(
    rt: HostRuntime,
) -> Result<(), Fail> {
    let alloc = rt.alloc();
    for before in BEFORE.as_slice() {
        for sectors in 0..before.marks() + TRAILING + 9 {
            stops_after(&rt, alloc, *before, sectors)?;
        }
    }
    Ok(())
}

fn fails_at(rt: &impl Abort, alloc: Global, before: Before, call: u64) -> Result<(), Fail> {
    // One call reads, and one marks.
    let left = if call <= 1 + before.marks() {
        before.unmarked()
    } else {
        before.marked()
    };
    let mut site = before.partition(alloc, vec![in alloc; call]?)?;
    let left = leaves(rt, &mut site, u64::MAX, STOPPED, left)?;
    assert!(rt; left, "{before:?} {call}");
    Ok(())
}

#[test]
fn whichever_call_fails_the_earlier_dump_or_none_is_found(rt: HostRuntime) -> Result<(), Fail> {
    let alloc = rt.alloc();
    for before in BEFORE.as_slice() {
        for call in 1..before.marks() + 6 {
            fails_at(&rt, alloc, *before, call)?;
        }
    }
    Ok(())
}

// Writes the two pages up to a block's write, of which these sectors are kept.
fn leaves_torn<S: Site>(
    rt: &impl Abort,
    site: &mut S,
    sectors: u64,
    at: u32,
    block: &[u8],
    kept: u32,
    left: Left,
) -> Result<bool, Fail>
    requires { length block.now ≡ 4096 }
{
    let stopped = dump(rt, &mut StopSite::new(site, sectors), &PAGES, true);
    tear(rt, site, at, block, kept)?;
    Ok(stopped == STOPPED && is_left(rt, site, left)?)
}

fn is_torn(
    rt: &impl Abort,
    alloc: Global,
    before: Before,
    sectors: u64,
    at: u32,
    block: &[u8],
    kept: u32,
) -> Result<(), Fail>
    requires block { length block.now ≡ 4096 }
    requires sectors { sectors ≤ 24 }
{
    let whole = sectors == TRAILING && kept & 1 == 1;
    let left = if whole { Left::Pages } else { before.marked() };
    let sectors = before.marks() + sectors;
    let mut site = before.partition(alloc, Vec::new(alloc))?;
    let left = leaves_torn(rt, &mut site, sectors, at, block, kept, left)?;
    assert!(rt; left, "{before:?} {sectors} {kept}");
    Ok(())
}

// Each sector of a write alone, those between the first and the last, these two, and every other one.
const KEPT: [u32; 12] = [1, 2, 4, 8, 16, 32, 64, 128, 0x7e, 0x81, 0x55, 0xaa];

fn tears(rt: &impl Abort, alloc: Global, before: Before, block: &[u8]) -> Result<(), Fail>
    requires { length block.now ≡ 4096 }
{
    for kept in KEPT.as_slice() {
        is_torn(rt, alloc, before, 0, 94208, &PAGE, *kept)?;
        is_torn(rt, alloc, before, 8, 98304, &PAGE, *kept)?;
        is_torn(rt, alloc, before, 16, 90112, block, *kept)?;
        is_torn(rt, alloc, before, TRAILING, 102400, block, *kept)?;
    }
    Ok(())
}

#[test]
fn whichever_sectors_of_a_write_are_kept_none_or_the_new_one_is_found(
    rt: HostRuntime,
) -> Result<(), Fail> {
    let alloc = rt.alloc();
    let block = block_of(alloc, &encode(&header(4096, 8192)), 0)?;
    for before in BEFORE.as_slice() {
        tears(&rt, alloc, *before, &block)?;
    }
    Ok(())
}
