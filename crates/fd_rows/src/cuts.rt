//! Dumps that stop after any sector, over partitions on which nothing stands, another dump, or one that was cleared.

use crate::partitions::check_line;
use crate::stands::{Setting, body, bytes_of, holds, put_back};
use fd_fake::{MemSite, StopSite};
use std::alloc::Global;
use std::process::Abort;
use std::test::Fail;

// The block; what stands before; the words; after how many sectors the new dump is found, and after how many it is written.
type Case = (u32, &'static str, &'static str, u64, u64);

static CASES: [Case; 6] = [
    (512, "none", "dump b.img", 58, 58),
    (512, "cleared", "dump b.img", 58, 58),
    (512, "cleared", "dump -i b.img", 58, 58),
    (512, "live", "dump -i b.img", 59, 59),
    (4096, "none", "dump -i b.img", 65, 72),
    (4096, "live", "dump -i b.img", 66, 73),
];

// Writes the dump until the machine stops that may write so many sectors to the partition.
fn dump_until(
    rt: &impl Abort,
    alloc: Global,
    site: &mut MemSite,
    case: Case,
    sectors: u64,
) -> Result<(), Fail> {
    let (_, _, words, _, whole) = case;
    let (status, text) = if sectors < whole {
        (74, "")
    } else {
        (0, "dumped 28672\n")
    };
    let mut stop = StopSite::new(site, sectors);
    check_line(rt, alloc, &mut stop, words, status, text)
}

// What is found then. The first sector that is written over a live dump marks it.
fn found_after(case: Case, sectors: u64) -> &'static str {
    let (_, stood, _, found, _) = case;
    if sectors >= found {
        return "new";
    }
    if sectors > 0 && stood == "live" {
        return "cleared";
    }
    stood
}

// What stands: the old dump as it was, or the new one with its headers' blocks.
fn stands_whole(
    rt: &impl Abort,
    alloc: Global,
    site: &mut MemSite,
    setting: &Setting,
    new: &[u8],
    found: &str,
) -> Result<(), Fail> {
    let now = bytes_of(rt, alloc, site)?;
    let at = 12288_usize.saturating_sub((setting.block as usize).saturating_mul(2));
    match found {
        "live" => assert!(rt; *now == *setting.live),
        "new" => assert!(rt; now.get(at..) == new.get(at..)),
        _ => (),
    }
    Ok(())
}

// `savecore` then saves the dump that stands as `vmcore.0`, or refuses.
fn saves_what_stands(
    rt: &impl Abort,
    alloc: Global,
    site: &mut MemSite,
    setting: &Setting,
    new: &[u8],
    found: &str,
) -> Result<(), Fail> {
    let (status, text, saved) = match found {
        "live" => (0, "saved vmcore.0 32768\n", Some(setting.dump())),
        "new" => (
            0,
            "saved vmcore.0 28672\n",
            Some(body(new, setting.block, 28672)),
        ),
        "cleared" => (1, "refused 3: cleared dump\n", None),
        _ => (1, "refused 1: no dump\n", None),
    };
    check_line(rt, alloc, site, "savecore -m 1", status, text)?;
    if let Some(saved) = saved {
        holds(rt, alloc, site, "vmcore.0", saved)?;
    }
    Ok(())
}

fn stops_anywhere(rt: &impl Abort, alloc: Global, case: Case) -> Result<(), Fail> {
    let (block, stood, words, _, whole) = case;
    let setting = Setting::new(rt, alloc, block)?;
    let new = setting.dumped(rt, alloc, "dump b.img", "dumped 28672\n")?;
    let mut site = setting.site(rt, alloc, stood, words, 0)?;
    let before = bytes_of(rt, alloc, &mut site)?;
    for sectors in 0..=whole {
        put_back(rt, &mut site, &before);
        dump_until(rt, alloc, &mut site, case, sectors)?;
        let found = found_after(case, sectors);
        stands_whole(rt, alloc, &mut site, &setting, &new, found)?;
        saves_what_stands(rt, alloc, &mut site, &setting, &new, found)?;
    }
    assert_eq!(rt; site.starved(), 0);
    Ok(())
}

#[test]
fn wherever_it_stops_the_old_dump_or_none_or_the_new_one_is_saved(
    rt: HostRuntime,
) -> Result<(), Fail> {
    let alloc = rt.alloc();
    for case in CASES.as_slice() {
        stops_anywhere(&rt, alloc, *case)?;
    }
    Ok(())
}
