//! Saving dumps over partitions in memory.

ghost use Rattle.std.specs.Prelude.{◌≡◌, [], IfOk};

use crate::partitions::{failing_partition, small};
use fd_fake::MemSite;
use fd_judge::Why;
use fd_kdh::encode;
use fd_part::good_partition;
use fd_save::{Options, SaveFault, Saved, clear, save};
use fd_site::Site;
use std::alloc::{AllocError, Global};
use std::process::Abort;
use std::test::Fail;

// A partition of 131072 bytes with this dump, on which these calls fail.
fn dumped(alloc: Global, fails: Vec<u64>) -> Result<MemSite, AllocError>
    ensures { IfOk result (λ site. site.disk.journal ≡ []) }
{
    let mut site = failing_partition(alloc, 131_072, 512, fails)?;
    let sector = encode(&small());
    site.preset_part(97280, &sector);
    site.preset_part(130_560, &sector);
    Ok(site)
}

fn try_save<S: Site>(
    rt: &impl Abort,
    site: &mut S,
    force: bool,
    max: Option<u32>,
) -> Result<Saved, SaveFault> {
    assert!(rt; good_partition(site.size(), site.block()));
    save(site, Options { force, max })
}

// The number that the dump is saved under, if it is saved.
fn number<S: Site>(rt: &impl Abort, site: &mut S, max: Option<u32>) -> Option<u32> {
    match try_save(rt, site, false, max) {
        Ok(saved) => Some(saved.number),
        Err(_) => None,
    }
}

// Why it isn't saved, if it isn't.
fn fault<S: Site>(rt: &impl Abort, site: &mut S, force: bool) -> Option<SaveFault> {
    match try_save(rt, site, force, None) {
        Ok(_) => None,
        Err(fault) => Some(fault),
    }
}

fn clears<S: Site>(rt: &impl Abort, site: &mut S) -> bool {
    match try_save(rt, site, false, None) {
        Ok(saved) => {
            assert!(rt; good_partition(site.size(), site.block()));
            clear(site, &saved).is_ok()
        }
        Err(_) => false,
    }
}

fn numbers_follow<S: Site>(rt: &impl Abort, site: &mut S) {
    assert_eq!(rt; number(rt, site, None), Some(7));
    assert_eq!(rt; number(rt, site, None), Some(8));
    assert_eq!(rt; number(rt, site, Some(5)), Some(0));
    assert_eq!(rt; number(rt, site, Some(5)), Some(1));
}

fn clears_once<S: Site>(rt: &impl Abort, site: &mut S) {
    assert!(rt; clears(rt, site));
    assert_eq!(rt;
        fault(rt, site, false),
        Some(SaveFault::Refused(Why::Cleared))
    );
    assert_eq!(rt; fault(rt, site, true), None);
}

fn fails_and_saves<S: Site>(rt: &impl Abort, site: &mut S) {
    assert_eq!(rt; fault(rt, site, false), Some(SaveFault::SiteFault));
    assert_eq!(rt; number(rt, site, None), Some(0));
}

#[test]
fn numbers_follow_bounds(rt: HostRuntime) -> Result<(), Fail> {
    let alloc = rt.alloc();
    let mut site = dumped(alloc, Vec::new(alloc))?;
    site.preset_file("bounds", Vec::from_slice(alloc, b"7\n")?)?;
    numbers_follow(&rt, &mut site);
    Ok(())
}

#[test]
fn a_number_that_is_taken_is_passed_over(rt: HostRuntime) -> Result<(), Fail> {
    let alloc = rt.alloc();
    let mut site = dumped(alloc, Vec::new(alloc))?;
    site.preset_file("vmcore.0", Vec::new(alloc))?;
    site.preset_file("info.1", Vec::new(alloc))?;
    assert_eq!(rt; number(&rt, &mut site, None), Some(2));
    Ok(())
}

#[test]
fn a_cleared_dump_is_saved_by_force_alone(rt: HostRuntime) -> Result<(), Fail> {
    let alloc = rt.alloc();
    let mut site = dumped(alloc, Vec::new(alloc))?;
    clears_once(&rt, &mut site);
    Ok(())
}

#[test]
fn a_dump_is_saved_after_a_fault(rt: HostRuntime) -> Result<(), Fail> {
    let alloc = rt.alloc();
    let mut site = dumped(alloc, vec![in alloc; 6]?)?;
    fails_and_saves(&rt, &mut site);
    Ok(())
}
