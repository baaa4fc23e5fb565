//! A dump over a directory in which each number names a file.

use crate::partitions::{check, read_sectors};
use crate::saves::{does, dumped, with_dump};
use fd_fake::MemSite;
use fd_info::vmcore_name;
use fd_site::{Failed, Site};
use std::alloc::Global;
use std::process::Abort;
use std::test::Fail;

// Makes an empty file under each number.
fn take_numbers<S: Site>(site: &mut S) -> Result<(), Failed> {
    for number in 0..65536 {
        site.create(vmcore_name(number).as_str())?;
    }
    Ok(())
}

fn with_numbers(rt: &impl Abort, alloc: Global, dump: &[u8]) -> Result<MemSite, Fail> {
    let mut site = with_dump(rt, alloc, dump, 0)?;
    take_numbers(&mut site)?;
    Ok(site)
}

// The partition has this dump.
fn has(rt: &impl Abort, alloc: Global, site: &mut MemSite, dump: &[u8]) -> Result<(), Fail> {
    let mut bytes = vec![in alloc; 0u8; 33792]?;
    read_sectors(rt, site, 97280, &mut bytes);
    assert!(rt; *bytes == *dump);
    Ok(())
}

fn has_no_number<S: Site>(rt: &impl Abort, alloc: Global, site: &mut S) -> Result<(), Fail> {
    check(
        rt,
        alloc,
        site,
        &["savecore"],
        69,
        "refused 62: no number\n",
    )
}

fn saves_below_one<S: Site>(rt: &impl Abort, alloc: Global, site: &mut S) -> Result<(), Fail> {
    let words = ["savecore", "-m", "1"];
    does(rt, alloc, site, &words, "saved vmcore.0 32768\n")
}

// Without a maximum there is no number, and the partition stays.
fn saves_by_its_maximum_alone(
    rt: &impl Abort,
    alloc: Global,
    site: &mut MemSite,
    dump: &[u8],
) -> Result<(), Fail> {
    has_no_number(rt, alloc, site)?;
    has(rt, alloc, site, dump)?;
    saves_below_one(rt, alloc, site)?;
    assert_eq!(rt; site.starved(), 0);
    Ok(())
}

#[test]
fn a_dump_has_no_number_where_65536_are_taken(rt: HostRuntime) -> Result<(), Fail> {
    let alloc = rt.alloc();
    let dump = dumped(&rt, alloc)?;
    let mut site = with_numbers(&rt, alloc, &dump)?;
    saves_by_its_maximum_alone(&rt, alloc, &mut site, &dump)
}
