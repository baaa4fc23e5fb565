//! Dumps that are saved and cleared, over partitions and files in memory.

ghost use Rattle.std.specs.Prelude.{◌≡◌, [], IfOk};

use crate::dumps::with_image;
use crate::image_files::riscv_image;
use crate::partitions::{
    check, failing_once, header, not_a_command, partition, preset_headers, read_sectors,
};
use crate::stands::holds;
use fd_fake::{MemSite, StopSite};
use fd_kdh::encode;
use fd_site::{Site, good_name};
use std::alloc::Global;
use std::process::Abort;
use std::test::Fail;

// What a command prints, with status 0.
pub(crate) fn does<S: Site>(
    rt: &impl Abort,
    alloc: Global,
    site: &mut S,
    words: &[&str],
    text: &str,
) -> Result<(), Fail> {
    check(rt, alloc, site, words, 0, text)
}

// The partition holds a dump, or a cleared one.
fn is_live<S: Site>(rt: &impl Abort, alloc: Global, site: &mut S) -> Result<(), Fail> {
    does(rt, alloc, site, &["savecore", "-C"], "dump 32768\n")
}

fn is_cleared<S: Site>(rt: &impl Abort, alloc: Global, site: &mut S) -> Result<(), Fail> {
    let words = ["savecore", "-C"];
    check(rt, alloc, site, &words, 1, "refused 3: cleared dump\n")
}

// A file is the minidump of riscv's image, as far as two words of it tell.
fn reads_as_the_image<S: Site>(
    rt: &impl Abort,
    alloc: Global,
    site: &mut S,
    name: &str,
) -> Result<(), Fail> {
    let words = ["read", name, "0xffffffd000001000", "16"];
    let text = "ffffffd000001000 00 10 00 80 00 00 00 00 08 10 00 80 00 00 00 00\n";
    does(rt, alloc, site, &words, text)
}

fn has_texts<S: Site>(rt: &impl Abort, alloc: Global, site: &mut S) -> Result<(), Fail> {
    holds(
        rt,
        alloc,
        site,
        "info.0",
        b"Dump header from device: dumpdev\n  Architecture: riscv64\n  Architecture Version: 1\n  Dump Length: 32768\n  Blocksize: 512\n  Compression: none\n  Dumptime: 1700000000\n  Hostname: rv\n  Magic: FreeBSD Kernel Dump\n  Version String: FreeBSD 14\n  Panic String: test\n  Dump Parity: 0x0d4fe538\n  Bounds: 0\n  Dump Status: good\n",
    )?;
    holds(rt, alloc, site, "bounds", b"1\n")
}

fn saves_and_reads<S: Site>(rt: &impl Abort, alloc: Global, site: &mut S) -> Result<(), Fail> {
    does(rt, alloc, site, &["dump", "a.img"], "dumped 32768\n")?;
    does(rt, alloc, site, &["savecore"], "saved vmcore.0 32768\n")?;
    has_texts(rt, alloc, site)?;
    reads_as_the_image(rt, alloc, site, "vmcore.0")?;
    does(
        rt,
        alloc,
        site,
        &["read", "vmcore.0", "0xffffffd000001000", "0"],
        "",
    )?;
    saves_by_force(rt, alloc, site)
}

fn saves_by_force<S: Site>(rt: &impl Abort, alloc: Global, site: &mut S) -> Result<(), Fail> {
    let words = ["savecore"];
    check(rt, alloc, site, &words, 1, "refused 3: cleared dump\n")?;
    let words = ["savecore", "-f", "-k"];
    does(rt, alloc, site, &words, "saved vmcore.1 32768\n")?;
    does(rt, alloc, site, &["savecore", "-C", "-f"], "dump 32768\n")
}

#[test]
fn a_dump_is_saved_and_read(rt: HostRuntime) -> Result<(), Fail> {
    let alloc = rt.alloc();
    let mut site = with_image(alloc, 131072, Vec::new(alloc), riscv_image(alloc)?)?;
    saves_and_reads(&rt, alloc, &mut site)
}

// A partition with the headers of a dump.
fn with_headers(alloc: Global) -> Result<MemSite, Fail>
    ensures { IfOk result (λ site. site.disk.journal ≡ []) }
{
    let sector = encode(&header(512));
    let mut site = partition(alloc, 131072, 512)?;
    preset_headers(&mut site, &sector, &sector);
    Ok(site)
}

fn clears<S: Site>(rt: &impl Abort, alloc: Global, site: &mut S) -> Result<(), Fail> {
    does(rt, alloc, site, &["savecore", "-c"], "cleared\n")?;
    let words = ["savecore", "-c"];
    check(rt, alloc, site, &words, 1, "refused 3: cleared dump\n")?;
    is_cleared(rt, alloc, site)?;
    does(rt, alloc, site, &["savecore", "-c", "-f"], "cleared\n")?;
    let words = ["savecore", "-f", "-m", "65536"];
    does(rt, alloc, site, &words, "saved vmcore.0 32768\n")
}

#[test]
fn a_dump_is_cleared_without_saving(rt: HostRuntime) -> Result<(), Fail> {
    let alloc = rt.alloc();
    let mut site = with_headers(alloc)?;
    clears(&rt, alloc, &mut site)
}

// A partition with the headers of a dump, and a file.
fn with_file(rt: &impl Abort, alloc: Global, name: &str, bytes: &[u8]) -> Result<MemSite, Fail> {
    let file = bytes.to_vec(alloc)?;
    let mut site = with_headers(alloc)?;
    assert!(rt; good_name(name));
    site.preset_file(name, file)?;
    Ok(site)
}

// A dump that is saved beside a file, and then the next number.
fn saves_beside(
    rt: &impl Abort,
    alloc: Global,
    file: (&str, &[u8]),
    words: &[&str],
    saved: (&str, &[u8]),
) -> Result<(), Fail> {
    let (name, bytes) = file;
    let (line, next) = saved;
    let mut site = with_file(rt, alloc, name, bytes)?;
    saves_and_has_next(rt, alloc, &mut site, words, line, next)
}

fn saves_and_has_next<S: Site>(
    rt: &impl Abort,
    alloc: Global,
    site: &mut S,
    words: &[&str],
    line: &str,
    next: &[u8],
) -> Result<(), Fail> {
    does(rt, alloc, site, words, line)?;
    holds(rt, alloc, site, "bounds", next)
}

#[test]
fn a_number_is_taken_that_is_free(rt: HostRuntime) -> Result<(), Fail> {
    let alloc = rt.alloc();
    let save = ["savecore"].as_slice();
    let below_5 = ["savecore", "-m", "5"].as_slice();
    for (name, bytes, words, line, next) in [
        (
            "vmcore.0",
            b"x".as_slice(),
            save,
            "saved vmcore.1 32768\n",
            b"2\n".as_slice(),
        ),
        (
            "info.0",
            b"x".as_slice(),
            save,
            "saved vmcore.1 32768\n",
            b"2\n".as_slice(),
        ),
        (
            "bounds",
            b"65535\n".as_slice(),
            save,
            "saved vmcore.65535 32768\n",
            b"65536\n".as_slice(),
        ),
        (
            "bounds",
            b"7\n".as_slice(),
            below_5,
            "saved vmcore.0 32768\n",
            b"1\n".as_slice(),
        ),
        (
            "bounds",
            b"4\n".as_slice(),
            below_5,
            "saved vmcore.4 32768\n",
            b"5\n".as_slice(),
        ),
        (
            "bounds",
            b"many\n".as_slice(),
            save,
            "saved vmcore.0 32768\n",
            b"1\n".as_slice(),
        ),
        (
            "vmcore.0",
            b"x".as_slice(),
            below_5,
            "saved vmcore.0 32768\n",
            b"1\n".as_slice(),
        ),
    ]
    .as_slice()
    {
        saves_beside(&rt, alloc, (*name, *bytes), *words, (*line, *next))?;
    }
    Ok(())
}

// Dumps the image, and gives the partition's bytes from the leading header on.
fn dump_and_take(rt: &impl Abort, alloc: Global, site: &mut MemSite) -> Result<Vec<u8>, Fail> {
    does(rt, alloc, site, &["dump", "a.img"], "dumped 32768\n")?;
    let mut bytes = vec![in alloc; 0u8; 33792]?;
    read_sectors(rt, site, 97280, &mut bytes);
    Ok(bytes)
}

// The headers of the dump of riscv's image with what stands between them.
pub(crate) fn dumped(rt: &impl Abort, alloc: Global) -> Result<Vec<u8>, Fail> {
    let mut site = with_image(alloc, 131072, Vec::new(alloc), riscv_image(alloc)?)?;
    dump_and_take(rt, alloc, &mut site)
}

// A partition that has had this dump from the start, of which one call fails; the 0th never comes.
pub(crate) fn with_dump(
    rt: &impl Abort,
    alloc: Global,
    dump: &[u8],
    failing: u64,
) -> Result<MemSite, Fail>
    ensures { IfOk result (λ site. site.disk.journal ≡ []) }
{
    assert_eq!(rt; dump.len(), 33792);
    let mut site = failing_once(alloc, 131072, failing)?;
    site.preset_part(97280, dump);
    Ok(site)
}

// The same beside a file `vmcore.0`.
fn beside_a_file(
    rt: &impl Abort,
    alloc: Global,
    dump: &[u8],
    failing: u64,
) -> Result<MemSite, Fail> {
    let file = b"x".to_vec(alloc)?;
    let mut site = with_dump(rt, alloc, dump, failing)?;
    site.preset_file("vmcore.0", file)?;
    Ok(site)
}

// It was saved beside a file that stays.
fn is_saved_beside<S: Site>(
    rt: &impl Abort,
    alloc: Global,
    site: &mut S,
    name: &str,
) -> Result<(), Fail> {
    is_cleared(rt, alloc, site)?;
    reads_as_the_image(rt, alloc, site, name)?;
    holds(rt, alloc, site, "vmcore.0", b"x")
}

// A save whose call fails prints nothing and leaves the dump on the partition, and the next one saves it, under a number of
// its own where the first had begun a file.
fn fails_and_saves(
    rt: &impl Abort,
    alloc: Global,
    site: &mut MemSite,
    line: &str,
    name: &str,
) -> Result<(), Fail> {
    check(rt, alloc, site, &["savecore"], 74, "")?;
    is_live(rt, alloc, site)?;
    does(rt, alloc, site, &["savecore"], line)?;
    is_saved_beside(rt, alloc, site, name)?;
    assert_eq!(rt; site.starved(), 0);
    Ok(())
}

fn fails_at(
    rt: &impl Abort,
    alloc: Global,
    dump: &[u8],
    failing: u64,
    line: &str,
    name: &str,
) -> Result<(), Fail> {
    let mut site = beside_a_file(rt, alloc, dump, failing)?;
    fails_and_saves(rt, alloc, &mut site, line, name)
}

// How many calls a save takes.
fn calls_of_save(rt: &impl Abort, alloc: Global, dump: &[u8]) -> Result<u64, Fail> {
    let mut site = beside_a_file(rt, alloc, dump, 0)?;
    does(
        rt,
        alloc,
        &mut site,
        &["savecore"],
        "saved vmcore.1 32768\n",
    )?;
    Ok(site.calls())
}

fn fails_at_each_call(rt: &impl Abort, alloc: Global, dump: &[u8]) -> Result<(), Fail> {
    let calls = calls_of_save(rt, alloc, dump)?;
    assert_eq!(rt; calls, 31);
    for failing in 1..=calls {
        // The seventh call makes the dump's file.
        let (line, name) = match failing {
            1..=7 => ("saved vmcore.1 32768\n", "vmcore.1"),
            _ => ("saved vmcore.2 32768\n", "vmcore.2"),
        };
        fails_at(rt, alloc, dump, failing, line, name)?;
    }
    Ok(())
}

#[test]
fn a_dump_of_whose_save_any_call_fails_is_still_there(rt: HostRuntime) -> Result<(), Fail> {
    let alloc = rt.alloc();
    fails_at_each_call(&rt, alloc, &dumped(&rt, alloc)?)
}

// The first file isn't made: there is none yet.
fn fails_at_the_first_file<S: Site>(
    rt: &impl Abort,
    alloc: Global,
    site: &mut S,
) -> Result<(), Fail> {
    check(rt, alloc, site, &["savecore"], 74, "")?;
    is_live(rt, alloc, site)?;
    let words = ["read", "vmcore.0", "0xffffffd000001000", "1"];
    check(rt, alloc, site, &words, 65, "refused 41: no file\n")
}

#[test]
fn a_dump_whose_file_is_not_made_is_live(rt: HostRuntime) -> Result<(), Fail> {
    let alloc = rt.alloc();
    let mut site = with_dump(&rt, alloc, &dumped(&rt, alloc)?, 6)?;
    fails_at_the_first_file(&rt, alloc, &mut site)
}

// Saves until the machine stops that may write so many more sectors to the partition.
fn save_until(
    rt: &impl Abort,
    alloc: Global,
    site: &mut MemSite,
    sectors: u64,
    status: u8,
    text: &str,
) -> Result<(), Fail> {
    let mut stop = StopSite::new(site, sectors);
    check(rt, alloc, &mut stop, &["savecore"], status, text)
}

// Before the clearing the dump is live, and its files are whole.
fn stops_before_clearing(rt: &impl Abort, alloc: Global, site: &mut MemSite) -> Result<(), Fail> {
    save_until(rt, alloc, site, 0, 74, "")?;
    is_live(rt, alloc, site)?;
    has_texts(rt, alloc, site)?;
    reads_as_the_image(rt, alloc, site, "vmcore.0")
}

// After its one sector the dump is cleared, and its files are whole.
fn stops_after_clearing(rt: &impl Abort, alloc: Global, site: &mut MemSite) -> Result<(), Fail> {
    save_until(rt, alloc, site, 1, 0, "saved vmcore.0 32768\n")?;
    is_cleared(rt, alloc, site)?;
    has_texts(rt, alloc, site)?;
    reads_as_the_image(rt, alloc, site, "vmcore.0")
}

#[test]
fn a_machine_that_stops_at_the_clearing_has_the_files(rt: HostRuntime) -> Result<(), Fail> {
    let alloc = rt.alloc();
    let mut site = with_dump(&rt, alloc, &dumped(&rt, alloc)?, 0)?;
    stops_before_clearing(&rt, alloc, &mut site)
}

#[test]
fn a_machine_that_stops_after_the_clearing_has_the_files(rt: HostRuntime) -> Result<(), Fail> {
    let alloc = rt.alloc();
    let mut site = with_dump(&rt, alloc, &dumped(&rt, alloc)?, 0)?;
    stops_after_clearing(&rt, alloc, &mut site)
}

// A save that fails while it writes `info.1` leaves `vmcore.1` whole.
fn fails_in_texts<S: Site>(rt: &impl Abort, alloc: Global, site: &mut S) -> Result<(), Fail> {
    check(rt, alloc, site, &["savecore"], 74, "")?;
    holds(rt, alloc, site, "info.1", b"")?;
    reads_as_the_image(rt, alloc, site, "vmcore.1")
}

// The next one leaves what was begun.
fn saves_behind_what_was_begun<S: Site>(
    rt: &impl Abort,
    alloc: Global,
    site: &mut S,
) -> Result<(), Fail> {
    does(rt, alloc, site, &["savecore"], "saved vmcore.2 32768\n")?;
    holds(rt, alloc, site, "vmcore.0", b"x")?;
    reads_as_the_image(rt, alloc, site, "vmcore.1")?;
    holds(rt, alloc, site, "info.1", b"")?;
    holds(rt, alloc, site, "bounds", b"3\n")
}

fn fails_and_saves_behind<S: Site>(
    rt: &impl Abort,
    alloc: Global,
    site: &mut S,
) -> Result<(), Fail> {
    fails_in_texts(rt, alloc, site)?;
    saves_behind_what_was_begun(rt, alloc, site)
}

#[test]
fn a_lost_number_is_not_written_over(rt: HostRuntime) -> Result<(), Fail> {
    let alloc = rt.alloc();
    let mut site = beside_a_file(&rt, alloc, &dumped(&rt, alloc)?, 26)?;
    fails_and_saves_behind(&rt, alloc, &mut site)
}

#[test]
fn options_that_exclude_each_other_are_no_command(rt: HostRuntime) -> Result<(), Fail> {
    let alloc = rt.alloc();
    not_a_command(&rt, alloc, &["savecore", "-C", "-k"])?;
    not_a_command(&rt, alloc, &["savecore", "-C", "-c"])?;
    not_a_command(&rt, alloc, &["savecore", "-m", "0"])?;
    not_a_command(&rt, alloc, &["savecore", "-m", "65537"])?;
    not_a_command(&rt, alloc, &["savecore", "-m"])?;
    not_a_command(&rt, alloc, &["savecore", "vmcore.0"])
}

#[test]
fn a_bad_partition_is_not_saved(rt: HostRuntime) -> Result<(), Fail> {
    let alloc = rt.alloc();
    let mut site = partition(alloc, 1000, 512)?;
    let words = ["savecore"];
    check(
        &rt,
        alloc,
        &mut site,
        &words,
        65,
        "refused 45: partition 1000 block 512\n",
    )
}
