//! What keeps saved evidence: links, turns, locks and the partition that was judged.

use crate::partition::Partition;
use crate::{Access, Claim, DirSite};
use fd_site::{Failed, Site, good_name};
use std::fs;
use std::os::unix::fs::{PermissionsExt, symlink};
use std::path::PathBuf;
use std::process::Abort;
use std::test::Fail;

const WRITES: Claim = Claim {
    partition: Some(Access::Write),
    makes_files: true,
};

const READS: Claim = Claim {
    partition: Some(Access::Read),
    makes_files: false,
};

// Makes a file of four bytes.
fn make_file<S: Site>(rt: &impl Abort, site: &mut S, name: &str) -> Result<(), Failed> {
    assert!(rt; good_name(name));
    site.create(name)?;
    write_file(rt, site, name, 0)
}

// Writes four bytes to a file that is there.
fn write_file<S: Site>(rt: &impl Abort, site: &mut S, name: &str, at: u64) -> Result<(), Failed> {
    assert!(rt; good_name(name));
    match site.file_len(name)? {
        Some(_) => site.write_file(name, at, b"text"),
        None => Err(Failed),
    }
}

#[test]
fn a_file_is_made_at_no_link(rt: HostRuntime) -> Result<(), Fail> {
    fs::create_dir_all(&rt, "links")?;
    fs::write(&rt, "links/other", b"kept")?;
    symlink(&rt, "other", "links/link")?;
    symlink(&rt, "nothing", "links/dangling")?;
    let mut site = DirSite::open(&rt, "links", 512)?;
    assert!(rt; make_file(&rt, &mut site, "link").is_err());
    assert!(rt; make_file(&rt, &mut site, "dangling").is_err());
    assert_eq!(rt; fs::read_to_string(&rt, "links/other")?.as_str(), "kept");
    assert!(rt; !fs::exists(&rt, "links/nothing")?);
    fs::remove_dir_all(&rt, "links")?;
    Ok(())
}

#[test]
fn a_file_that_is_written_over_becomes_private(rt: HostRuntime) -> Result<(), Fail> {
    fs::create_dir_all(&rt, "private")?;
    fs::write(&rt, "private/old", b"long text")?;
    let mut site = DirSite::open(&rt, "private", 512)?;
    make_file(&rt, &mut site, "old")?;
    make_file(&rt, &mut site, "new")?;
    make_file(&rt, &mut site, "new")?;
    assert_eq!(rt; fs::read_to_string(&rt, "private/old")?.as_str(), "text");
    assert_eq!(rt;
        fs::metadata(&rt, "private/old")?.permissions().mode() & 0o7777,
        0o600
    );
    assert_eq!(rt;
        fs::metadata(&rt, "private/new")?.permissions().mode() & 0o7777,
        0o600
    );
    fs::remove_dir_all(&rt, "private")?;
    Ok(())
}

#[test]
fn files_that_are_written_in_turn_stay_open(rt: HostRuntime) -> Result<(), Fail> {
    fs::create_dir_all(&rt, "turns")?;
    let mut site = DirSite::open(&rt, "turns", 512)?;
    make_file(&rt, &mut site, "one")?;
    make_file(&rt, &mut site, "two")?;
    fs::rename(&rt, "turns/one", "turns/moved")?;
    fs::write(&rt, "turns/one", b"other")?;
    write_file(&rt, &mut site, "one", 4)?;
    assert_eq!(rt; fs::read_to_string(&rt, "turns/one")?.as_str(), "other");
    assert_eq!(rt;
        fs::read_to_string(&rt, "turns/moved")?.as_str(),
        "texttext"
    );
    fs::remove_dir_all(&rt, "turns")?;
    Ok(())
}

#[test]
fn two_programs_write_no_file_at_once(rt: HostRuntime) -> Result<(), Fail> {
    fs::create_dir_all(&rt, "claimed")?;
    let mut one = DirSite::open(&rt, "claimed", 512)?;
    let mut other = DirSite::open(&rt, "claimed", 512)?;
    make_file(&rt, &mut one, "core")?;
    assert!(rt; make_file(&rt, &mut other, "core").is_err());
    fs::remove_dir_all(&rt, "claimed")?;
    Ok(())
}

#[test]
fn a_partition_that_is_written_is_nobody_elses(rt: HostRuntime) -> Result<(), Fail> {
    fs::create_dir_all(&rt, "shared")?;
    fs::write(&rt, "shared/dumpdev", [0; 1024])?;
    let mut one = DirSite::open(&rt, "shared", 512)?;
    let mut other = DirSite::open(&rt, "shared", 512)?;
    one.claim(READS)?;
    other.claim(READS)?;
    assert!(rt; one.claim(WRITES).is_err());
    fs::remove_dir_all(&rt, "shared")?;
    Ok(())
}

// Writes the partition's first sector.
fn write_sector<S: Site>(rt: &impl Abort, site: &mut S) -> Result<(), Failed> {
    assert_eq!(rt; site.size(), 1024);
    site.write_part(0, &[1; 512])
}

#[test]
fn a_partition_that_was_replaced_is_not_written(rt: HostRuntime) -> Result<(), Fail> {
    fs::create_dir_all(&rt, "replaced")?;
    fs::write(&rt, "replaced/dumpdev", [0; 1024])?;
    fs::write(&rt, "replaced/other", [0; 1024])?;
    let mut site = DirSite::open(&rt, "replaced", 512)?;
    site.claim(WRITES)?;
    fs::rename(&rt, "replaced/other", "replaced/dumpdev")?;
    assert!(rt; write_sector(&rt, &mut site).is_err());
    assert!(rt;
        fs::read(&rt, "replaced/dumpdev")?
            .iter()
            .all(|byte| *byte == 0)
    );
    fs::remove_dir_all(&rt, "replaced")?;
    Ok(())
}

#[test]
fn a_partition_that_changed_its_size_is_not_written(rt: HostRuntime) -> Result<(), Fail> {
    fs::create_dir_all(&rt, "grown")?;
    fs::write(&rt, "grown/dumpdev", [0; 1024])?;
    let mut site = DirSite::open(&rt, "grown", 512)?;
    fs::write(&rt, "grown/dumpdev", [0; 1536])?;
    assert!(rt; write_sector(&rt, &mut site).is_err());
    assert!(rt;
        fs::read(&rt, "grown/dumpdev")?
            .iter()
            .all(|byte| *byte == 0)
    );
    fs::remove_dir_all(&rt, "grown")?;
    Ok(())
}

#[test]
fn a_write_that_ends_in_the_last_block_is_synced(rt: HostRuntime) -> Result<(), Fail> {
    fs::create_dir_all(&rt, "last")?;
    fs::write(&rt, "last/dumpdev", [0; 2048])?;
    let path = PathBuf::from_str(rt.alloc(), "last/dumpdev")?;
    let mut partition = Partition::open(&rt, path, 1024)?;
    partition.write(&rt, &[1; 1024], 0)?;
    assert!(rt; !partition.synced);
    partition.write(&rt, &[1; 1024], 512)?;
    assert!(rt; partition.synced);
    fs::remove_dir_all(&rt, "last")?;
    Ok(())
}
