//! Pages of a file in memory.
use crate::Pages;
use fd_fake::MemSite;
use fd_site::{Site, good_name};
use std::alloc::Global;
use std::process::Abort;
use std::test::Fail;

// A site with a file of two pages: the first of sevens, the second of nines.
fn two_pages(alloc: Global, fails: Vec<u64>) -> Result<MemSite, Fail> {
    let mut site = MemSite::new(alloc, 512, 512, fails)?;
    let mut bytes = vec![in alloc; 7u8; 8192]?;
    bytes[4096..].fill(9);
    site.preset_file("core", bytes)?;
    Ok(site)
}

// Reads the first page twice, then the second, which fails, and that again.
fn read_four<S: Site>(rt: &impl Abort, alloc: Global, site: &mut S) -> Result<(), Fail> {
    assert!(rt; good_name("core"));
    match site.file_len("core")? {
        Some(len) => assert!(rt; 8192 <= len),
        None => return Ok(()),
    }
    let mut pages = Pages::new(alloc, 1)?;
    let mut page = [0; 4096];
    pages.read(site, "core", 0, &mut page)?;
    page[0] = 1;
    pages.read(site, "core", 0, &mut page)?;
    assert_eq!(rt; page[0], 7);
    assert!(rt; pages.read(site, "core", 4096, &mut page).is_err());
    pages.read(site, "core", 4096, &mut page)?;
    assert_eq!(rt; page[4095], 9);
    Ok(())
}

#[test]
fn a_page_that_is_kept_costs_no_call(rt: HostRuntime) -> Result<(), Fail> {
    let alloc = rt.alloc();
    let mut site = two_pages(alloc, vec![in alloc; 3]?)?;
    read_four(&rt, alloc, &mut site)?;
    assert_eq!(rt; site.calls(), 4);
    Ok(())
}
