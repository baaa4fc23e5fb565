//! Partitions in memory, and a run of the program over a site.

ghost use Rattle.std.specs.Prelude.{◌≡◌, [], length, IfOk};
ghost use Rattle.fd_kdh.specs.Header.{FitsFields};

use crate::no_net::NoNet;
use fd_bytes::{Arch, Label};
use fd_cli::{Word, crashway};
use fd_fake::{MemSink, MemSite};
use fd_kdh::Header;
use fd_site::Site;
use std::alloc::{AllocError, Global};
use std::process::Abort;
use std::test::Fail;

// The header of a dump of 32768 bytes of a riscv machine.
pub(crate) fn header(block: u32) -> Header
    ensures { FitsFields result }
{
    Header {
        architecture: Label::cut(Arch::Riscv.name()),
        architectureversion: Arch::Riscv.header_version(),
        dumplength: 32768,
        dumptime: 1_700_000_000,
        dumpkeysize: 0,
        blocksize: block,
        hostname: Label::cut(b"rv"),
        versionstring: Label::cut_version(b"FreeBSD 14"),
        panicstring: Label::cut(b"test"),
        compression: 0,
        dumpextent: 32768,
    }
}

// A zero partition of which the calls of these numbers fail.
pub(crate) fn failing_partition(
    alloc: Global,
    size: u64,
    block: u32,
    fails: Vec<u64>,
) -> Result<MemSite, AllocError>
    ensures fresh { IfOk result (λ site. site.disk.journal ≡ []) }
    ensures size { IfOk result (λ site. length site.disk.base_part ≡ size) }
{
    MemSite::new(alloc, size, block, fails)
}

// A zero partition with blocks of 512, of which one call fails.
pub(crate) fn failing_once(alloc: Global, size: u64, failing: u64) -> Result<MemSite, AllocError>
    ensures fresh { IfOk result (λ site. site.disk.journal ≡ []) }
    ensures size { IfOk result (λ site. length site.disk.base_part ≡ size) }
{
    failing_partition(alloc, size, 512, vec![in alloc; failing]?)
}

// A zero partition.
pub(crate) fn partition(alloc: Global, size: u64, block: u32) -> Result<MemSite, AllocError>
    ensures fresh { IfOk result (λ site. site.disk.journal ≡ []) }
    ensures size { IfOk result (λ site. length site.disk.base_part ≡ size) }
{
    failing_partition(alloc, size, block, Vec::new(alloc))
}

// Puts the headers of a dump of 32768 bytes to a partition of 131072 bytes with blocks of 512.
pub(crate) fn preset_headers(site: &mut MemSite, trailing: &[u8; 512], leading: &[u8; 512])
    requires fresh { site.old.disk.journal ≡ [] }
    requires size { length site.old.disk.base_part ≡ 131072 }
    ensures fresh { site.new.disk.journal ≡ [] }
{
    site.preset_part(130560, trailing);
    site.preset_part(97280, leading);
}

// The words, as the program takes them.
pub(crate) fn words_of(alloc: Global, words: &[&str]) -> Result<Vec<Word>, Fail> {
    let mut list = Vec::new(alloc);
    for word in words {
        list.push(Word::new(String::from_str(alloc, word)?))?;
    }
    Ok(list)
}

// The words between spaces.
pub(crate) fn words_in(alloc: Global, line: &str) -> Result<Vec<Word>, Fail> {
    let mut list = Vec::new(alloc);
    for word in line.split(' ') {
        list.push(Word::new(String::from_str(alloc, word)?))?;
    }
    Ok(list)
}

// Runs the words over the site without a network, and gives the status.
pub(crate) fn run<S: Site>(alloc: Global, words: &[Word], site: &mut S, out: &mut MemSink) -> u8 {
    let (mut link, mut ports) = (NoNet::new(), NoNet::new());
    crashway(alloc, words, site, &mut link, &mut ports, out)
}

fn ends<S: Site>(
    rt: &impl Abort,
    alloc: Global,
    site: &mut S,
    words: &[Word],
    status: u8,
    text: &str,
) {
    let mut out = MemSink::new(alloc, Vec::new(alloc));
    assert_eq!(rt; run(alloc, words, site, &mut out), status, "{text}");
    assert_eq!(rt; out.bytes(), text.as_bytes(), "{text}");
}

// Runs the words over the site, and compares the status and the text.
pub(crate) fn check<S: Site>(
    rt: &impl Abort,
    alloc: Global,
    site: &mut S,
    words: &[&str],
    status: u8,
    text: &str,
) -> Result<(), Fail> {
    let list = words_of(alloc, words)?;
    ends(rt, alloc, site, &list, status, text);
    Ok(())
}

// The same of words between spaces.
pub(crate) fn check_line<S: Site>(
    rt: &impl Abort,
    alloc: Global,
    site: &mut S,
    line: &str,
    status: u8,
    text: &str,
) -> Result<(), Fail> {
    let list = words_in(alloc, line)?;
    ends(rt, alloc, site, &list, status, text);
    Ok(())
}

// Words that are no command.
pub(crate) fn not_a_command(rt: &impl Abort, alloc: Global, words: &[&str]) -> Result<(), Fail> {
    let mut site = partition(alloc, 1000, 512)?;
    check(
        rt,
        alloc,
        &mut site,
        words,
        64,
        "refused 60: not a command\n",
    )
}

// Reads whole sectors of a partition.
pub(crate) fn read_sectors(rt: &impl Abort, site: &mut MemSite, at: u64, out: &mut [u8]) {
    let size = site.size();
    assert!(rt; at % 512 == 0);
    assert!(rt; out.len() % 512 == 0);
    assert!(rt; !out.is_empty());
    assert!(rt; at < size);
    assert!(rt; out.len() as u64 <= size - at);
    assert!(rt; site.read_part(at, out).is_ok());
}
