//! What judging answers over partitions in memory.

ghost use Rattle.std.specs.Prelude.{◌≡◌, ◌≤◌, ◌%◌, ◌^◌, [], length, IfOk};
ghost use Rattle.fd_kdh.specs.Header.{FitsFields};

use crate::partitions::{failing_partition, header, partition, small};
use fd_bytes::Label;
use fd_fake::MemSite;
use fd_judge::{Verdict, Why, judge};
use fd_kdh::{CLEARED_MAGIC, Header, encode};
use fd_part::{Wrote, good_partition, write_dump};
use fd_site::{Failed, Site, SiteFault, SlicePieces};
use std::alloc::{AllocError, Global};
use std::process::Abort;
use std::test::Fail;

fn write<S: Site>(rt: &impl Abort, site: &mut S, at: u64, bytes: &[u8]) -> Result<(), Failed> {
    let count = bytes.len() as u64;
    assert_eq!(rt; at % 512, 0);
    assert_eq!(rt; count % 512, 0);
    assert!(rt; 0 < count);
    assert!(rt; count <= site.size());
    assert!(rt; at <= site.size() - count);
    site.write_part(at, bytes)
}

fn read<S: Site>(rt: &impl Abort, site: &mut S, at: u64, out: &mut [u8]) -> Result<(), Failed> {
    let count = out.len() as u64;
    assert_eq!(rt; at % 512, 0);
    assert_eq!(rt; count % 512, 0);
    assert!(rt; 0 < count);
    assert!(rt; count <= site.size());
    assert!(rt; at <= site.size() - count);
    site.read_part(at, out)
}

// The verdict without force.
fn verdict<S: Site>(rt: &impl Abort, site: &mut S) -> Result<Verdict, SiteFault> {
    assert!(rt; good_partition(site.size(), site.block()));
    judge(site, false)
}

// Why the partition is refused, or None where it is judged a dump.
pub(crate) fn refusal<S: Site>(rt: &impl Abort, site: &mut S) -> Result<Option<Why>, SiteFault> {
    match verdict(rt, site)? {
        Verdict::Refused(why) => Ok(Some(why)),
        Verdict::Dump { .. } => Ok(None),
    }
}

// Whether the partition has these bytes from this place on.
fn has<S: Site>(rt: &impl Abort, site: &mut S, place: u32, bytes: &[u8]) -> Result<bool, Failed> {
    let mut sector = [0; 512];
    for i in 0..bytes.len() / 512 {
        let from = i * 512;
        read(rt, site, u64::from(place) + from as u64, &mut sector)?;
        if bytes[from..from + 512] != sector[..] {
            return Ok(false);
        }
    }
    Ok(true)
}

// Whether the partition is judged a dump with this header at this place, and has these bytes there.
pub(crate) fn is_dump<S: Site>(
    rt: &impl Abort,
    site: &mut S,
    header: &Header,
    place: u32,
    body: &[u8],
) -> Result<bool, Fail>
    requires { FitsFields header.now }
{
    match verdict(rt, site)? {
        Verdict::Refused(_) => Ok(false),
        Verdict::Dump {
            header: found,
            at,
            sector,
        } => {
            let told = at == u64::from(place) && found == *header && sector == encode(header);
            Ok(told && has(rt, site, place, body)?)
        }
    }
}

// A block of 4096 bytes that begins with this sector.
pub(crate) fn block_of(alloc: Global, sector: &[u8; 512], rest: u8) -> Result<Vec<u8>, Fail>
    ensures { IfOk result (λ block. length block.items ≡ 4096) }
{
    let mut block = vec![in alloc; rest; 4096]?;
    block[..512].copy_from_slice(sector);
    Ok(block)
}

// Writes those of a block's eight sectors whose bits are set.
pub(crate) fn tear<S: Site>(
    rt: &impl Abort,
    site: &mut S,
    at: u32,
    block: &[u8],
    sectors: u32,
) -> Result<(), Failed>
    requires { length block.now ≡ 4096 }
{
    for i in 0..8_u32 {
        if sectors >> i & 1 == 1 {
            let from = i as usize * 512;
            write(
                rt,
                site,
                u64::from(at) + from as u64,
                &block[from..from + 512],
            )?;
        }
    }
    Ok(())
}

// Puts the blocks of the headers of a dump of 32768 bytes to a partition of 106496 with blocks of 4096.
fn preset_blocks(site: &mut MemSite, leading: &[u8], trailing: &[u8])
    requires fresh { site.old.disk.journal ≡ [] }
    requires size { length site.old.disk.base_part ≡ 106496 }
    requires leading { length leading.now ≡ 4096 }
    requires trailing { length trailing.now ≡ 4096 }
{
    site.preset_part(65536, leading);
    site.preset_part(102400, trailing);
}

// The header of an earlier dump on that partition.
pub(crate) fn earlier() -> Header
    ensures { FitsFields result }
{
    Header {
        dumptime: 1_600_000_000,
        ..header(4096, 32768)
    }
}

// A partition of 106496 bytes with blocks of 4096, on which the trailing header of an earlier dump of zeros has this magic;
// the calls of these numbers fail.
pub(crate) fn earlier_partition(
    alloc: Global,
    magic: &[u8; 20],
    fails: Vec<u64>,
) -> Result<MemSite, Fail> {
    let live = encode(&earlier());
    let leading = block_of(alloc, &live, 9)?;
    let trailing = block_of(alloc, &beginning(&live, magic), 9)?;
    let mut site = failing_partition(alloc, 106496, 4096, fails)?;
    preset_blocks(&mut site, &leading, &trailing);
    Ok(site)
}

// Such a partition, whose dump was saved and cleared.
fn cleared_partition(alloc: Global) -> Result<MemSite, Fail> {
    earlier_partition(alloc, &CLEARED_MAGIC, Vec::new(alloc))
}

// Writes a body behind its leading block, of which these sectors are new.
fn write_torn_leading<S: Site>(
    rt: &impl Abort,
    site: &mut S,
    body: &[u8],
    block: &[u8],
    sectors: u32,
) -> Result<Option<Why>, Fail>
    requires { length block.now ≡ 4096 }
{
    write(rt, site, 69632, body)?;
    tear(rt, site, 65536, block, sectors)?;
    Ok(refusal(rt, site)?)
}

fn is_cleared(
    rt: &impl Abort,
    alloc: Global,
    body: &[u8],
    block: &[u8],
    sectors: u32,
) -> Result<(), Fail>
    requires { length block.now ≡ 4096 }
{
    let mut site = cleared_partition(alloc)?;
    let why = write_torn_leading(rt, &mut site, body, block, sectors)?;
    assert_eq!(rt; why, Some(Why::Cleared), "{sectors}");
    Ok(())
}

#[test]
fn a_torn_leading_block_is_no_dump(rt: HostRuntime) -> Result<(), Fail> {
    let alloc = rt.alloc();
    let body = vec![in alloc; 7; 32768]?;
    let block = block_of(alloc, &encode(&header(4096, 32768)), 0)?;
    for sectors in 0..256 {
        is_cleared(&rt, alloc, &body, &block, sectors)?;
    }
    Ok(())
}

// Writes a body and its leading block, and of the trailing block these sectors.
fn write_torn_trailing<S: Site>(
    rt: &impl Abort,
    site: &mut S,
    body: &[u8],
    block: &[u8],
    sectors: u32,
) -> Result<(), Fail>
    requires { length block.now ≡ 4096 }
{
    write(rt, site, 69632, body)?;
    write(rt, site, 65536, block)?;
    Ok(tear(rt, site, 102400, block, sectors)?)
}

// Whether the partition is a dump exactly where the first sector is new.
fn is_dump_by_its_first<S: Site>(
    rt: &impl Abort,
    site: &mut S,
    body: &[u8],
    sectors: u32,
) -> Result<bool, Fail> {
    if sectors & 1 == 0 {
        return Ok(refusal(rt, site)? == Some(Why::Cleared));
    }
    is_dump(rt, site, &header(4096, 32768), 69632, body)
}

fn tears_trailing(
    rt: &impl Abort,
    alloc: Global,
    body: &[u8],
    block: &[u8],
    sectors: u32,
) -> Result<(), Fail>
    requires { length block.now ≡ 4096 }
{
    let mut site = cleared_partition(alloc)?;
    write_torn_trailing(rt, &mut site, body, block, sectors)?;
    let kept = is_dump_by_its_first(rt, &mut site, body, sectors)?;
    assert!(rt; kept, "{sectors}");
    Ok(())
}

#[test]
fn a_torn_trailing_block_is_a_dump_by_its_first_sector(rt: HostRuntime) -> Result<(), Fail> {
    let alloc = rt.alloc();
    let body = vec![in alloc; 7; 32768]?;
    let block = block_of(alloc, &encode(&header(4096, 32768)), 0)?;
    for sectors in 0..256 {
        tears_trailing(&rt, alloc, &body, &block, sectors)?;
    }
    Ok(())
}

// A partition of 131072 bytes with blocks of 512 that has these sectors where a dump of 32768 bytes has its headers.
fn with_headers(
    alloc: Global,
    trailing: &[u8; 512],
    leading: &[u8; 512],
) -> Result<MemSite, AllocError> {
    let mut site = partition(alloc, 131072, 512)?;
    site.preset_part(130560, trailing);
    site.preset_part(97280, leading);
    Ok(site)
}

// Why it is refused, or None where it is judged a dump.
fn refusal_of(
    rt: &impl Abort,
    alloc: Global,
    trailing: &[u8; 512],
    leading: &[u8; 512],
) -> Result<Option<Why>, Fail> {
    let mut site = with_headers(alloc, trailing, leading)?;
    Ok(refusal(rt, &mut site)?)
}

fn is_refused(
    rt: &impl Abort,
    alloc: Global,
    trailing: &[u8; 512],
    leading: &[u8; 512],
    why: Option<Why>,
) -> Result<(), Fail> {
    assert_eq!(rt; refusal_of(rt, alloc, trailing, leading)?, why);
    Ok(())
}

// Asserts what a header is refused for that differs from the others from this place on: by a rule on its fields,
// where it breaks one, or by the place, where it stands at one end of the dump alone.
fn check_changed(
    rt: &impl Abort,
    alloc: Global,
    header: &Header,
    rule: Option<Why>,
    place: u16,
) -> Result<(), Fail>
    requires { FitsFields header.now }
{
    let old = encode(&small());
    let changed = encode(header);
    let differs = Some(Why::Disagree(place));
    let by_rule = if rule.is_some() { rule } else { differs };
    is_refused(rt, alloc, &changed, &old, by_rule)?;
    is_refused(rt, alloc, &old, &changed, differs)?;
    is_refused(rt, alloc, &changed, &changed, rule)
}

// The small header with another architecture.
fn of_arch(name: &[u8], version: u32) -> Header
    ensures { FitsFields result }
{
    Header {
        architecture: Label::cut(name),
        architectureversion: version,
        ..small()
    }
}

#[test]
fn changed_architectures_have_their_reasons(rt: HostRuntime) -> Result<(), Fail> {
    let alloc = rt.alloc();
    let unknown = Some(Why::UnknownArch);
    check_changed(&rt, alloc, &of_arch(b"riscv65", 1), unknown, 26)?;
    check_changed(&rt, alloc, &of_arch(b"aarch64", 1), None, 20)?;
    check_changed(&rt, alloc, &of_arch(b"riscv64", 2), unknown, 39)
}

#[test]
fn changed_texts_differ_at_their_places(rt: HostRuntime) -> Result<(), Fail> {
    let alloc = rt.alloc();
    let host = Header {
        hostname: Label::cut(b"rw"),
        ..small()
    };
    check_changed(&rt, alloc, &host, None, 65)?;
    let version = Header {
        versionstring: Label::cut_version(b"FreeBSD 15"),
        ..small()
    };
    check_changed(&rt, alloc, &version, None, 137)?;
    let panic = Header {
        panicstring: Label::cut(b"text"),
        ..small()
    };
    check_changed(&rt, alloc, &panic, None, 322)
}

#[test]
fn changed_numbers_have_their_reasons(rt: HostRuntime) -> Result<(), Fail> {
    let alloc = rt.alloc();
    for (dumptime, dumpkeysize, blocksize, compression, rule, place) in [
        (1_700_000_001, 0, 512, 0, None, 55),
        (1_700_000_000, 256, 512, 0, Some(Why::Encrypted(256)), 58),
        (1_700_000_000, 0, 1024, 0, Some(Why::BadBlock(1024)), 62),
        (1_700_000_000, 0, 512, 1, Some(Why::Compressed(1)), 495),
    ] {
        let header = Header {
            dumptime,
            dumpkeysize,
            blocksize,
            compression,
            ..small()
        };
        check_changed(&rt, alloc, &header, rule, place)?;
    }
    Ok(())
}

#[test]
fn changed_lengths_have_their_reasons(rt: HostRuntime) -> Result<(), Fail> {
    let alloc = rt.alloc();
    for (dumplength, dumpextent, why, place) in [
        (32767, 32768, Why::LengthDiffers(32767, 32768), 46),
        (32768, 36864, Why::LengthDiffers(32768, 36864), 502),
        (0, 0, Why::BadExtent(0), 46),
        (32512, 32512, Why::BadExtent(32512), 46),
        (65536, 65536, Why::BadExtent(65536), 45),
    ] {
        let header = Header {
            dumplength,
            dumpextent,
            ..small()
        };
        check_changed(&rt, alloc, &header, Some(why), place)?;
    }
    Ok(())
}

// The sector with these bytes in the place of its first ones.
fn beginning(sector: &[u8; 512], bytes: &[u8]) -> [u8; 512]
    requires { length bytes.now ≤ 512 }
{
    let mut changed = *sector;
    changed[..bytes.len()].copy_from_slice(bytes);
    changed
}

#[test]
fn a_sector_torn_between_bytes_revives_a_cleared_dump(rt: HostRuntime) -> Result<(), Fail> {
    let alloc = rt.alloc();
    let live = encode(&small());
    let cleared = beginning(&live, &CLEARED_MAGIC);
    let torn = beginning(&cleared, b"FreeBSD");
    is_refused(&rt, alloc, &cleared, &live, Some(Why::Cleared))?;
    is_refused(&rt, alloc, &torn, &live, None)?;
    assert_eq!(rt; live[508..], *b"\x0d\x4f\xe5\x38".as_slice());
    Ok(())
}

// Writes the dump of a body to a partition with blocks of 512.
fn dump<S: Site>(rt: &impl Abort, site: &mut S, body: &[u8])
    requires pages { length body.now % 4096 ≡ 0 }
    requires small { length body.now ≤ 2 ^ 62 }
{
    assert!(rt; good_partition(site.size(), site.block()));
    assert_eq!(rt; site.block(), 512);
    let mut pieces = SlicePieces::new(body);
    let header = header(512, body.len() as u64);
    assert_eq!(rt;
        write_dump(site, &mut pieces, &header, None),
        Ok(Wrote::Whole)
    );
}

fn is_found<S: Site>(rt: &impl Abort, site: &mut S, body: &[u8]) -> Result<(), Fail> {
    assert!(rt; is_dump(rt, site, &header(512, 56434688), 10673664, body)?);
    Ok(())
}

#[test]
fn a_dump_of_56_mb_is_found_on_64_mib(rt: HostRuntime) -> Result<(), Fail> {
    let alloc = rt.alloc();
    let body = vec![in alloc; 7; 56434688]?;
    let mut site = partition(alloc, 67108864, 512)?;
    dump(&rt, &mut site, &body);
    is_found(&rt, &mut site, &body)
}
