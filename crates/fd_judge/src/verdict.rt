//! What a partition holds, by its two headers.

ghost use Rattle.std.specs.Prelude.{◌≡◌, ◌+◌, ◌-◌, ◌*◌, ◌<◌, ◌≤◌, IsTrue, IfOk, IfSome, IfNone, OnErr};
ghost use Rattle.fd_site.specs.Contents.{Told, part_of, IsSectors};
ghost use Rattle.fd_site.specs.Fault.{Rose};
ghost use Rattle.fd_site.specs.Seen.{Untouched};
ghost use Rattle.fd_part.specs.Partition.{is_good, leading_place, need_of};
ghost use Rattle.fd_judge.specs.Verdict.{IsPlaced, judged, taken, reasons, first_of, first_difference};

use crate::why::Why;
use fd_bytes::Arch;
use fd_kdh::{CLEARED_MAGIC, Header, LIVE_MAGIC, decode};
use fd_part::need_of;
use fd_site::{Site, SiteFault};

/// What a partition holds.
#[derive(Drop)]
pub enum Verdict {
    /// A dump with this header. It begins at the partition's byte `at`; `sector` is the trailing block's first 512
    /// bytes.
    Dump {
        header: Header,
        at: u64,
        sector: [u8; 512],
    },
    Refused(Why),
}

// The trailing sector as it is judged: by force, a cleared header stands for a live one.
fn take_sector(sector: &[u8; 512], force: bool) -> [u8; 512]
    ensures { result ≡ taken force sector.now }
{
    let mut seen = *sector;
    if force && sector[..20] == CLEARED_MAGIC[..] {
        seen[..20].copy_from_slice(&LIVE_MAGIC);
    }
    seen
}

// The first reason against a header's fields.
fn header_reason(header: &Header, size: u64, block: u32) -> Option<Why>
    requires { IsTrue (is_good size block) }
    ensures first { result ≡ first_of (reasons header.now size block) }
    ensures leading { IfNone result (IsSectors (leading_place size block header.now.dumpextent) 512 size) }
    ensures room { IfNone result (need_of block header.now.dumpextent ≤ size) }
{
    if header.compression != 0 {
        return Some(Why::Compressed(header.compression));
    }
    if header.dumpkeysize != 0 {
        return Some(Why::Encrypted(header.dumpkeysize));
    }
    if Arch::of_header(header.architecture.bytes(), header.architectureversion).is_none() {
        return Some(Why::UnknownArch);
    }
    if header.blocksize != block {
        return Some(Why::BadBlock(header.blocksize));
    }
    let extent = header.dumpextent;
    if header.dumplength != extent {
        return Some(Why::LengthDiffers(header.dumplength, extent));
    }
    if extent == 0 || extent % u64::from(block) != 0 || need_of(block, extent) > u128::from(size) {
        return Some(Why::BadExtent(extent));
    }
    None
}

// The first place at which two sectors differ.
fn difference(a: &[u8; 512], b: &[u8; 512]) -> Option<usize>
    ensures place { result ≡ first_difference a.now b.now }
    ensures inside { IfSome result (λ place. place < 512) }
{
    a.iter().zip(b.iter()).position(|(x, y)| *x != *y)
}

/// Judges whether the partition holds a dump, as savecore(8) does, by the headers before and behind it. By `force`
/// a cleared dump counts as a live one.
pub fn judge<S: Site>(site: &mut S, force: bool) -> Result<Verdict, SiteFault>
    requires { IsTrue (is_good (S.seen site.old).size (S.seen site.old).block) }
    ensures verdict { IfOk result (λ v. Told (S.seen site.old).told (λ c. v ≡ judged (part_of c) (S.seen site.old).block force)) }
    ensures placed { IfOk result (IsPlaced (S.seen site.old).size (S.seen site.old).block) }
    ensures untouched { Untouched (S.seen site.old) (S.seen site.new) }
    ensures cause { OnErr result (Rose (S.seen site.old).faults (S.seen site.new).faults) }
{
    let size = site.size();
    let block = site.block();
    let block_bytes = u64::from(block);
    let mut sector = [0; 512];
    site.read_part(size - block_bytes, &mut sector)?;
    let seen = take_sector(&sector, force);
    let header = match decode(&seen) {
        Ok(header) => header,
        Err(fault) => return Ok(Verdict::Refused(Why::from(fault))),
    };
    match header_reason(&header, size, block) {
        Some(why) => return Ok(Verdict::Refused(why)),
        None => {}
    }
    let extent = header.dumpextent;
    let mut leading = [0; 512];
    site.read_part(size - 2 * block_bytes - extent, &mut leading)?;
    match difference(&seen, &leading) {
        Some(place) => Ok(Verdict::Refused(Why::Disagree(place as u16))),
        None => Ok(Verdict::Dump {
            header,
            at: size - block_bytes - extent,
            sector,
        }),
    }
}
