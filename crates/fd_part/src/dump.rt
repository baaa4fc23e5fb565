//! The writer of a dump.

ghost use Rattle.std.specs.Prelude.{◌≡◌, ℕ, ◌+◌, ◌*◌, ◌%◌, ◌<◌, ◌≤◌, ◌^◌, length, take, IfNone, IfOk, IfSome, IsErrOf, IsSomeAnd, IsTrue, OnErr};
ghost use Rattle.fd_site.specs.Contents.{Adds};
ghost use Rattle.fd_site.specs.Fault.{Rose};
ghost use Rattle.fd_site.specs.Seen.{Frame};
ghost use Rattle.fd_kdh.specs.Header.{FitsFields};
ghost use Rattle.fd_part.specs.Dump.{IsBegunDump, IsDumpJournal, dump_sectors, header_block};
ghost use Rattle.fd_part.specs.Outcome.{IfStopped, IfWhole, IsStoppedDump, OnNoRoom, OnStopped, OnWhole};
ghost use Rattle.fd_part.specs.Partition.{is_good, need_of};
ghost use Rattle.fd_part.specs.Writes.{Begins, Stops};

use crate::outcome::{NoRoom, PartFault, Wrote};
use crate::partition::need_of;
use crate::writes::{write_bytes, write_pieces};
use fd_kdh::{Header, encode};
use fd_site::{Failed, Pieces, Site};

// A header's bytes, and zeros to the end of the largest block.
fn padded(header: &Header) -> [u8; 4096]
    requires { FitsFields header.now }
    ensures { (block : ℕ) → 512 ≤ block → block ≤ 4096 → take block result ≡ header_block header.now block }
{
    let mut buffer = [0; 4096];
    buffer[..512].copy_from_slice(&encode(header));
    buffer
}

// Writes the pieces, the leading block and the trailing block, in this order, or the first `left` sectors of them.
fn write_parts<S: Site, P: Pieces>(
    site: &mut S,
    pieces: &mut P,
    header: &Header,
    left: u64,
) -> Result<Wrote, Failed>
    requires partition { IsTrue (is_good (S.seen site.old).size (S.seen site.old).block) }
    requires dumpextent { header.now.dumpextent ≡ length (P.to_come pieces.old) }
    requires pages { length (P.to_come pieces.old) % 4096 ≡ 0 }
    requires labels { FitsFields header.now }
    requires room { need_of (S.seen site.old).block (length (P.to_come pieces.old)) ≤ (S.seen site.old).size }
    ensures whole { IfOk result
        (λ wrote. IfWhole wrote
        (Adds (IsDumpJournal (P.to_come pieces.old) header.now (S.seen site.old).size (S.seen site.old).block)
        (S.seen site.old).told (S.seen site.new).told)) }
    ensures enough { IfOk result (λ wrote. IfWhole wrote (length (dump_sectors (P.to_come pieces.old) header.now (S.seen site.old).size (S.seen site.old).block) ≤ left)) }
    ensures stopped { IfOk result
        (λ wrote. IfStopped wrote
        (Stops (IsDumpJournal (P.to_come pieces.old) header.now (S.seen site.old).size (S.seen site.old).block) left
        (S.seen site.old).told (S.seen site.new).told)) }
    ensures fault { OnErr result (Begins (IsDumpJournal (P.to_come pieces.old) header.now (S.seen site.old).size (S.seen site.old).block) (S.seen site.old).told (S.seen site.new).told) }
    ensures frame { Frame (S.seen site.old) (S.seen site.new) }
    ensures cause { OnErr result (Rose (S.seen site.old).faults (S.seen site.new).faults) }
{
    let block = u64::from(site.block());
    let trailing = site.size() - block;
    let body = trailing - header.dumpextent;
    let buffer = padded(header);
    let header_block = &buffer[..block as usize];
    let after_body = match write_pieces(site, pieces, body, left)? {
        Some(rest) => rest,
        None => return Ok(Wrote::Stopped),
    };
    let after_leading = match write_bytes(site, body - block, header_block, after_body)? {
        Some(rest) => rest,
        None => return Ok(Wrote::Stopped),
    };
    match write_bytes(site, trailing, header_block, after_leading)? {
        Some(_) => Ok(Wrote::Whole),
        None => Ok(Wrote::Stopped),
    }
}

/// Why the partition has no room for a dump with this header, if it has none.
pub(crate) fn lacking<S: Site>(site: &S, header: &Header) -> Option<NoRoom>
    requires { header.now.dumpextent ≤ 2 ^ 62 }
    ensures some { IfSome result (λ room. room ≡ record { need = need_of (S.seen site.now).block header.now.dumpextent; have = (S.seen site.now).size }) }
    ensures lacks { IfSome result (λ room. (S.seen site.now).size < need_of (S.seen site.now).block header.now.dumpextent) }
    ensures none { IfNone result (need_of (S.seen site.now).block header.now.dumpextent ≤ (S.seen site.now).size) }
{
    let size = site.size();
    let need = need_of(site.block(), header.dumpextent);
    if need > u128::from(size) {
        return Some(NoRoom {
            need: need as u64,
            have: size,
        });
    }
    None
}

/// Writes a dump of the bytes to come at the partition's end: each piece in one write, lent and not copied, then the
/// leading header's block, then the trailing one. With `stop` only so many of its first sectors of 512 bytes are
/// written; the write in which the number is used up is cut short, and an empty one isn't made. It takes no memory.
///
/// The header says how many bytes are to come, as `dumplength` and `dumpextent`, and how many a block has. `NoRoom` is
/// answered where the partition has fewer bytes than 65536, the dump and two blocks. After a failed write nothing more
/// is written.
pub fn write_dump<S: Site, P: Pieces>(
    site: &mut S,
    pieces: &mut P,
    header: &Header,
    stop: Option<u64>,
) -> Result<Wrote, PartFault>
    requires partition { IsTrue (is_good (S.seen site.old).size (S.seen site.old).block) }
    requires dumplength { header.now.dumplength ≡ length (P.to_come pieces.old) }
    requires dumpextent { header.now.dumpextent ≡ length (P.to_come pieces.old) }
    requires pages { length (P.to_come pieces.old) % 4096 ≡ 0 }
    requires small { length (P.to_come pieces.old) ≤ 2 ^ 62 }
    requires labels { FitsFields header.now }
    requires blocksize { header.now.blocksize ≡ (S.seen site.old).block }
    ensures room { (S.seen site.old).size < need_of (S.seen site.old).block (length (P.to_come pieces.old)) →
        IsErrOf result (PartFault.NoRoom
        (record { need = need_of (S.seen site.old).block (length (P.to_come pieces.old)); have = (S.seen site.old).size })) }
    ensures no_room { OnNoRoom result ((S.seen site.old).size < need_of (S.seen site.old).block (length (P.to_come pieces.old))) }
    ensures untouched { OnNoRoom result (site.new ≡ site.old) }
    ensures untaken { OnNoRoom result (pieces.new ≡ pieces.old) }
    ensures whole { OnWhole result (Adds (IsDumpJournal (P.to_come pieces.old) header.now (S.seen site.old).size (S.seen site.old).block) (S.seen site.old).told (S.seen site.new).told) }
    ensures enough { OnWhole result (IfSome stop (λ n. length (dump_sectors (P.to_come pieces.old) header.now (S.seen site.old).size (S.seen site.old).block) ≤ n)) }
    ensures stopped { OnStopped result
        (IsSomeAnd stop (λ n.
        Adds (IsStoppedDump (P.to_come pieces.old) header.now (S.seen site.old).size (S.seen site.old).block n)
        (S.seen site.old).told (S.seen site.new).told)) }
    ensures short { OnStopped result (IsSomeAnd stop (λ n. n < length (dump_sectors (P.to_come pieces.old) header.now (S.seen site.old).size (S.seen site.old).block))) }
    ensures fault { IsErrOf result PartFault.SiteFault →
        Adds (IsBegunDump (P.to_come pieces.old) header.now (S.seen site.old).size (S.seen site.old).block)
        (S.seen site.old).told (S.seen site.new).told }
    ensures frame { Frame (S.seen site.old) (S.seen site.new) }
    ensures cause { IsErrOf result PartFault.SiteFault → Rose (S.seen site.old).faults (S.seen site.new).faults }
{
    if let Some(room) = lacking(site, header) {
        return Err(PartFault::NoRoom(room));
    }
    let wrote = write_parts(site, pieces, header, stop.unwrap_or(u64::MAX))?;
    Ok(wrote)
}
