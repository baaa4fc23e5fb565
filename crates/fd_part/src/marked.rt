//! The writer of a dump over a partition that may hold another one.

ghost use Rattle.std.specs.Prelude.{◌≡◌, ◌%◌, ◌<◌, ◌≤◌, ◌^◌, length, IsErrOf, IsTrue, OnErr, OnOk};
ghost use Rattle.fd_site.specs.Begun.{IsBegun};
ghost use Rattle.fd_site.specs.Contents.{Adds, Told, part_of};
ghost use Rattle.fd_site.specs.Fault.{Rose};
ghost use Rattle.fd_site.specs.Seen.{Frame};
ghost use Rattle.fd_kdh.specs.Header.{FitsFields};
ghost use Rattle.fd_part.specs.Marked.{IsBegunMarked, IsMarkedJournal, is_live_sector, marking};
ghost use Rattle.fd_part.specs.Outcome.{OnLacking};
ghost use Rattle.fd_part.specs.Partition.{is_good, need_of};

use crate::clearing::clear_sector;
use crate::dump::{lacking, write_dump};
use crate::outcome::PartFault;
use fd_kdh::{Header, LIVE_MAGIC};
use fd_site::{Failed, Pieces, Site};

// Whether a header's sector has the live magic.
fn is_live(sector: &[u8; 512]) -> bool
    ensures { result ≡ is_live_sector sector.now }
{
    sector.starts_with(&LIVE_MAGIC)
}

// Marks the header that stands on the partition as cleared, if it is a live one.
fn mark<S: Site>(site: &mut S) -> Result<(), Failed>
    requires { IsTrue (is_good (S.seen site.old).size (S.seen site.old).block) }
    ensures ok { OnOk result (Adds (λ es. Told (S.seen site.old).told (λ c. es ≡ marking (part_of c) (S.seen site.old).block)) (S.seen site.old).told (S.seen site.new).told) }
    ensures err { OnErr result (Adds (λ es. Told (S.seen site.old).told (λ c. IsBegun (marking (part_of c) (S.seen site.old).block) es)) (S.seen site.old).told (S.seen site.new).told) }
    ensures frame { Frame (S.seen site.old) (S.seen site.new) }
    ensures cause { OnErr result (Rose (S.seen site.old).faults (S.seen site.new).faults) }
{
    let trailing = site.size() - u64::from(site.block());
    let mut sector = [0; 512];
    site.read_part(trailing, &mut sector)?;
    if is_live(&sector) {
        clear_sector(site, &sector)?;
    }
    Ok(())
}

/// Writes a dump as `write_dump` does, over a partition that may hold another one: where a live header stands there, its
/// sector is first written back with the cleared magic (`KERNELDUMPMAGIC_CLEARED`) in place of its first 20 bytes, in one
/// write. So wherever the machine stops, the old dump stands, or none is found, or the new one. It takes no memory.
///
/// `NoRoom` is answered before anything is read or written. After a failed write nothing more is written.
pub fn write_marked<S: Site, P: Pieces>(
    site: &mut S,
    pieces: &mut P,
    header: &Header,
) -> Result<(), PartFault>
    requires partition { IsTrue (is_good (S.seen site.old).size (S.seen site.old).block) }
    requires dumplength { header.now.dumplength ≡ length (P.to_come pieces.old) }
    requires dumpextent { header.now.dumpextent ≡ length (P.to_come pieces.old) }
    requires pages { length (P.to_come pieces.old) % 4096 ≡ 0 }
    requires small { length (P.to_come pieces.old) ≤ 2 ^ 62 }
    requires labels { FitsFields header.now }
    requires blocksize { header.now.blocksize ≡ (S.seen site.old).block }
    ensures room { (S.seen site.old).size < need_of (S.seen site.old).block (length (P.to_come pieces.old)) →
        IsErrOf result (PartFault.NoRoom
        (record { need = need_of (S.seen site.old).block (length (P.to_come pieces.old)); have = (S.seen site.old).size })) }
    ensures no_room { OnLacking result ((S.seen site.old).size < need_of (S.seen site.old).block (length (P.to_come pieces.old))) }
    ensures untouched { OnLacking result (site.new ≡ site.old) }
    ensures untaken { OnLacking result (pieces.new ≡ pieces.old) }
    ensures marked { OnOk result
        (Adds (λ es. Told (S.seen site.old).told
        (λ c. IsMarkedJournal (part_of c) (P.to_come pieces.old) header.now (S.seen site.old).block es)) (S.seen site.old).told
        (S.seen site.new).told) }
    ensures fault { IsErrOf result PartFault.SiteFault →
        Adds (λ es. Told (S.seen site.old).told
        (λ c. IsBegunMarked (part_of c) (P.to_come pieces.old) header.now (S.seen site.old).block es)) (S.seen site.old).told
        (S.seen site.new).told }
    ensures frame { Frame (S.seen site.old) (S.seen site.new) }
    ensures cause { IsErrOf result PartFault.SiteFault → Rose (S.seen site.old).faults (S.seen site.new).faults }
{
    if let Some(room) = lacking(site, header) {
        return Err(PartFault::NoRoom(room));
    }
    mark(site)?;
    match write_dump(site, pieces, header, None) {
        Ok(_) => Ok(()),
        Err(fault) => Err(fault),
    }
}
