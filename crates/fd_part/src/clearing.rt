//! A header on a partition that is marked as cleared.

ghost use Rattle.std.specs.Prelude.{◌≡◌, IsTrue, OnErr, OnOk};
ghost use Rattle.fd_site.specs.Begun.{IsBegun};
ghost use Rattle.fd_site.specs.Contents.{Adds, with_entries};
ghost use Rattle.fd_site.specs.Fault.{Rose};
ghost use Rattle.fd_site.specs.Seen.{Frame};
ghost use Rattle.fd_part.specs.Clearing.{cleared_sector, clearing};
ghost use Rattle.fd_part.specs.Partition.{is_good};

use fd_kdh::CLEARED_MAGIC;
use fd_site::{Failed, Site};

// A header's sector with the cleared magic in place of its first 20 bytes.
fn cleared_sector(sector: &[u8; 512]) -> [u8; 512]
    ensures { result ≡ cleared_sector sector.now }
{
    let mut cleared = *sector;
    cleared[..20].copy_from_slice(&CLEARED_MAGIC);
    cleared
}

/// Writes a header's sector, with the cleared magic (`KERNELDUMPMAGIC_CLEARED`) in place of its first 20 bytes, to the
/// trailing block's first 512 bytes in one write.
pub fn clear_sector<S: Site>(site: &mut S, sector: &[u8; 512]) -> Result<(), Failed>
    requires { IsTrue (is_good (S.seen site.old).size (S.seen site.old).block) }
    ensures ok { OnOk result ((S.seen site.new).told ≡ with_entries (S.seen site.old).told (clearing (S.seen site.old).size (S.seen site.old).block sector.now)) }
    ensures err { OnErr result (Adds (IsBegun (clearing (S.seen site.old).size (S.seen site.old).block sector.now)) (S.seen site.old).told (S.seen site.new).told) }
    ensures frame { Frame (S.seen site.old) (S.seen site.new) }
    ensures cause { OnErr result (Rose (S.seen site.old).faults (S.seen site.new).faults) }
{
    let cleared = cleared_sector(sector);
    let at = site.size() - u64::from(site.block());
    site.write_part(at, &cleared)
}
