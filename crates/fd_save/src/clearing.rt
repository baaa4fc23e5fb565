//! Clearing a dump that was saved.

ghost use Rattle.std.specs.Prelude.{◌≡◌, IsErrOf, IsTrue, OnErr, OnOk};
ghost use Rattle.fd_site.specs.Begun.{IsBegun};
ghost use Rattle.fd_site.specs.Contents.{Adds, with_entries};
ghost use Rattle.fd_site.specs.Fault.{Rose};
ghost use Rattle.fd_site.specs.Seen.{Frame};
ghost use Rattle.fd_part.specs.Partition.{is_good};
ghost use Rattle.fd_save.specs.Outcome.{Clears, IsAll, MayHaveBegunToClear, OnNo, OnRefused, Refuses};
ghost use Rattle.fd_save.specs.Saving.{clearing};
ghost use Rattle.fd_save.specs.declared.fault.SaveFault.TheVariants.{NoNumber};

use crate::fault::SaveFault;
use crate::saved::Saved;
use fd_judge::{Verdict, judge};
use fd_part::clear_sector;
use fd_site::{Site, SiteFault};

/// Marks a dump that was saved: its sector, with the cleared magic in place of its first 20 bytes, is written to the
/// trailing block's first 512 bytes in one write.
pub fn clear<S: Site>(site: &mut S, saved: &Saved) -> Result<(), SiteFault>
    requires { IsTrue (is_good (S.seen site.old).size (S.seen site.old).block) }
    ensures ok { OnOk result ((S.seen site.new).told ≡ with_entries (S.seen site.old).told (clearing (S.seen site.old).size (S.seen site.old).block saved.now.sector)) }
    ensures err { OnErr result (Adds (IsBegun (clearing (S.seen site.old).size (S.seen site.old).block saved.now.sector)) (S.seen site.old).told (S.seen site.new).told) }
    ensures frame { Frame (S.seen site.old) (S.seen site.new) }
    ensures cause { OnErr result (Rose (S.seen site.old).faults (S.seen site.new).faults) }
{
    clear_sector(site, &saved.sector)?;
    Ok(())
}

/// Judges the partition, and marks its dump as saved though it wasn't.
pub fn clear_only<S: Site>(site: &mut S, force: bool) -> Result<(), SaveFault>
    requires { IsTrue (is_good (S.seen site.old).size (S.seen site.old).block) }
    ensures cleared { OnOk result (Clears IsAll force (S.seen site.old) (S.seen site.new).told) }
    ensures refused { OnRefused result (Refuses force (S.seen site.old)) }
    ensures unchanged { OnNo result ((S.seen site.new).told ≡ (S.seen site.old).told) }
    ensures fault { IsErrOf result SaveFault.SiteFault → MayHaveBegunToClear force (S.seen site.old) (S.seen site.new).told }
    ensures numbered { IsErrOf result NoNumber → ⊥ }
    ensures frame { Frame (S.seen site.old) (S.seen site.new) }
    ensures cause { IsErrOf result SaveFault.SiteFault → Rose (S.seen site.old).faults (S.seen site.new).faults }
{
    match judge(site, force)? {
        Verdict::Dump { sector, .. } => {
            clear_sector(site, &sector)?;
            Ok(())
        }
        Verdict::Refused(why) => Err(SaveFault::Refused(why)),
    }
}
