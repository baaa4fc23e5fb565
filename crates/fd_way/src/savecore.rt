//! A dump is saved and cleared.

ghost use Rattle.std.specs.Prelude.{◌≡◌, ◌<◌, IsErrOf, IsTrue};
ghost use Rattle.fd_site.specs.Fault.{Rose};
ghost use Rattle.fd_site.specs.Seen.{Frame};
ghost use Rattle.fd_part.specs.Partition.{is_good};
ghost use Rattle.fd_save.specs.declared.fault.SaveFault.TheVariants.{SiteFault};
ghost use Rattle.fd_way.specs.Steps.{SavesAndClears};

use fd_save::{Options, SaveFault, Saved, clear, save};
use fd_site::Site;

/// Saves what stands on the partition, and clears it, as savecore(8) does without options.
pub(crate) fn save_and_clear<S: Site>(site: &mut S) -> Result<Saved, SaveFault>
    requires { IsTrue (is_good (S.seen site.old).size (S.seen site.old).block) }
    ensures saves { SavesAndClears (S.seen site.old) (S.seen site.new) result }
    ensures frame { Frame (S.seen site.old) (S.seen site.new) }
    ensures cause { IsErrOf result SiteFault → Rose (S.seen site.old).faults (S.seen site.new).faults }
{
    let saved = save(
        site,
        Options {
            force: false,
            max: None,
        },
    )?;
    clear(site, &saved)?;
    Ok(saved)
}
