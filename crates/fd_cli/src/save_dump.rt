//! `savecore` that saves, and `savecore -c`.

ghost use Rattle.std.specs.Prelude.{◌≡◌, ◌≤◌, IsErrOf, IsTrue, OnErr, OnOk};
ghost use Rattle.fd_site.specs.Begun.{IsBegun};
ghost use Rattle.fd_site.specs.Contents.{Adds, with_entries};
ghost use Rattle.fd_site.specs.Fault.{Rose};
ghost use Rattle.fd_site.specs.Seen.{Frame};
ghost use Rattle.fd_part.specs.Partition.{is_good};
ghost use Rattle.fd_cli.specs.Reply.{WorksOnSite};
ghost use Rattle.fd_cli.specs.Rows.Clear.{clear_row, judged_clear_row};
ghost use Rattle.fd_cli.specs.Rows.Save.{clearing_unless, judged_save_row, save_row};

use crate::answer::Answer;
use crate::refusal::Refusal;
use crate::reply::{Reply, Trouble};
use crate::text::saved_line;
use fd_part::{BadPartition, good_partition};
use fd_save::{Options, SaveFault, Saved, clear, clear_only, save};
use fd_site::{Site, SiteFault};
use std::alloc::Global;

// Marks a saved dump, unless it is kept.
fn clear_saved<S: Site>(site: &mut S, saved: &Saved, keep: bool) -> Result<(), SiteFault>
    requires { IsTrue (is_good (S.seen site.old).size (S.seen site.old).block) }
    ensures ok { OnOk result ((S.seen site.new).told ≡ with_entries (S.seen site.old).told (clearing_unless keep (S.seen site.old).size (S.seen site.old).block saved.now.sector)) }
    ensures err { OnErr result (Adds (IsBegun (clearing_unless keep (S.seen site.old).size (S.seen site.old).block saved.now.sector)) (S.seen site.old).told (S.seen site.new).told) }
    ensures frame { Frame (S.seen site.old) (S.seen site.new) }
    ensures cause { OnErr result (Rose (S.seen site.old).faults (S.seen site.new).faults) }
{
    if keep {
        return Ok(());
    }
    clear(site, saved)
}

// Saves the dump of a good partition.
fn save_good<S: Site>(
    alloc: Global,
    site: &mut S,
    options: Options,
    keep: bool,
) -> Result<Reply, Trouble>
    requires { IsTrue (is_good (S.seen site.old).size (S.seen site.old).block) }
    ensures works { WorksOnSite (judged_save_row options keep) (S.seen site.old) (S.seen site.new) result }
    ensures frame { Frame (S.seen site.old) (S.seen site.new) }
    ensures cause { IsErrOf result Trouble.Fault → Rose (S.seen site.old).faults (S.seen site.new).faults }
{
    let saved = match save(site, options) {
        Ok(saved) => saved,
        Err(SaveFault::SiteFault) => return Err(Trouble::Fault),
        Err(SaveFault::NoNumber) => {
            let reply = Reply::new(alloc, &Answer::Refused(Refusal::NoNumber))?;
            return Ok(reply);
        }
        Err(SaveFault::Refused(why)) => {
            let reply = Reply::new(alloc, &Answer::Refused(Refusal::Judged(why)))?;
            return Ok(reply);
        }
    };
    match clear_saved(site, &saved, keep) {
        Ok(()) => Ok(Reply::done(saved_line(saved.number, saved.header.dumplength))),
        Err(SiteFault) => Err(Trouble::Fault),
    }
}

/// `savecore`: saves the partition's dump, and marks it as saved unless it is kept. No memory is taken for a dump that is
/// saved.
pub(crate) fn save_dump<S: Site>(
    alloc: Global,
    site: &mut S,
    options: Options,
    keep: bool,
) -> Result<Reply, Trouble>
    ensures works { WorksOnSite (save_row options keep) (S.seen site.old) (S.seen site.new) result }
    ensures frame { Frame (S.seen site.old) (S.seen site.new) }
    ensures cause { IsErrOf result Trouble.Fault → Rose (S.seen site.old).faults (S.seen site.new).faults }
{
    let size = site.size();
    let block = site.block();
    if !good_partition(size, block) {
        let bad = Refusal::Partition(BadPartition { size, block });
        let reply = Reply::new(alloc, &Answer::Refused(bad))?;
        return Ok(reply);
    }
    save_good(alloc, site, options, keep)
}

// Marks the dump of a good partition. The reply is made first.
fn clear_good<S: Site>(alloc: Global, site: &mut S, force: bool) -> Result<Reply, Trouble>
    requires { IsTrue (is_good (S.seen site.old).size (S.seen site.old).block) }
    ensures works { WorksOnSite (judged_clear_row force) (S.seen site.old) (S.seen site.new) result }
    ensures frame { Frame (S.seen site.old) (S.seen site.new) }
    ensures cause { IsErrOf result Trouble.Fault → Rose (S.seen site.old).faults (S.seen site.new).faults }
{
    let cleared = Reply::new(alloc, &Answer::Cleared)?;
    match clear_only(site, force) {
        Ok(()) => Ok(cleared),
        Err(SaveFault::Refused(why)) => {
            let reply = Reply::new(alloc, &Answer::Refused(Refusal::Judged(why)))?;
            Ok(reply)
        }
        Err(SaveFault::NoNumber) => unreachable!(),
        Err(SaveFault::SiteFault) => Err(Trouble::Fault),
    }
}

/// `savecore -c`: marks the partition's dump as saved.
pub(crate) fn clear_dump<S: Site>(
    alloc: Global,
    site: &mut S,
    force: bool,
) -> Result<Reply, Trouble>
    ensures works { WorksOnSite (clear_row force) (S.seen site.old) (S.seen site.new) result }
    ensures frame { Frame (S.seen site.old) (S.seen site.new) }
    ensures cause { IsErrOf result Trouble.Fault → Rose (S.seen site.old).faults (S.seen site.new).faults }
{
    let size = site.size();
    let block = site.block();
    if !good_partition(size, block) {
        let bad = Refusal::Partition(BadPartition { size, block });
        let reply = Reply::new(alloc, &Answer::Refused(bad))?;
        return Ok(reply);
    }
    clear_good(alloc, site, force)
}
