//! `savecore -C [-f]`.

ghost use Rattle.std.specs.Prelude.{◌≡◌, ◌≤◌, IfOk, OnErr};
ghost use Rattle.fd_site.specs.Fault.{Rose};
ghost use Rattle.fd_site.specs.Seen.{Untouched};
ghost use Rattle.fd_cli.specs.Ending.{IsPrintable};
ghost use Rattle.fd_cli.specs.Rows.Common.{DoesOnly};
ghost use Rattle.fd_cli.specs.Rows.Judge.{judge_row};

use crate::answer::Answer;
use crate::refusal::Refusal;
use fd_judge::{Verdict, judge};
use fd_part::{BadPartition, good_partition};
use fd_site::{Site, SiteFault};

/// `savecore -C`: is there a dump on the partition? By force a cleared one counts too.
pub(crate) fn judge_partition<S: Site>(site: &mut S, force: bool) -> Result<Answer, SiteFault>
    ensures answer { IfOk result (DoesOnly (judge_row force) (S.seen site.old)) }
    ensures printable { IfOk result IsPrintable }
    ensures untouched { Untouched (S.seen site.old) (S.seen site.new) }
    ensures cause { OnErr result (Rose (S.seen site.old).faults (S.seen site.new).faults) }
{
    let size = site.size();
    let block = site.block();
    if !good_partition(size, block) {
        return Ok(Answer::Refused(Refusal::Partition(BadPartition { size, block })));
    }
    match judge(site, force)? {
        Verdict::Dump { header, .. } => Ok(Answer::Dump {
            length: header.dumplength,
        }),
        Verdict::Refused(why) => Ok(Answer::Refused(Refusal::Judged(why))),
    }
}
