//! `netdumpd DUMPS`.

ghost use Rattle.fd_site.specs.Seen.{Watched};
ghost use Rattle.fd_site.specs.Trace.{LinkEvent};
ghost use Rattle.fd_words.specs.Command.{AreServed};
ghost use Rattle.fd_cli.specs.Reply.{IsReplyOf, Worked};
ghost use Rattle.fd_cli.specs.Row.{reach};
ghost use Rattle.fd_cli.specs.Rows.Netdumpd.{netdumpd_row};
ghost use Rattle.fd_cli.specs.declared.answer.Answer.TheVariants.{Received};

use crate::refusal::spent_status;
use crate::reply::{Reply, Trouble};
use crate::text::report;
use fd_netserver::{ServeFault, ServeLimits, Served, serve};
use fd_site::{Failed, Ports, Site};
use std::alloc::Global;

/// The most turns of a server, each one look at its ports.
const TURNS: u64 = 100_000_000;

/// The turns that a server goes on after the last of its dumps.
const LINGER: u32 = 2000;

// The reply of a server's sessions.
fn reply_of(served: &Served, spent: Option<u64>) -> Reply
    ensures { IsReplyOf (Received served.now.list.items spent) result }
{
    let text = report(served.list.as_slice(), spent);
    Reply::of_report(spent_status(spent), text)
}

/// `netdumpd DUMPS`: receives so many dumps and saves them. A fault of the site breaks the session that met it, and doesn't
/// end the work. What is replied takes no memory.
pub(crate) fn serve_dumps<S: Site, P: Ports>(
    alloc: Global,
    site: &mut S,
    ports: &mut P,
    dumps: u16,
) -> Result<Reply, Trouble>
    requires { AreServed dumps }
    ensures { (link : Watched LinkEvent) → Worked (netdumpd_row dumps) (reach (S.seen site.old) link (P.seen ports.old)) (reach (S.seen site.new) link (P.seen ports.new)) result }
{
    match ports.listen() {
        Ok(()) => {}
        Err(Failed) => return Err(Trouble::Fault),
    }
    let limits = ServeLimits {
        dumps,
        turns: TURNS,
        linger: LINGER,
    };
    let mut served = Served::new();
    match serve(alloc, ports, site, limits, &mut served) {
        Ok(()) => Ok(reply_of(&served, None)),
        Err(ServeFault::TurnsSpent(turns)) => Ok(reply_of(&served, Some(turns))),
        Err(ServeFault::PortsFault) => Err(Trouble::Fault),
        Err(ServeFault::NoMemory) => Err(Trouble::NoMemory),
    }
}
