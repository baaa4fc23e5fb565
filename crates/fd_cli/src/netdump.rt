//! `netdump IMAGE ADDRESS`.

ghost use Rattle.std.specs.Prelude.{◌≤◌, OnErr};
ghost use Rattle.fd_site.specs.Fault.{Rose};
ghost use Rattle.fd_site.specs.Seen.{Watched};
ghost use Rattle.fd_site.specs.Trace.{PortsEvent};
ghost use Rattle.fd_dump.specs.Plan.{IsPlanOf};
ghost use Rattle.fd_cli.specs.Reply.{Worked};
ghost use Rattle.fd_cli.specs.Row.{reach};
ghost use Rattle.fd_cli.specs.Rows.Netdump.{SendsOnLink, netdump_row};
ghost use Rattle.fd_words.specs.Source.{HasGoodName};

use crate::dump_image::{refuse_image, take_image};
use crate::reply::{Reply, Trouble};
use crate::status;
use crate::text::{no_answer_line, sent_line};
use fd_dump::Plan;
use fd_image::Image;
use fd_netclient::{ClientFault, Limits, send_dump};
use fd_site::{Failed, Link, Site};
use fd_words::Source;
use std::alloc::Global;

// Sends the dump of an image. What is replied to that takes no memory.
fn send_plan<L: Link>(
    link: &mut L,
    server: u32,
    image: &Image,
    plan: &Plan,
) -> Result<Reply, Failed>
    requires { IsPlanOf plan.now image.now }
    ensures sends { SendsOnLink server image.now (L.seen link.old).told (L.seen link.new).told result }
    ensures count { (L.seen link.old).faults ≤ (L.seen link.new).faults }
    ensures cause { OnErr result (Rose (L.seen link.old).faults (L.seen link.new).faults) }
{
    link.open(server)?;
    match send_dump(link, plan, image, Limits::usual()) {
        Ok(last) => Ok(Reply::done(sent_line(plan.length(), last))),
        Err(ClientFault::TimedOut(number)) => {
            Ok(Reply::of_line(status::REFUSED, no_answer_line(number)))
        }
        Err(ClientFault::LinkFault) => Err(Failed),
    }
}

/// `netdump IMAGE ADDRESS`: sends the dump of the image that comes from this source to the server of this IPv4 address. All
/// memory is taken before the link is opened.
pub(crate) fn send_image<S: Site, L: Link>(
    alloc: Global,
    site: &mut S,
    link: &mut L,
    source: &Source,
    server: u32,
) -> Result<Reply, Trouble>
    requires { HasGoodName source.now }
    ensures { (ports : Watched PortsEvent) → Worked (netdump_row source.now server) (reach (S.seen site.old) (L.seen link.old) ports) (reach (S.seen site.new) (L.seen link.new) ports) result }
{
    let image = match take_image(alloc, site, source) {
        Ok(image) => image,
        Err(fault) => return refuse_image(alloc, fault),
    };
    let plan = Plan::prepare(alloc, &image)?;
    match send_plan(link, server, &image, &plan) {
        Ok(reply) => Ok(reply),
        Err(Failed) => Err(Trouble::Fault),
    }
}
