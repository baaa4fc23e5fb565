//! `drill IMAGE STOP ADDRESS LENGTH`.

ghost use Rattle.std.specs.Prelude.{◌≡◌, ◌≤◌, IfOk, IsErrOf};
ghost use Rattle.fd_words.specs.Source.{HasGoodName};
ghost use Rattle.fd_cli.specs.Ending.{CallOnSite};
ghost use Rattle.fd_cli.specs.Reply.{IsReplyOf};
ghost use Rattle.fd_cli.specs.Rows.Drill.{drill_row, drilled_status, EndsDrill, file_refusal, PrintsRefusal};
ghost use Rattle.fd_cli.specs.declared.answer.Answer.TheVariants.{Refused};

use crate::dump_image::{refuse, refuse_image, take_image};
use crate::print_reply::print_reply;
use crate::refusal::Refusal;
use crate::reply::{Reply, Trouble};
use crate::status;
use fd_part::{BadPartition, good_partition};
use fd_site::{Sink, Site};
use fd_vmcore::OpenFault;
use fd_way::{Drilled, WayFault, drill};
use fd_words::Source;
use std::alloc::{AllocError, Global};

// The reply to a partition that isn't good.
fn refuse_partition(alloc: Global, bad: BadPartition) -> Result<Reply, Trouble>
    ensures reply { IfOk result (IsReplyOf (Refused (Refusal.Partition bad))) }
    ensures no_fault { IsErrOf result Trouble.Fault → ⊥ }
{
    let reply = refuse(alloc, Refusal::Partition(bad))?;
    Ok(reply)
}

// What a vmcore that was saved is refused for.
fn file_refusal(fault: OpenFault) -> Refusal
    ensures { result ≡ file_refusal fault }
{
    match fault {
        OpenFault::Short(need, have) => Refusal::Short { need, have },
        OpenFault::Mini(fault) => Refusal::Mini(fault),
        OpenFault::BadAvail(index) => Refusal::BadAvail(index),
        OpenFault::NoFile | OpenFault::SiteFault | OpenFault::NoMemory => Refusal::NoFile,
    }
}

// Prints a refusal's line, behind what a drill printed, and answers the status that follows.
fn print_refusal<O: Sink>(alloc: Global, refusal: Refusal, out: &mut O) -> u8
    ensures prints { PrintsRefusal refusal (O.seen out.old) (O.seen out.new) result }
    ensures count { (O.seen out.old).faults ≤ (O.seen out.new).faults }
{
    let reply = match refuse(alloc, refusal) {
        Ok(reply) => reply,
        Err(AllocError) => return status::MEMORY,
    };
    match out.put(reply.text.as_slice()) {
        Ok(()) => reply.status,
        Err(_) => status::FAULT,
    }
}

// Prints why a drill was ended, where that is a refusal, and answers the status that follows.
fn print_end<O: Sink>(alloc: Global, why: WayFault, out: &mut O) -> u8
    ensures ends { EndsDrill why (O.seen out.old) (O.seen out.new) result }
    ensures count { (O.seen out.old).faults ≤ (O.seen out.new).faults }
{
    match why {
        WayFault::Unread(fault) => print_refusal(alloc, file_refusal(fault), out),
        WayFault::NoRoom(room) => print_refusal(alloc, Refusal::NoRoom(room), out),
        WayFault::NoNumber => print_refusal(alloc, Refusal::NoNumber, out),
        WayFault::SiteFault => status::FAULT,
        WayFault::SinkFault => status::FAULT,
        WayFault::NoMemory => status::MEMORY,
    }
}

// The status that follows a drill that printed all its text itself.
fn drilled_status(done: Drilled) -> u8
    ensures { result ≡ drilled_status done }
{
    match done {
        Drilled::Saved { fault: None, .. } => 0,
        Drilled::Saved { fault: Some(_), .. } => status::REFUSED,
        Drilled::Refused(_) => status::REFUSED,
    }
}

/// Takes the image that comes from this source the whole way: the first `stop` sectors of its dump are written, what then
/// stands on the partition is saved, and `count` bytes of the saved file are printed from a kernel address on. Answers the
/// status that follows.
pub(crate) fn drill_image<S: Site, O: Sink>(
    alloc: Global,
    site: &mut S,
    source: &Source,
    stop: u64,
    address: u64,
    count: u32,
    out: &mut O,
) -> u8
    requires { HasGoodName source.now }
    ensures { CallOnSite (drill_row source.now stop address count) (S.seen site.old) (S.seen site.new) (O.seen out.old) (O.seen out.new) result }
{
    let size = site.size();
    let block = site.block();
    if !good_partition(size, block) {
        return print_reply(refuse_partition(alloc, BadPartition { size, block }), out);
    }
    let image = match take_image(alloc, site, source) {
        Ok(image) => image,
        Err(fault) => return print_reply(refuse_image(alloc, fault), out),
    };
    match drill(alloc, site, &image, stop, address, count, out) {
        Ok(done) => drilled_status(done),
        Err(why) => print_end(alloc, why, out),
    }
}
