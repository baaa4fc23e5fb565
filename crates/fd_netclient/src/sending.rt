//! A dump that is sent over a link.

ghost use Rattle.std.specs.Prelude.{◌≡◌, ℕ, ◌≤◌, List, IsErrOf, OnErr, OnOk};
ghost use Rattle.fd_site.specs.Fault.{Rose};
ghost use Rattle.fd_dump.specs.Header.{header_of};
ghost use Rattle.fd_dump.specs.Minidump.{minidump_of};
ghost use Rattle.fd_dump.specs.Plan.{IsPlanOf};
ghost use Rattle.fd_kdh.specs.declared.header.Header.{Header};
ghost use Rattle.fd_netclient.specs.Client.{IsPatient, patience_of};
ghost use Rattle.fd_netclient.specs.Machine.{want_of};
ghost use Rattle.fd_netclient.specs.Sending.{Grows, IsSending, IsStep};
ghost use Rattle.fd_netclient.specs.declared.client.Want.TheVariants as want;

use crate::client::{Client, Want};
use crate::datagrams::Datagrams;
use crate::fault::ClientFault;
use crate::limits::Limits;
use fd_dump::Plan;
use fd_image::Image;
use fd_site::{Failed, Link, Polled};

// Sends the datagram of the number that the client wants.
fn send_next<L: Link>(
    link: &mut L,
    client: &mut Client,
    datagrams: &Datagrams,
    number: u32,
) -> Result<(), Failed>
    requires { want_of client.old.state ≡ want.Send number }
    ensures ok { OnOk result (IsStep (minidump_of datagrams.now.image.now) (header_of datagrams.now.image.now 512) (L.seen link.old).told (L.seen link.new).told client.old client.new) }
    ensures err { OnErr result ((L.seen link.new).told ≡ (L.seen link.old).told) }
    ensures count { (L.seen link.old).faults ≤ (L.seen link.new).faults }
    ensures cause { OnErr result (Rose (L.seen link.old).faults (L.seen link.new).faults) }
{
    let mut datagram = [0; 4120];
    let len = datagrams.put(number, &mut datagram);
    link.send(client.port(), &datagram[..len])?;
    client.sent();
    Ok(())
}

// Polls the link, and tells the client what that brought.
fn hear<L: Link>(link: &mut L, client: &mut Client) -> Result<(), Failed>
    requires { want_of client.old.state ≡ want.Poll }
    ensures ok { (dump : List ℕ) (h : Header) → OnOk result (IsStep dump h (L.seen link.old).told (L.seen link.new).told client.old client.new) }
    ensures err { OnErr result ((L.seen link.new).told ≡ (L.seen link.old).told) }
    ensures count { (L.seen link.old).faults ≤ (L.seen link.new).faults }
    ensures cause { OnErr result (Rose (L.seen link.old).faults (L.seen link.new).faults) }
{
    let mut out = [0; 64];
    match link.poll(&mut out)? {
        Polled::Silent => client.silent(),
        Polled::Got { port, len } => client.got(port, &out[..len]),
    }
    Ok(())
}

/// Sends the image's dump over a link that was opened: the herald, the chunks of its minidump, the header of a device whose
/// blocks have 512 bytes, and finished. It answers the last number, when all were acknowledged. The plan was prepared of
/// the image. No memory is taken: each chunk is made in one buffer.
///
/// `TimedOut` is answered with the least number that wasn't acknowledged, where the rounds of a batch are over.
/// `LinkFault` is answered where the link fails before the end, and nothing more is sent.
pub fn send_dump<L: Link>(
    link: &mut L,
    plan: &Plan,
    image: &Image,
    limits: Limits,
) -> Result<u32, ClientFault>
    requires plan { IsPlanOf plan.now image.now }
    requires patient { IsPatient limits }
    ensures sends { Grows (IsSending (minidump_of image.now) (header_of image.now 512) (patience_of limits) result) (L.seen link.old).told (L.seen link.new).told }
    ensures count { (L.seen link.old).faults ≤ (L.seen link.new).faults }
    ensures cause { IsErrOf result ClientFault.LinkFault → Rose (L.seen link.old).faults (L.seen link.new).faults }
{
    let datagrams = Datagrams::new(plan, image);
    let chunks = datagrams.chunks();
    let mut client = Client::new(chunks, limits);
    loop {
        match client.want() {
            Want::Send(number) => send_next(link, &mut client, &datagrams, number)?,
            Want::Poll => hear(link, &mut client)?,
            Want::Done => return Ok(chunks + 3),
            Want::TimedOut(number) => return Err(ClientFault::TimedOut(number)),
        }
    }
}
