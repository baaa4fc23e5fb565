//! What a server answers to tables of messages, over sites in memory.

ghost use Rattle.std.specs.Prelude.{◌≡◌, ◌≤◌, OnOk};
ghost use Rattle.fd_kdh.specs.Header.{FitsFields};
ghost use Rattle.fd_netserver.specs.Running.{HasServed};

use fd_bytes::{Arch, Label};
use fd_fake::MemSite;
use fd_info::vmcore_name;
use fd_kdh::{Header, encode};
use fd_netmsg::{FINISHED, HERALD, KDH, KEY, VMCORE, put_message};
use fd_netserver::{Reply, Server, Skip};
use fd_site::{Peer, Site};
use std::alloc::{AllocError, Global};
use std::process::Abort;
use std::test::Fail;

pub(crate) const PEER: Peer = Peer {
    address: 0x7f00_0001,
    port: 20024,
};

const OTHER: Peer = Peer {
    address: 0x7f00_0001,
    port: 20025,
};

// What a message says. Data is so many bytes, at most eight, and a header is that of a dump of so many bytes.
#[derive(Clone, Copy)]
pub(crate) enum Says {
    Herald,
    Data(u64, usize),
    Header(u64),
    Finished,
    Key,
}

// A message of a peer to a slot.
#[derive(Clone, Copy)]
pub(crate) struct Sent {
    pub slot: u16,
    pub peer: Peer,
    pub seqno: u32,
    pub says: Says,
}

pub(crate) fn herald(peer: Peer, seqno: u32) -> Sent
    ensures { result.slot ≡ 0 }
{
    Sent {
        slot: 0,
        peer,
        seqno,
        says: Says::Herald,
    }
}

// A message of the first peer to the slot of the first session.
pub(crate) fn first(seqno: u32, says: Says) -> Sent
    ensures { result.slot ≡ 1 }
{
    Sent {
        slot: 1,
        peer: PEER,
        seqno,
        says,
    }
}

// A message of the other peer to the slot of the second session.
fn second(seqno: u32, says: Says) -> Sent {
    Sent {
        slot: 2,
        peer: OTHER,
        seqno,
        says,
    }
}

// The header of a dump of so many bytes.
pub(crate) fn header(length: u64) -> Header
    ensures fits { FitsFields result }
    ensures length { result.dumplength ≡ length }
{
    Header {
        architecture: Label::cut(Arch::Riscv.name()),
        architectureversion: Arch::Riscv.header_version(),
        dumplength: length,
        dumptime: 1_700_000_000,
        dumpkeysize: 0,
        blocksize: 512,
        hostname: Label::cut(b"rv"),
        versionstring: Label::cut_version(b"FreeBSD 14"),
        panicstring: Label::cut(b"test"),
        compression: 0,
        dumpextent: length,
    }
}

// Writes a message, and answers how many bytes it has.
pub(crate) fn put(sent: Sent, out: &mut [u8; 4120]) -> usize
    ensures { result ≤ 4120 }
{
    let bytes = [b'a'; 8];
    match sent.says {
        Says::Herald => put_message(HERALD, sent.seqno, 0, b"", out),
        Says::Data(offset, count) => {
            put_message(VMCORE, sent.seqno, offset, &bytes[..count.min(8)], out)
        }
        Says::Header(length) => put_message(KDH, sent.seqno, 0, &encode(&header(length)), out),
        Says::Finished => put_message(FINISHED, sent.seqno, 0, b"", out),
        Says::Key => put_message(KEY, sent.seqno, 0, b"", out),
    }
}

// A server that has taken each of its turns over the site takes one more.
fn take_next<S: Site>(
    server: &mut Server,
    site: &mut S,
    slot: u16,
    peer: Peer,
    bytes: &[u8],
) -> Result<Reply, AllocError>
    requires { HasServed (S.seen site.old).told server.old }
    ensures { OnOk result (HasServed (S.seen site.new).told server.new) }
{
    server.take(site, slot, peer, bytes)
}

// The server answers each message by the reply beside it.
fn answers<S: Site>(
    rt: &impl Abort,
    server: &mut Server,
    site: &mut S,
    table: &[(Sent, Reply)],
) -> Result<(), Fail>
    requires { HasServed (S.seen site.old).told server.old }
    ensures { OnOk result (HasServed (S.seen site.new).told server.new) }
{
    for (sent, wanted) in table {
        let mut out = [0; 4120];
        let len = put(*sent, &mut out);
        let reply = take_next(server, site, sent.slot, sent.peer, &out[..len])?;
        assert_eq!(rt; reply, *wanted, "{}", sent.seqno);
    }
    Ok(())
}

fn acked(seqno: u32) -> Reply {
    Reply::Ack { slot: 1, seqno }
}

fn opened(slot: u16, seqno: u32) -> Reply
    requires { 1 ≤ slot }
{
    Reply::Opened {
        slot,
        seqno,
        number: u32::from(slot) - 1,
    }
}

// A new server over a site, of which the calls of these numbers fail, answers each message by the reply beside it; and then
// a file has so many bytes.
#[tactic(auto, using(fd_netserver::proofs::Running::has_none))]
fn runs(
    rt: &impl Abort,
    alloc: Global,
    fails: Vec<u64>,
    table: &[(Sent, Reply)],
    number: u32,
    length: u64,
) -> Result<(), Fail> {
    let mut server = Server::new(alloc);
    let mut site = MemSite::new(alloc, 0, 512, fails)?;
    answers(rt, &mut server, &mut site, table)?;
    let name = vmcore_name(number);
    assert_eq!(rt; site.file_len(name.as_str())?, Some(length));
    Ok(())
}

#[test]
fn a_dump_is_finished_when_it_is_whole(rt: HostRuntime) -> Result<(), Fail> {
    let mut stranger = first(5, Says::Finished);
    stranger.peer = OTHER;
    let finished = Reply::Finished {
        seqno: 5,
        slot: 1,
        number: 0,
        length: 8,
    };
    let table = [
        (herald(PEER, 1), opened(1, 1)),
        (first(4, Says::Header(8)), acked(4)),
        (first(5, Says::Finished), Reply::Ignored(Skip::NotWhole)),
        (stranger, Reply::Ignored(Skip::Stranger)),
        (first(3, Says::Data(4, 4)), acked(3)),
        (first(5, Says::Finished), Reply::Ignored(Skip::NotWhole)),
        (first(2, Says::Data(0, 4)), acked(2)),
        (first(5, Says::Finished), finished),
        (first(5, Says::Finished), acked(5)),
        (first(2, Says::Data(0, 4)), Reply::Ignored(Skip::Closed)),
    ];
    let alloc = rt.alloc();
    runs(&rt, alloc, Vec::new(alloc), table.as_slice(), 0, 8)
}

// The herald of the peer of a number, and what a new server answers it.
fn nth_herald(i: u16) -> (Sent, Reply)
    requires { i ≤ 16 }
{
    let peer = Peer {
        address: u32::from(i),
        port: 20024,
    };
    let seqno = 100 + u32::from(i);
    (herald(peer, seqno), opened(i + 1, seqno))
}

#[test]
fn a_server_opens_sixteen_sessions(rt: HostRuntime) -> Result<(), Fail> {
    let mut again = nth_herald(0).0;
    again.seqno = 8;
    let mut table = [(again, acked(8)); 18];
    for i in 0..16_u16 {
        table[usize::from(i)] = nth_herald(i);
    }
    table[16] = (nth_herald(16).0, Reply::Ignored(Skip::Full));
    let alloc = rt.alloc();
    runs(&rt, alloc, Vec::new(alloc), table.as_slice(), 15, 0)
}

#[test]
fn what_is_too_far_is_refused(rt: HostRuntime) -> Result<(), Fail> {
    let end = 1 << 40;
    let table = [
        (herald(PEER, 1), opened(1, 1)),
        (first(2, Says::Data(end, 0)), acked(2)),
        (first(3, Says::Data(end, 1)), Reply::Ignored(Skip::TooFar)),
        (first(4, Says::Key), Reply::Ignored(Skip::Key)),
        (
            first(5, Says::Header(end + 1)),
            Reply::Ignored(Skip::BadHeader),
        ),
        (first(6, Says::Header(8)), acked(6)),
        (first(7, Says::Data(0, 8)), acked(7)),
        (first(8, Says::Data(8, 1)), acked(8)),
        (first(9, Says::Finished), Reply::Ignored(Skip::NotWhole)),
    ];
    let alloc = rt.alloc();
    runs(&rt, alloc, Vec::new(alloc), table.as_slice(), 0, 9)
}

// The first session meets a fault at its first data, and the second one ends.
#[test]
fn a_fault_of_the_site_breaks_one_session(rt: HostRuntime) -> Result<(), Fail> {
    let finished = Reply::Finished {
        seqno: 5,
        slot: 2,
        number: 1,
        length: 8,
    };
    let table = [
        (herald(PEER, 1), opened(1, 1)),
        (herald(OTHER, 1), opened(2, 1)),
        (first(2, Says::Data(0, 1)), Reply::Ignored(Skip::Broken)),
        (first(3, Says::Finished), Reply::Ignored(Skip::Broken)),
        (
            second(2, Says::Data(0, 8)),
            Reply::Ack { slot: 2, seqno: 2 },
        ),
        (second(4, Says::Header(8)), Reply::Ack { slot: 2, seqno: 4 }),
        (second(5, Says::Finished), finished),
    ];
    let alloc = rt.alloc();
    runs(&rt, alloc, vec![in alloc; 8]?, table.as_slice(), 1, 8)
}
