//! Dumps that are sent and received while one call of the link, the ports, the site or the sink fails.

use crate::dumps::with_image;
use crate::image_files::riscv_image;
use crate::networks::{acknowledges, sends};
use crate::no_net::NoNet;
use crate::partitions::{failing_once, partition, words_in};
use crate::replay::Replay;
use crate::stands::{Setting, holds};
use fd_cli::crashway;
use fd_fake::{LinkEvent, MemLink, MemSink, MemSite};
use fd_site::{Ports, Site};
use std::alloc::Global;
use std::process::Abort;
use std::test::Fail;

// Which call fails of the site, of the link, and of the sink; the 0th never comes.
#[derive(Clone, Copy)]
struct Failing {
    site: u64,
    link: u64,
    sink: u64,
}

// No call fails.
const NONE: Failing = Failing {
    site: 0,
    link: 0,
    sink: 0,
};

// How a call ended: its status, whether it printed its text, and how many calls of the site and events of the link there were.
#[derive(Clone, Copy)]
struct Ended {
    status: u8,
    printed: bool,
    calls: u64,
    events: u64,
}

// Sends the dump over a link that acknowledges each datagram. It prints all or nothing.
fn sends_with(rt: &impl Abort, alloc: Global, failing: Failing) -> Result<Ended, Fail> {
    let fails = vec![in alloc; failing.site]?;
    let mut site = with_image(alloc, 1000, fails, riscv_image(alloc)?)?;
    let fails = vec![in alloc; failing.link]?;
    let mut link = MemLink::new(alloc, acknowledges(alloc, 11)?, fails);
    let mut out = MemSink::new(alloc, vec![in alloc; failing.sink]?);
    let words = words_in(alloc, "netdump a.img 10.0.0.255")?;
    let status = crashway(
        alloc,
        &words,
        &mut site,
        &mut link,
        &mut NoNet::new(),
        &mut out,
    );
    assert!(rt; out.bytes().is_empty() || out.bytes() == b"sent 32768 11\n".as_slice());
    Ok(Ended {
        status,
        printed: !out.bytes().is_empty(),
        calls: site.calls(),
        events: link.trace().len() as u64,
    })
}

// A dump isn't sent, and so many events of the link came before.
fn is_not_sent(rt: &impl Abort, alloc: Global, failing: Failing, events: u64) -> Result<(), Fail> {
    let ended = sends_with(rt, alloc, failing)?;
    assert_eq!(rt; ended.status, 74);
    assert!(rt; !ended.printed);
    assert_eq!(rt; ended.events, events);
    Ok(())
}

#[test]
fn a_dump_of_whose_sending_any_call_fails_is_not_announced(rt: HostRuntime) -> Result<(), Fail> {
    let alloc = rt.alloc();
    let sent = sends_with(&rt, alloc, NONE)?;
    assert_eq!(&rt; sent.status, 0);
    assert!(&rt; sent.printed);
    // The link is opened, and each of eleven datagrams is sent and acknowledged.
    assert_eq!(&rt; sent.events, 23);
    for site in 1..=sent.calls {
        is_not_sent(&rt, alloc, Failing { site, ..NONE }, 0)?;
    }
    for before in 0..sent.events {
        let failing = Failing {
            link: before + 1,
            ..NONE
        };
        is_not_sent(&rt, alloc, failing, before)?;
    }
    is_not_sent(&rt, alloc, Failing { sink: 1, ..NONE }, sent.events)
}

// Receives one dump over these ports, and compares the status and the text.
fn receives<P: Ports>(
    rt: &impl Abort,
    alloc: Global,
    site: &mut MemSite,
    ports: &mut P,
    sink: u64,
    status: u8,
    text: &str,
) -> Result<(), Fail> {
    let words = words_in(alloc, "netdumpd 1")?;
    let mut out = MemSink::new(alloc, vec![in alloc; sink]?);
    let ended = crashway(alloc, &words, site, &mut NoNet::new(), ports, &mut out);
    assert_eq!(rt; ended, status, "{text}");
    assert_eq!(rt; out.bytes(), text.as_bytes(), "{text}");
    assert_eq!(rt; site.starved(), 0);
    Ok(())
}

// Receives the dump where one call of the ports fails, or the sink. Its text is there only behind all of it. Answers
// whether the text is there, and how many calls of the ports were made.
fn receives_with(
    rt: &impl Abort,
    alloc: Global,
    sent: (&[LinkEvent], &[u8]),
    failing: (u64, u64),
    status: u8,
    text: &str,
) -> Result<(bool, u64), Fail> {
    let (trace, dump) = sent;
    let mut site = partition(alloc, 1000, 512)?;
    let mut ports = Replay::new(trace, 1, failing.0);
    receives(rt, alloc, &mut site, &mut ports, failing.1, status, text)?;
    match site.file_len("info.0") {
        Ok(Some(_)) => {
            holds(rt, alloc, &mut site, "vmcore.0", dump)?;
            Ok((true, ports.calls()))
        }
        _ => Ok((false, ports.calls())),
    }
}

// The calls of the ports up to the answer to the last datagram: they are listened to, looked at 22 times, as often as the link
// was asked, and a slot is opened; ten datagrams were answered before.
const ANSWERS_LAST: u64 = 35;

// Each call of the ports fails in turn, the looks of a server that lingers too: the dump is there from the answer to its last
// datagram on.
fn each_port_fails(
    rt: &impl Abort,
    alloc: Global,
    sent: (&[LinkEvent], &[u8]),
) -> Result<(), Fail> {
    let line = "received vmcore.0 32768\n";
    let (there, calls) = receives_with(rt, alloc, sent, (0, 0), 0, line)?;
    assert!(rt; there);
    assert_eq!(rt; calls, ANSWERS_LAST + 2000);
    for failing in 1..=calls {
        let (there, made) = receives_with(rt, alloc, sent, (failing, 0), 74, "")?;
        assert_eq!(rt; there, failing >= ANSWERS_LAST, "{failing}");
        assert_eq!(rt; made, failing);
    }
    let (there, _) = receives_with(rt, alloc, sent, (0, 1), 74, "")?;
    assert!(rt; there);
    Ok(())
}

// Receives the dump that two clients send while one call of the site fails.
fn receives_from_two(
    rt: &impl Abort,
    alloc: Global,
    sent: (&[LinkEvent], &[u8]),
    failing: u64,
    names: &[&str],
    text: &str,
) -> Result<u64, Fail> {
    let (trace, dump) = sent;
    let mut site = failing_once(alloc, 1000, failing)?;
    let mut ports = Replay::new(trace, 2, 0);
    receives(rt, alloc, &mut site, &mut ports, 0, 0, text)?;
    let calls = site.calls();
    for name in names {
        holds(rt, alloc, &mut site, *name, dump)?;
    }
    Ok(calls)
}

// A fault breaks the session that met it, and not the other one.
fn each_call_of_the_site_fails(
    rt: &impl Abort,
    alloc: Global,
    sent: (&[LinkEvent], &[u8]),
) -> Result<(), Fail> {
    let both = "received vmcore.0 32768\nreceived vmcore.1 32768\n";
    let names = ["vmcore.0", "vmcore.1"];
    let calls = receives_from_two(rt, alloc, sent, 0, &names, both)?;
    // Of the first session: its number is looked for and its file made, the file is written, and its end.
    assert_eq!(rt; calls, 31);
    for (from, to, name, line) in [
        (1, 3, "vmcore.0", "received vmcore.0 32768\n"),
        (4, 15, "vmcore.1", "received vmcore.1 32768\n"),
        (16, 31, "vmcore.0", "received vmcore.0 32768\n"),
    ]
    .as_slice()
    {
        for failing in *from..=*to {
            receives_from_two(rt, alloc, sent, failing, &[*name], *line)?;
        }
    }
    Ok(())
}

// The dump that is received, and what its client did.
fn dump_and_link(rt: &impl Abort, alloc: Global) -> Result<(Setting, MemLink), Fail> {
    let setting = Setting::new(rt, alloc, 512)?;
    let mut site = with_image(alloc, 1000, Vec::new(alloc), riscv_image(alloc)?)?;
    let mut link = MemLink::new(alloc, acknowledges(alloc, 11)?, Vec::new(alloc));
    sends(rt, alloc, &mut site, &mut link, 0, "sent 32768 11\n")?;
    Ok((setting, link))
}

#[test]
fn whichever_call_of_the_ports_fails_a_finished_dump_is_whole(rt: HostRuntime) -> Result<(), Fail> {
    let alloc = rt.alloc();
    let (setting, link) = dump_and_link(&rt, alloc)?;
    each_port_fails(&rt, alloc, (link.trace(), setting.dump()))
}

#[test]
fn whichever_call_of_the_site_fails_another_session_is_received(
    rt: HostRuntime,
) -> Result<(), Fail> {
    let alloc = rt.alloc();
    let (setting, link) = dump_and_link(&rt, alloc)?;
    each_call_of_the_site_fails(&rt, alloc, (link.trace(), setting.dump()))
}
