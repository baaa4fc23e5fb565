//! Dumps that are sent to a server, and received from a client, in memory.

use crate::dumps::with_image;
use crate::image_files::riscv_image;
use crate::no_net::NoNet;
use crate::partitions::{check, partition, words_of};
use crate::replay::Replay;
use fd_cli::crashway;
use fd_fake::{Answer, LinkEvent, MemLink, MemSink};
use fd_site::{Link, Ports, Site};
use std::alloc::{AllocError, Global};
use std::process::Abort;
use std::test::Fail;

// Runs the words over the site and the network, and compares the status and the text.
fn goes<S: Site, L: Link, P: Ports>(
    rt: &impl Abort,
    alloc: Global,
    site: &mut S,
    link: &mut L,
    ports: &mut P,
    words: &[&str],
    status: u8,
    text: &str,
) -> Result<(), Fail> {
    let list = words_of(alloc, words)?;
    let mut out = MemSink::new(alloc, Vec::new(alloc));
    let ended = crashway(alloc, &list, site, link, ports, &mut out);
    assert_eq!(rt; ended, status, "{text}");
    assert_eq!(rt; out.bytes(), text.as_bytes(), "{text}");
    Ok(())
}

// Sends the dump of `a.img` over the link.
pub(crate) fn sends<S: Site, L: Link>(
    rt: &impl Abort,
    alloc: Global,
    site: &mut S,
    link: &mut L,
    status: u8,
    text: &str,
) -> Result<(), Fail> {
    let words = ["netdump", "a.img", "010.0.0.255"];
    goes(
        rt,
        alloc,
        site,
        link,
        &mut NoNet::new(),
        &words,
        status,
        text,
    )
}

// Acknowledges the numbers from 1 on, so many, in order, from one port.
pub(crate) fn acknowledges(alloc: Global, last: u32) -> Result<Vec<Answer>, AllocError> {
    let mut script = Vec::new(alloc);
    for number in 1..=last {
        script.push(Answer::Datagram {
            port: 40001,
            bytes: number.to_be_bytes().to_vec(alloc)?,
        })?;
    }
    Ok(script)
}

// Whether a datagram of so many bytes, which begins with these, went to this port.
fn was_sent(trace: &[LinkEvent], to: u16, len: usize, front: &[u8]) -> bool {
    trace.iter().any(|event| match event {
        LinkEvent::Sent { port, bytes } => {
            *port == to && bytes.len() == len && bytes.as_slice().starts_with(front)
        }
        _ => false,
    })
}

// The herald, the last chunk and the end were sent.
fn was_sent_whole(rt: &impl Abort, trace: &[LinkEvent]) {
    assert_eq!(rt; trace.len(), 23);
    for (port, len, front) in [
        (
            20023,
            24,
            b"\0\0\0\x01\0\0\0\x01\0\0\0\0\0\0\0\0\0\0\0\0\0\0\0\0".as_slice(),
        ),
        (
            40001,
            4120,
            b"\0\0\0\x03\0\0\0\x09\0\0\0\0\0\0\x70\0\0\0\x10\0\0\0\0\0".as_slice(),
        ),
        (
            40001,
            24,
            b"\0\0\0\x02\0\0\0\x0b\0\0\0\0\0\0\0\0\0\0\0\0\0\0\0\0".as_slice(),
        ),
    ]
    .as_slice()
    {
        assert!(rt; was_sent(trace, *port, *len, *front), "{len}");
    }
}

// Receives the dump that was sent in a trace, and reads it.
fn receives<S: Site>(
    rt: &impl Abort,
    alloc: Global,
    site: &mut S,
    trace: &[LinkEvent],
) -> Result<(), Fail> {
    let mut ports = Replay::new(trace, 1, 0);
    let (words, text) = (["netdumpd", "1"], "received vmcore.0 32768\n");
    goes(
        rt,
        alloc,
        site,
        &mut NoNet::new(),
        &mut ports,
        &words,
        0,
        text,
    )?;
    let words = ["read", "vmcore.0", "0xffffffd000001000", "8"];
    check(
        rt,
        alloc,
        site,
        &words,
        0,
        "ffffffd000001000 00 10 00 80 00 00 00 00\n",
    )
}

#[test]
fn a_dump_that_is_sent_is_received_whole(rt: HostRuntime) -> Result<(), Fail> {
    let alloc = rt.alloc();
    let mut site = with_image(alloc, 1000, Vec::new(alloc), riscv_image(alloc)?)?;
    let mut link = MemLink::new(alloc, acknowledges(alloc, 11)?, Vec::new(alloc));
    sends(&rt, alloc, &mut site, &mut link, 0, "sent 32768 11\n")?;
    assert!(&rt;
        matches!(
            link.trace().get(0),
            Some(LinkEvent::Opening {
                server: 0x0a00_00ff
            })
        )
    );
    was_sent_whole(&rt, link.trace());
    receives(&rt, alloc, &mut site, link.trace())
}

#[test]
fn the_last_message_is_sent_eleven_times(rt: HostRuntime) -> Result<(), Fail> {
    let alloc = rt.alloc();
    let mut site = with_image(alloc, 1000, Vec::new(alloc), riscv_image(alloc)?)?;
    let mut link = MemLink::new(alloc, acknowledges(alloc, 10)?, Vec::new(alloc));
    let line = "refused 31: no answer to 11\n";
    sends(&rt, alloc, &mut site, &mut link, 1, line)?;
    // Opened, ten datagrams and their acknowledgements, and eleven rounds of one datagram and 2000 polls.
    assert_eq!(&rt; link.trace().len(), 1 + 20 + 11 * 2001);
    Ok(())
}

#[test]
fn an_address_has_four_numbers(rt: HostRuntime) -> Result<(), Fail> {
    let alloc = rt.alloc();
    let mut site = with_image(alloc, 1000, Vec::new(alloc), riscv_image(alloc)?)?;
    for address in [
        "1.2.3",
        "1.2.3.4.5",
        "1..2.3",
        "1.2.3.256",
        "1.2.3.0004",
        "0x1.2.3.4",
        ".1.2.3",
        "",
    ] {
        let words = ["netdump", "a.img", address];
        check(
            &rt,
            alloc,
            &mut site,
            &words,
            64,
            "refused 60: not a command\n",
        )?;
    }
    Ok(())
}

#[test]
fn from_one_to_sixteen_dumps_are_received(rt: HostRuntime) -> Result<(), Fail> {
    let alloc = rt.alloc();
    let mut site = partition(alloc, 1000, 512)?;
    for dumps in ["0", "17", "-1", "one"] {
        let words = ["netdumpd", dumps];
        check(
            &rt,
            alloc,
            &mut site,
            &words,
            64,
            "refused 60: not a command\n",
        )?;
    }
    // The ports of no network fail.
    check(&rt, alloc, &mut site, &["netdumpd", "16"], 74, "")
}
