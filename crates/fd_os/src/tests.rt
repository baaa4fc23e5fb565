//! The adapters over real files, over standard output and over this machine's own network.

use crate::{DirSite, StdSink, UdpLink, UdpPorts, hold_standard};
use fd_site::{Failed, Link, Peer, Polled, Ports, Sink, Site, Taken, good_name};
use std::fs;
use std::net::Net;
use std::ops::Range;
use std::process::Abort;
use std::rt::Clock;
use std::test::Fail;
use std::time::{Duration, Instant};

// Writes the partition's second sector and then both, and reads them back.
fn use_partition<S: Site>(rt: &impl Abort, site: &mut S) -> Result<(), Failed> {
    assert_eq!(rt; site.size(), 1024);
    site.write_part(512, &[2; 512])?;
    site.write_part(0, &[1; 512])?;
    site.write_part(512, &[3; 512])?;
    let mut sector = [0; 512];
    site.read_part(512, &mut sector)?;
    assert!(rt; sector.iter().all(|byte| *byte == 3));
    Ok(())
}

// Makes a file of four bytes.
fn make_file<S: Site>(rt: &impl Abort, site: &mut S, name: &str) -> Result<(), Failed> {
    assert!(rt; good_name(name));
    site.create(name)?;
    match site.file_len(name)? {
        Some(_) => site.write_file(name, 0, b"text"),
        None => Err(Failed),
    }
}

// Syncs a file of four bytes, and reads them.
fn sync_and_read<S: Site>(rt: &impl Abort, site: &mut S, name: &str) -> Result<[u8; 4], Failed> {
    assert!(rt; good_name(name));
    let mut out = [0; 4];
    match site.file_len(name)? {
        Some(_) => site.sync_file(name)?,
        None => return Err(Failed),
    }
    match site.file_len(name)? {
        Some(4) => site.read_file(name, 0, &mut out)?,
        _ => return Err(Failed),
    }
    Ok(out)
}

// Goes over the partition, a file, and a directory in a file's place.
fn use_site<S: Site>(rt: &impl Abort, site: &mut S) -> Result<(), Failed> {
    use_partition(rt, site)?;
    make_file(rt, site, "text")?;
    assert_eq!(rt; sync_and_read(rt, site, "text")?, *b"text");
    assert!(rt; sync_and_read(rt, site, "none").is_err());
    assert!(rt; make_file(rt, site, "folder").is_err());
    Ok(())
}

#[test]
fn a_directory_is_read_and_written(rt: HostRuntime) -> Result<(), Fail> {
    fs::create_dir_all(&rt, "site/folder")?;
    fs::write(&rt, "site/dumpdev", [0; 1024])?;
    let mut site = DirSite::open(&rt, "site", 512)?;
    use_site(&rt, &mut site)?;
    assert_eq!(rt; fs::metadata(&rt, "site/text")?.len(), 4);
    fs::remove_dir_all(&rt, "site")?;
    Ok(())
}

// Reads the partition's second sector, which isn't there any more, and then writes the first one, which is.
fn use_cut_partition<S: Site>(rt: &impl Abort, site: &mut S) {
    assert_eq!(rt; site.size(), 1024);
    let mut sector = [0; 512];
    assert!(rt; site.read_part(512, &mut sector).is_err());
    assert!(rt; site.write_part(0, &sector).is_err());
}

#[test]
fn a_partition_that_failed_is_let_go(rt: HostRuntime) -> Result<(), Fail> {
    fs::create_dir_all(&rt, "cut")?;
    fs::write(&rt, "cut/dumpdev", [1; 1024])?;
    let mut site = DirSite::open(&rt, "cut", 512)?;
    fs::write(&rt, "cut/dumpdev", [1; 512])?;
    use_cut_partition(&rt, &mut site);
    assert!(rt; fs::read(&rt, "cut/dumpdev")?.iter().all(|byte| *byte == 1));
    fs::remove_dir_all(&rt, "cut")?;
    Ok(())
}

#[test]
fn a_missing_directory_has_no_partition(rt: HostRuntime) -> Result<(), Fail> {
    assert_eq!(rt; DirSite::open(&rt, "missing", 512)?.size(), 0);
    Ok(())
}

#[test]
fn text_is_printed(rt: HostRuntime) -> Result<(), Fail> {
    hold_standard(&rt)?;
    StdSink::new(&rt).put(b"text\n")?;
    Ok(())
}

// The address 127.0.0.1.
const LOOPBACK: u32 = 0x7f00_0001;

// Sends a datagram of three bytes to a port of this machine.
fn send<L: Link>(rt: &impl Abort, link: &mut L, port: u16) -> Result<(), Failed> {
    assert!(rt; link.send(port, b"abc").is_err());
    link.open(LOOPBACK)?;
    link.send(port, b"abc")
}

// Takes the datagram of three bytes at the herald's port, and opens a slot.
fn take<P: Ports>(rt: &impl Abort, ports: &mut P) -> Result<Peer, Failed> {
    let mut out = [0; 8192];
    match ports.take(&mut out)? {
        Taken::Got {
            slot: 0,
            peer,
            len: 3,
        } => {
            assert!(rt; out.starts_with(b"abc"));
            ports.open_slot(1)?;
            Ok(peer)
        }
        _ => Err(Failed),
    }
}

// Polls the four bytes with which the server answers, and nothing after them. Gives the port that they came from.
fn hear<L: Link>(rt: &impl Abort, link: &mut L) -> Result<u16, Failed> {
    let mut out = [0; 64];
    match link.poll(&mut out)? {
        Polled::Got { port, len: 4 } => {
            assert!(rt; out.starts_with(b"four"));
            assert_eq!(rt; link.poll(&mut out)?, Polled::Silent);
            Ok(port)
        }
        _ => Err(Failed),
    }
}

// A client sends a datagram to the server, which answers it from the port of a slot.
fn exchange<R: Net + Clock + Eprint + AllocGlobal + Abort>(
    rt: &R,
    ports: &mut UdpPorts<'_, R>,
    link: &mut UdpLink<'_, R>,
) -> Result<(), Fail> {
    assert!(rt; ports.open_slot(1).is_err());
    ports.listen()?;
    send(rt, link, ports.port(0)?)?;
    let peer = take(rt, ports)?;
    ports.answer(1, peer, b"four")?;
    assert_eq!(rt; hear(rt, link)?, ports.port(1)?);
    Ok(())
}

fn serve<R: Net + Clock + Eprint + AllocGlobal + Abort>(
    rt: &R,
    ports: &mut UdpPorts<'_, R>,
) -> Result<(), Fail> {
    let mut link = UdpLink::new(rt);
    exchange(rt, ports, &mut link)
}

// Sends a datagram of one byte to a port for each of the numbers.
fn send_numbers<L: Link>(link: &mut L, port: u16, count: u8) -> Result<(), Failed> {
    for number in 0..count {
        link.send(port, &[number])?;
    }
    Ok(())
}

// Takes so many datagrams, and answers each from its slot with its number. Gives how many were taken at the slot.
fn answer_numbers<P: Ports>(ports: &mut P, count: u8, slot: u16) -> Result<u32, Failed> {
    let mut out = [0; 8192];
    let mut of_slot = 0u32;
    for _ in 0..count {
        match ports.take(&mut out)? {
            Taken::Got { slot: at, peer, .. } => {
                ports.answer(at, peer, &[out[0], 0, 0, 0])?;
                of_slot = of_slot.saturating_add(u32::from(at == slot));
            }
            Taken::Silent => return Err(Failed),
        }
    }
    Ok(of_slot)
}

// Polls so many answers, in the order of their numbers.
fn hear_numbers<L: Link>(rt: &impl Abort, link: &mut L, numbers: Range<u8>) -> Result<(), Failed> {
    let mut out = [0; 64];
    for number in numbers {
        assert!(rt; matches!(link.poll(&mut out)?, Polled::Got { len: 4, .. }));
        assert_eq!(rt; out[0], number);
    }
    Ok(())
}

// A client sends as many datagrams as may be unanswered, and one more when they were answered.
fn exchange_many<R: Net + Clock + Eprint + AllocGlobal + Abort>(
    rt: &R,
    ports: &mut UdpPorts<'_, R>,
) -> Result<(), Fail> {
    let mut link = UdpLink::new(rt);
    ports.listen()?;
    link.open(LOOPBACK)?;
    send_numbers(&mut link, ports.port(0)?, 16)?;
    assert_eq!(rt; answer_numbers(ports, 16, 0)?, 16);
    link.send(ports.port(0)?, &[16])?;
    assert_eq!(rt; answer_numbers(ports, 1, 0)?, 1);
    hear_numbers(rt, &mut link, 0..17)?;
    Ok(())
}

#[test]
fn answers_that_came_before_a_poll_are_kept_in_order(rt: HostRuntime) -> Result<(), Fail> {
    let mut ports = UdpPorts::with_herald(&rt, 0);
    exchange_many(&rt, &mut ports)
}

// A port has more datagrams than its turn is long, another one.
fn take_in_turns<R: Net + Clock + Eprint + AllocGlobal + Abort>(
    rt: &R,
    ports: &mut UdpPorts<'_, R>,
) -> Result<(), Fail> {
    let mut many = UdpLink::new(rt);
    let mut one = UdpLink::new(rt);
    ports.listen()?;
    ports.open_slot(1)?;
    many.open(LOOPBACK)?;
    one.open(LOOPBACK)?;
    send_numbers(&mut many, ports.port(0)?, 16)?;
    send_numbers(&mut one, ports.port(0)?, 4)?;
    one.send(ports.port(1)?, b"abc")?;
    assert_eq!(rt; answer_numbers(ports, 17, 1)?, 1);
    assert_eq!(rt; answer_numbers(ports, 4, 0)?, 4);
    Ok(())
}

#[test]
fn a_port_that_speaks_on_has_no_more_than_its_turn(rt: HostRuntime) -> Result<(), Fail> {
    let mut ports = UdpPorts::with_herald(&rt, 0);
    take_in_turns(&rt, &mut ports)
}

// As many datagrams as may be unanswered are given up together.
fn give_up<R: Net + Clock + Eprint + AllocGlobal + Abort>(
    rt: &R,
    ports: &mut UdpPorts<'_, R>,
) -> Result<(), Fail> {
    let mut link = UdpLink::new(rt);
    ports.listen()?;
    link.open(LOOPBACK)?;
    send_numbers(&mut link, ports.port(0)?, 16)?;
    let began = Instant::now(rt)?;
    link.send(ports.port(0)?, b"abc")?;
    let waited = began.elapsed(rt)?;
    assert!(rt; waited >= Duration::from_millis(800));
    send_numbers(&mut link, ports.port(0)?, 4)?;
    assert!(rt; began.elapsed(rt)? < waited.saturating_mul(2));
    Ok(())
}

#[test]
fn a_silent_server_is_waited_for_once(rt: HostRuntime) -> Result<(), Fail> {
    let mut ports = UdpPorts::with_herald(&rt, 0);
    give_up(&rt, &mut ports)
}

// A session's port hears its own peer alone.
fn hear_one_peer<R: Net + Clock + Eprint + AllocGlobal + Abort>(
    rt: &R,
    ports: &mut UdpPorts<'_, R>,
) -> Result<(), Fail> {
    let mut peer = UdpLink::new(rt);
    let mut stranger = UdpLink::new(rt);
    exchange(rt, ports, &mut peer)?;
    stranger.open(LOOPBACK)?;
    stranger.send(ports.port(1)?, b"abc")?;
    peer.send(ports.port(1)?, b"abc")?;
    assert_eq!(rt; answer_numbers(ports, 1, 1)?, 1);
    assert_eq!(rt; ports.take(&mut [0; 8192])?, Taken::Silent);
    hear_numbers(rt, &mut peer, b'a'..b'b')?;
    Ok(())
}

#[test]
fn a_stranger_is_not_heard_at_the_port_of_a_slot(rt: HostRuntime) -> Result<(), Fail> {
    let mut ports = UdpPorts::with_herald(&rt, 0);
    hear_one_peer(&rt, &mut ports)
}

// A client that is gone when it was answered.
fn answer_and_go<R: Net + Clock + Eprint + AllocGlobal + Abort>(
    rt: &R,
    ports: &mut UdpPorts<'_, R>,
) -> Result<Peer, Fail> {
    let mut link = UdpLink::new(rt);
    ports.listen()?;
    send(rt, &mut link, ports.port(0)?)?;
    let peer = take(rt, ports)?;
    ports.answer(1, peer, b"four")?;
    hear(rt, &mut link)?;
    Ok(peer)
}

// The system says of an answer to it that its port is closed, which is silence.
fn answer_the_gone<R: Net + Clock + Eprint + AllocGlobal + Abort>(
    rt: &R,
    ports: &mut UdpPorts<'_, R>,
) -> Result<(), Fail> {
    let peer = answer_and_go(rt, ports)?;
    for _ in 0..3 {
        ports.answer(1, peer, b"four")?;
        assert_eq!(rt; ports.take(&mut [0; 8192])?, Taken::Silent);
    }
    Ok(())
}

#[test]
fn a_client_that_is_gone_is_no_fault(rt: HostRuntime) -> Result<(), Fail> {
    let mut ports = UdpPorts::with_herald(&rt, 0);
    answer_the_gone(&rt, &mut ports)
}

#[test]
fn a_datagram_is_answered_from_the_port_of_a_slot(rt: HostRuntime) -> Result<(), Fail> {
    let mut ports = UdpPorts::with_herald(&rt, 0);
    serve(&rt, &mut ports)
}
