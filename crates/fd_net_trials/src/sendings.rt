//! Sendings of a small machine's dump, over a link in memory that plays a script.

ghost use Rattle.fd_netclient.specs.Client.{IsPatient};

use fd_bytes::Arch;
use fd_dump::Plan;
use fd_fake::{Answer, LinkEvent, MemLink};
use fd_image::{Image, Parts, Seg, Sequence, Texts, Windows};
use fd_netclient::{ClientFault, Limits, send_dump};
use fd_raw::Region;
use fd_site::Link;
use std::alloc::{AllocError, Global};
use std::process::Abort;
use std::test::Fail;

// The last number of the machine's dump: it has six chunks.
const LAST: u32 = 9;

// The first address of the machine's memory.
const START: u64 = 0x8000_0000;

fn texts(alloc: Global) -> Result<Texts, AllocError> {
    Ok(Texts {
        host: Sequence::new(b"rv".to_vec(alloc)?),
        version: Sequence::new(b"FreeBSD 14".to_vec(alloc)?),
        panic: Sequence::new(b"test".to_vec(alloc)?),
        msgbuf: Sequence::new(b"panic: test\n".to_vec(alloc)?),
        time: 1_700_000_000,
    })
}

// A machine of three pages, of which one is wanted.
fn machine(alloc: Global) -> Result<Image, Fail> {
    let seg = Seg {
        start: START,
        bytes: Region::new(alloc, 0x3000)?,
    };
    let parts = Parts {
        arch: Arch::Riscv,
        sv48: false,
        segs: Sequence::new(vec![in alloc; seg]?),
        avail: Sequence::new(vec![in alloc; (START, START + 0x3000)]?),
        wanted: Sequence::new(vec![in alloc; START + 0x1000]?),
        root: START,
        windows: Windows {
            kernbase: 0xffff_ffc0_0000_0000,
            kernspan: 0x20_0000,
            dmapbase: 0xffff_ffd0_0000_0000,
            dmapend: 0xffff_ffd0_0000_3000,
            dmapphys: START,
        },
        texts: texts(alloc)?,
    };
    Ok(Image::new(parts).ok().ok_or("a valid image")?)
}

// Sends the image's dump, with so many polls a round.
fn send<L: Link>(
    alloc: Global,
    link: &mut L,
    image: &Image,
    polls: u32,
) -> Result<Result<u32, ClientFault>, Fail>
    requires { IsPatient (record { retries = 10; polls = polls }) }
{
    let plan = Plan::prepare(alloc, image)?;
    Ok(send_dump(link, &plan, image, Limits { retries: 10, polls }))
}

// Sends the machine's dump.
fn send_machine<L: Link>(
    alloc: Global,
    link: &mut L,
    polls: u32,
) -> Result<Result<u32, ClientFault>, Fail>
    requires { IsPatient (record { retries = 10; polls = polls }) }
{
    let image = machine(alloc)?;
    send(alloc, link, &image, polls)
}

// Acknowledges each number of the dump once, in order, from one port.
fn acknowledgements(alloc: Global) -> Result<Vec<Answer>, AllocError> {
    let mut script = Vec::new(alloc);
    for number in 1..=LAST {
        script.push(Answer::Datagram {
            port: 40001,
            bytes: number.to_be_bytes().to_vec(alloc)?,
        })?;
    }
    Ok(script)
}

// Whether an event is a datagram to this port which begins with these bytes, and has so many.
fn is_sent(event: Option<&LinkEvent>, to: u16, front: &[u8], len: usize) -> bool {
    match event {
        Some(LinkEvent::Sent { port, bytes }) => {
            *port == to && bytes.len() == len && bytes.as_slice().starts_with(front)
        }
        _ => false,
    }
}

// The herald and its acknowledgement, the six chunks, the header and finished, each acknowledged.
fn check_done(rt: &impl Abort, trace: &[LinkEvent]) {
    assert_eq!(rt; trace.len(), 18);
    let herald = b"\0\0\0\x01\0\0\0\x01\0\0\0\0\0\0\0\0\0\0\0\0\0\0\0\0";
    assert!(rt; is_sent(trace.get(0), 20023, herald, 24));
    let first = b"\0\0\0\x03\0\0\0\x02\0\0\0\0\0\0\0\0\0\0\x10\0\0\0\0\0minidump FreeBSD/riscv\0\0";
    assert!(rt; is_sent(trace.get(2), 40001, first, 4120));
    let header = b"\0\0\0\x04\0\0\0\x08\0\0\0\0\0\0\0\0\0\0\x02\0\0\0\0\0FreeBSD Kernel Dump\0";
    assert!(rt; is_sent(trace.get(14), 40001, header, 536));
    let finished = b"\0\0\0\x02\0\0\0\x09\0\0\0\0\0\0\0\0\0\0\0\0\0\0\0\0";
    assert!(rt; is_sent(trace.get(16), 40001, finished, 24));
}

#[test]
fn a_dump_is_sent_whose_datagrams_are_acknowledged_in_their_round(
    rt: HostRuntime,
) -> Result<(), Fail> {
    let alloc = rt.alloc();
    let mut link = MemLink::new(alloc, acknowledgements(alloc)?, Vec::new(alloc));
    assert_eq!(rt; send_machine(alloc, &mut link, 2000)?, Ok(LAST));
    check_done(&rt, link.trace());
    Ok(())
}

#[test]
fn eleven_silent_rounds_are_the_last(rt: HostRuntime) -> Result<(), Fail> {
    let alloc = rt.alloc();
    let mut link = MemLink::new(alloc, Vec::new(alloc), Vec::new(alloc));
    assert_eq!(rt;
        send_machine(alloc, &mut link, 2)?,
        Err(ClientFault::TimedOut(1))
    );
    assert_eq!(rt; link.trace().len(), 33);
    Ok(())
}

// What a link brings to a dump that is done after all: a datagram's port and bytes. Port 7 is no session's.
const STRAYS: [(u16, &[u8]); 16] = [
    (7, b"\0\0\0\x02"),
    (40001, b"\0\0\x01"),
    (40001, b"\0\0\0\x01"),
    (7, b"\0\0\0\x02"),
    (40001, b"\0\0\0\x07"),
    (40001, b"\0\0\0\x05"),
    (40001, b"\0\0\0\x05"),
    (40001, b"\0\0\0\x02\0"),
    (40001, b"\0\0\0\x40"),
    (40001, b"\0\0\0\x04"),
    (40001, b"\0\0\0\x02"),
    (40001, b"\0\0\0\x06"),
    (40001, b""),
    (40001, b"\0\0\0\x03"),
    (40001, b"\0\0\0\x08"),
    (40001, b"\0\0\0\x09"),
];

fn strays(alloc: Global) -> Result<Vec<Answer>, AllocError> {
    let mut script = Vec::new(alloc);
    for (port, bytes) in STRAYS {
        script.push(Answer::Datagram {
            port,
            bytes: bytes.to_vec(alloc)?,
        })?;
    }
    Ok(script)
}

#[test]
fn what_acknowledges_nothing_new_is_ignored(rt: HostRuntime) -> Result<(), Fail> {
    let alloc = rt.alloc();
    let mut link = MemLink::new(alloc, strays(alloc)?, Vec::new(alloc));
    assert_eq!(rt; send_machine(alloc, &mut link, 2000)?, Ok(LAST));
    assert_eq!(rt; link.trace().len(), 25);
    Ok(())
}

// Lets the call fail that comes after so many.
fn check_fault(rt: &impl Abort, alloc: Global, calls: u64) -> Result<(), Fail> {
    let fails = vec![in alloc; calls.saturating_add(1)]?;
    let mut link = MemLink::new(alloc, acknowledgements(alloc)?, fails);
    assert_eq!(rt;
        send_machine(alloc, &mut link, 2000)?,
        Err(ClientFault::LinkFault)
    );
    assert_eq!(rt; link.trace().len() as u64, calls);
    Ok(())
}

#[test]
fn nothing_is_sent_after_a_fault(rt: HostRuntime) -> Result<(), Fail> {
    for calls in 0..18 {
        check_fault(&rt, rt.alloc(), calls)?;
    }
    Ok(())
}
