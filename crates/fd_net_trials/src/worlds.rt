//! Worlds that are written out as letters, and worlds of any events.

ghost use Rattle.std.specs.Prelude.{◌≡◌, ◌≤◌, IfOk, length};
ghost use Rattle.fd_netclient.specs.Client.{IsPatient};
ghost use Rattle.fd_netmsg.specs.Message.{IsKind};
ghost use Rattle.fd_networld.specs.World.{AreForeign, IsForeign};

use crate::messages::header;
use fd_info::{info_name, vmcore_name};
use fd_netclient::{Limits, Want};
use fd_netmsg::{FINISHED, HERALD, VMCORE, put_message};
use fd_netserver::{Reply, Skip};
use fd_networld::{Bytes, Event, World, walk_world};
use fd_site::{Failed, Peer, Site};
use std::alloc::{AllocError, Global};
use std::process::Abort;
use std::test::Fail;

// A datagram of another peer.
fn stranger(
    alloc: Global,
    slot: u16,
    kind: u32,
    offset: u64,
    body: &[u8],
) -> Result<Event, AllocError>
    requires kind { IsKind kind }
    requires body { length body.now ≤ 4096 }
    ensures { IfOk result IsForeign }
{
    let mut out = [0; 4120];
    let len = put_message(kind, 1, offset, body, &mut out);
    Ok(Event::Stranger {
        slot,
        peer: Peer {
            address: 0x0a00_0001,
            port: 20024,
        },
        bytes: Bytes::new(out[..len].to_vec(alloc)?),
    })
}

// How far a network came that delivers in order: how many datagrams it delivered or lost, and how many answers; and the
// slot that it delivers to.
#[derive(Drop)]
struct Network {
    datagrams: u64,
    answers: u64,
    slot: u16,
}

impl Network {
    // What a letter is. S: the client sends. D: its next datagram comes to the slot. H: the herald comes, also again.
    // A: the next answer comes to the client. C: the client's poll brings nothing. F: the site fails. R: the server is
    // started anew. X: a stranger's herald, Y: its byte for slot 1, Z: its end of slot 1.
    fn event(&mut self, alloc: Global, letter: u8) -> Result<Event, AllocError>
        ensures { IfOk result IsForeign }
    {
        match letter {
            b'S' => Ok(Event::Send),
            b'D' => {
                let nth = self.datagrams;
                self.datagrams = nth.saturating_add(1);
                let slot = self.slot;
                Ok(Event::ToServer { slot, nth })
            }
            b'H' => Ok(Event::ToServer { slot: 0, nth: 0 }),
            b'A' => {
                let nth = self.answers;
                self.answers = nth.saturating_add(1);
                Ok(Event::ToClient { nth })
            }
            b'C' => Ok(Event::ClientSilent),
            b'F' => Ok(Event::SiteFails),
            b'R' => Ok(Event::Restart),
            b'X' => stranger(alloc, 0, HERALD, 0, b""),
            b'Y' => stranger(alloc, 1, VMCORE, 0, b"y"),
            b'Z' => stranger(alloc, 1, FINISHED, 0, b""),
            _ => Ok(Event::ServerSilent),
        }
    }

    // With a an answer is lost, with d a datagram, and 1 and 2 choose the slot.
    fn note(&mut self, letter: u8) {
        match letter {
            b'a' => self.answers = self.answers.saturating_add(1),
            b'd' => self.datagrams = self.datagrams.saturating_add(1),
            b'1' => self.slot = 1,
            b'2' => self.slot = 2,
            _ => (),
        }
    }
}

// The events of letters.
fn events(alloc: Global, letters: &[u8]) -> Result<Vec<Event>, AllocError>
    ensures { IfOk result (λ events. AreForeign events.items) }
{
    let mut network = Network {
        datagrams: 0,
        answers: 0,
        slot: 1,
    };
    let mut events = Vec::new(alloc);
    for letter in letters {
        network.note(*letter);
        events.push(network.event(alloc, *letter)?)?;
    }
    Ok(events)
}

// The world of events, with a dump of so many pages.
fn walk(alloc: Global, pages: usize, polls: u32, events: &[Event]) -> Result<World, Fail>
    requires some { 1 ≤ pages }
    requires few { pages ≤ 8 }
    requires patient { IsPatient (record { retries = 10; polls = polls }) }
    requires foreign { AreForeign events.now }
{
    let dump = vec![in alloc; 7; 4096 * pages]?;
    let header = header(dump.len() as u64);
    let limits = Limits { retries: 10, polls };
    Ok(walk_world(alloc, &dump, &header, limits, events)?)
}

// The same of letters, which end where this is wanted, with files of these lengths.
fn check(
    rt: &impl Abort,
    alloc: Global,
    pages: usize,
    polls: u32,
    letters: &[u8],
    wanted: Want,
    files: [Option<u64>; 2],
) -> Result<World, Fail>
    requires some { 1 ≤ pages }
    requires few { pages ≤ 8 }
    requires patient { IsPatient (record { retries = 10; polls = polls }) }
{
    let events = events(alloc, letters)?;
    let mut world = walk(alloc, pages, polls, &events)?;
    assert_eq!(rt; world.client.want(), wanted);
    assert_eq!(rt; lengths(&mut world.site)?, files);
    Ok(world)
}

// How long the first two dumps' files are.
fn lengths<S: Site>(site: &mut S) -> Result<[Option<u64>; 2], Failed> {
    let first = site.file_len("vmcore.0")?;
    Ok([first, site.file_len("vmcore.1")?])
}

#[test]
fn a_dump_arrives_where_nothing_is_lost(rt: HostRuntime) -> Result<(), Fail> {
    let letters = b"SHdASSSSSSSSDDDDDDDDAAAAAAAASDASDA";
    let files = [Some(32768), None];
    check(&rt, rt.alloc(), 8, 8, letters, Want::Done, files)?;
    Ok(())
}

#[test]
fn an_acknowledgement_comes_after_ten_were_lost(rt: HostRuntime) -> Result<(), Fail> {
    let letters = b"SHdASDASDASDaCSDaCSDaCSDaCSDaCSDaCSDaCSDaCSDaCSDaCSDA";
    let files = [Some(4096), None];
    check(&rt, rt.alloc(), 1, 1, letters, Want::Done, files)?;
    Ok(())
}

#[test]
fn a_client_times_out_whose_dump_is_whole(rt: HostRuntime) -> Result<(), Fail> {
    let letters = b"SHdASDASDASDaCSDaCSDaCSDaCSDaCSDaCSDaCSDaCSDaCSDaCSDaC";
    let files = [Some(4096), None];
    check(&rt, rt.alloc(), 1, 1, letters, Want::TimedOut(4), files)?;
    Ok(())
}

#[test]
fn a_herald_that_comes_again_opens_an_empty_session(rt: HostRuntime) -> Result<(), Fail> {
    let letters = b"SHdASSSSSSSSDDDDHDDDDAAAAAAAAASDASDA";
    let files = [Some(32768), Some(0)];
    check(&rt, rt.alloc(), 8, 9, letters, Want::Done, files)?;
    Ok(())
}

#[test]
fn a_server_that_is_started_anew_leaves_the_files_that_are_there(
    rt: HostRuntime,
) -> Result<(), Fail> {
    let letters = b"SHdaCRSHdASDASDASDA";
    let files = [Some(0), Some(4096)];
    check(&rt, rt.alloc(), 1, 1, letters, Want::Done, files)?;
    Ok(())
}

#[test]
fn a_session_that_a_fault_broke_is_never_done(rt: HostRuntime) -> Result<(), Fail> {
    let letters = b"SHdASFDCSDCSDCSDCSDCSDCSDCSDCSDCSDCSDC";
    let files = [Some(0), None];
    check(&rt, rt.alloc(), 1, 1, letters, Want::TimedOut(2), files)?;
    Ok(())
}

#[test]
fn a_strangers_session_is_broken_and_the_clients_goes_on(rt: HostRuntime) -> Result<(), Fail> {
    let letters = b"XaS2HdASDAFYSDASDAZ";
    let files = [Some(0), Some(4096)];
    let world = check(&rt, rt.alloc(), 1, 1, letters, Want::Done, files)?;
    let exchanges = world.runs.run().exchanges();
    assert_eq!(rt; exchanges.len(), 7);
    assert_eq!(rt; exchanges[3].reply, Reply::Ignored(Skip::Broken));
    assert_eq!(rt; exchanges[6].reply, Reply::Ignored(Skip::Broken));
    Ok(())
}

// A number that follows another one, as if by chance.
fn next_number(number: u32) -> u32 {
    number.wrapping_mul(1_664_525).wrapping_add(1_013_904_223)
}

// The event of a number: the client sends and hears often, and the site fails and the server is started anew now and then.
fn any_event(alloc: Global, number: u32) -> Result<Event, AllocError>
    ensures { IfOk result IsForeign }
{
    let nth = u64::from((number >> 16) % 8);
    let slot = if nth == 0 { 0 } else { 1 };
    match number >> 24 {
        0..=60 => Ok(Event::Send),
        61..=140 => Ok(Event::ToServer { slot, nth }),
        141..=240 => Ok(Event::ToClient { nth }),
        241..=244 => Ok(Event::ClientSilent),
        245..=247 => Ok(Event::ToServer { slot: 2, nth }),
        248 => stranger(alloc, 0, HERALD, 0, b""),
        249..=251 => stranger(alloc, 1, VMCORE, 0, b"y"),
        252 => Ok(Event::SiteFails),
        253 => Ok(Event::Restart),
        _ => Ok(Event::ServerSilent),
    }
}

fn any_events(alloc: Global, seed: u32) -> Result<Vec<Event>, AllocError>
    ensures { IfOk result (λ events. AreForeign events.items) }
{
    let mut events = Vec::new(alloc);
    let mut number = seed;
    for _ in 0..200 {
        number = next_number(number);
        events.push(any_event(alloc, number)?)?;
    }
    Ok(events)
}

// Whether a file holds a dump of one page, beside its text.
fn has_dump<S: Site>(site: &mut S) -> Result<bool, Failed> {
    for number in 0..16 {
        let core = site.file_len(vmcore_name(number).as_str())?;
        if core == Some(4096) && site.file_len(info_name(number).as_str())?.is_some() {
            return Ok(true);
        }
    }
    Ok(false)
}

// Whether the client of a world of any events is done, whose dump is then there.
fn is_done(rt: &impl Abort, alloc: Global, seed: u32) -> Result<bool, Fail> {
    let events = any_events(alloc, seed)?;
    let mut world = walk(alloc, 1, 20, &events)?;
    let done = world.client.want() == Want::Done;
    if done {
        assert!(rt; has_dump(&mut world.site)?);
    }
    Ok(done)
}

#[test]
fn whatever_happens_a_done_clients_dump_is_there(rt: HostRuntime) -> Result<(), Fail> {
    let mut done = 0u32;
    for seed in 0..64 {
        if is_done(&rt, rt.alloc(), seed)? {
            done = done.saturating_add(1);
        }
    }
    assert!(rt; done > 0);
    assert!(rt; done < 64);
    Ok(())
}
