//! A server that is reached by UDP, as a link. It tells no contents.

ghost use Rattle.std.specs.Prelude.{◌≡◌, ◌≤◌, None, IfOk};
ghost use Rattle.fd_site.specs.Trace.{IsPolled};

use crate::fault::counted;
use crate::udp::{Arrivals, EAGER_LOOKS, look, nap, not_open, send, socket_addr};
use fd_site::{Failed, Link, Polled};
use mio::net::UdpSocket;
use std::collections::VecDeque;
use std::io;
use std::net::Net;
use std::rt::Clock;

/// The port of netdump's client (`sys/netinet/netdump/netdump.h`, `NETDUMP_ACKPORT`).
const CLIENT_PORT: u16 = 20024;

/// How many datagrams are sent at most that nothing was heard of. A socket holds some twenty that aren't read.
const MOST_UNANSWERED: u32 = 16;

/// Of how many answers that are still to come a nap brings several. A wait would end at the first, and each that ends so takes
/// time of the server.
const SEVERAL: u32 = 8;

/// How many datagrams are kept that came before a poll, until no more are waited for.
const MOST_HEARD: usize = 64;

/// For how many waits, about a second in all, an answer is expected. A server that another program keeps from running answers
/// late, and isn't to find more than a socket holds.
const PATIENCE: u32 = 1000;

/// A server by UDP. Datagrams of another address are taken for silence, and a poll waits little more than a millisecond.
#[derive(Drop)]
pub struct UdpLink<'a, R: Net + Clock + Eprint + AllocGlobal> {
    rt: &'a R,
    line: Option<Line>,
    faults: u64,
}

impl<'a, R: Net + Clock + Eprint + AllocGlobal> UdpLink<'a, R> {
    /// A link that wasn't opened: until then its calls fail.
    pub fn new(rt: &'a R) -> UdpLink<'a, R>
        ensures { ⟦<UdpLink<'a, R> as Link>⟧.seen result ≡ record { told = None; faults = 0 } }
    {
        UdpLink {
            rt,
            line: None,
            faults: 0,
        }
    }
}

// A socket, and the server that it speaks to.
#[derive(Drop)]
struct Line {
    arrivals: Arrivals,
    socket: UdpSocket,
    server: u32,
    // What came while there was no room to send. The next polls bring it.
    heard: VecDeque<Heard>,
    // How many datagrams were sent that nothing was heard of.
    unanswered: u32,
}

// The first bytes of a datagram of the server, and the port that it came from.
#[derive(Drop)]
struct Heard {
    port: u16,
    bytes: [u8; 64],
    len: usize,
    ghost within: { len ≤ 64 },
}

impl Line {
    // The client's port may be taken by another client of this machine, and the server answers any.
    fn open<R: Net + AllocGlobal>(rt: &R, server: u32) -> io::Result<Line> {
        let arrivals = Arrivals::new(rt)?;
        let socket = match arrivals.bound(rt, CLIENT_PORT) {
            Ok(socket) => socket,
            Err(_) => arrivals.bound(rt, 0)?,
        };
        Ok(Line {
            arrivals,
            socket,
            server,
            heard: VecDeque::new(rt.alloc()),
            unanswered: 0,
        })
    }

    // Takes the datagram that is there, if it is one of the server.
    fn look(&mut self) -> io::Result<Option<Heard>> {
        let mut bytes = [0; 64];
        match look(&self.socket, &mut bytes)? {
            Some(arrived) if arrived.address == self.server => {
                self.unanswered = self.unanswered.saturating_sub(1);
                Ok(Some(Heard {
                    port: arrived.port,
                    bytes,
                    len: arrived.len,
                }))
            }
            _ => Ok(None),
        }
    }

    // Looks for a datagram of the server until one is there, so often.
    fn look_eagerly(&mut self, looks: u32) -> io::Result<Option<Heard>> {
        for _ in 0..looks {
            if let Some(heard) = self.look()? {
                return Ok(Some(heard));
            }
        }
        Ok(None)
    }

    // Waits for a datagram of the server.
    fn wait<R: Clock>(&mut self, rt: &R) -> io::Result<Option<Heard>> {
        if self.unanswered > SEVERAL {
            if let Some(heard) = self.look()? {
                return Ok(Some(heard));
            }
            nap(rt);
        }
        if let Some(heard) = self.look_eagerly(EAGER_LOOKS)? {
            return Ok(Some(heard));
        }
        self.arrivals.wait()?;
        self.look()
    }

    // Waits until the server is heard of, and takes what else is there. After a long silence nothing is expected any more of
    // what was sent.
    fn make_room<R: Clock>(&mut self, rt: &R) -> io::Result<()> {
        for _ in 0..PATIENCE {
            if let Some(heard) = self.wait(rt)? {
                self.heard.push_back(heard)?;
                return self.take_rest();
            }
        }
        self.unanswered = 0;
        Ok(())
    }

    // Takes what is there of the server's.
    fn take_rest(&mut self) -> io::Result<()> {
        for _ in 0..MOST_UNANSWERED {
            match self.look()? {
                Some(heard) => self.heard.push_back(heard)?,
                None => break,
            }
        }
        Ok(())
    }

    // Sends a datagram, once few enough are unanswered.
    fn send<R: Clock>(&mut self, rt: &R, port: u16, bytes: &[u8]) -> io::Result<()> {
        if self.unanswered >= MOST_UNANSWERED && self.heard.len() < MOST_HEARD {
            self.make_room(rt)?;
        }
        send(
            rt,
            &self.socket,
            bytes,
            Some(socket_addr(self.server, port)),
        )?;
        self.unanswered = self.unanswered.saturating_add(1);
        Ok(())
    }

    // Gives what was heard first. After a silent wait nothing is expected any more of what was sent.
    fn poll<R: Clock>(&mut self, rt: &R, out: &mut [u8; 64]) -> io::Result<Polled>
        ensures { IfOk result IsPolled }
    {
        let heard = match self.heard.pop_front() {
            Some(heard) => Some(heard),
            None => self.wait(rt)?,
        };
        match heard {
            Some(heard) => {
                let bytes = heard.bytes;
                *out = bytes;
                Ok(Polled::Got {
                    port: heard.port,
                    len: heard.len,
                })
            }
            None => {
                self.unanswered = 0;
                Ok(Polled::Silent)
            }
        }
    }
}

impl<R: Net + Clock + Eprint + AllocGlobal> Link for UdpLink<'_, R> {
    ghost seen = { λ l. record { told = None; faults = l.faults } };

    fn open(&mut self, server: u32) -> Result<(), Failed> {
        // The port of the line that was open before is free then.
        self.line = None;
        let line = Line::open(self.rt, server);
        self.line = Some(counted(self.rt, "netdump client's port", &mut self.faults, line)?);
        Ok(())
    }

    fn send(&mut self, port: u16, bytes: &[u8]) -> Result<(), Failed> {
        let sent = match &mut self.line {
            Some(line) => line.send(self.rt, port, bytes),
            None => Err(not_open()),
        };
        counted(self.rt, "netdump server", &mut self.faults, sent)
    }

    fn poll(&mut self, out: &mut [u8; 64]) -> Result<Polled, Failed> {
        let polled = match &mut self.line {
            Some(line) => line.poll(self.rt, out),
            None => Err(not_open()),
        };
        counted(self.rt, "netdump server", &mut self.faults, polled)
    }
}
