//! UDP sockets that don't block, and how they are waited for.

ghost use Rattle.std.specs.Prelude.{◌≤◌, length, IfOk, IfSome};

use mio::net::UdpSocket;
use mio::{Events, Interest, Poll, Token};
use std::io::{Error, ErrorKind};
use std::net::{Ipv4Addr, Net, SocketAddr};
use std::rt::Clock;
use std::time::Duration;
use std::{io, thread};

/// How many looks follow one another, as long as the other side speaks, before it is waited for: being woken takes as long,
/// and takes time of the one who wakes.
pub(crate) const EAGER_LOOKS: u32 = 64;

/// How many milliseconds a wait takes at most. A timeout of a socket of its own takes eight times that.
const LONGEST_WAIT: u64 = 1;

/// How often a datagram is sent that the system takes none of.
const MOST_TRIES: u32 = 4;

/// Where a datagram came from, and how many of its bytes were given.
#[derive(Clone, Copy)]
pub(crate) struct Arrived {
    pub address: u32,
    pub port: u16,
    pub len: usize,
}

/// The error of a call on what wasn't opened.
pub(crate) fn not_open() -> Error {
    Error::new(ErrorKind::NotConnected, "Not open")
}

/// An address and a port, as the system takes them.
pub(crate) fn socket_addr(address: u32, port: u16) -> SocketAddr {
    SocketAddr::from((Ipv4Addr::from_bits(address), port))
}

/// What is waited for: a datagram at any socket that was bound here.
#[derive(Drop)]
pub(crate) struct Arrivals {
    poll: Poll,
    events: Events,
}

impl Arrivals {
    pub fn new<R: Net + AllocGlobal>(rt: &R) -> io::Result<Arrivals> {
        Ok(Arrivals {
            poll: Poll::new(rt)?,
            // Which socket it is doesn't matter, since each is looked at.
            events: Events::with_capacity(rt.alloc(), 1)?,
        })
    }

    /// A socket on a port of all addresses of this machine. Port 0 is any that is free.
    pub fn bound<R: Net>(&self, rt: &R, port: u16) -> io::Result<UdpSocket> {
        let mut socket = UdpSocket::bind(rt, SocketAddr::from((Ipv4Addr::UNSPECIFIED, port)))?;
        self.poll
            .registry()
            .register(&mut socket, Token(0), Interest::READABLE)?;
        Ok(socket)
    }

    /// Waits a millisecond at most. What comes after a look at its socket that brought nothing ends the wait.
    pub fn wait(&mut self) -> io::Result<()> {
        let longest = Duration::from_millis(LONGEST_WAIT);
        self.poll.poll(&mut self.events, Some(longest))
    }
}

/// Sleeps as shortly as the system can: some fifty microseconds.
pub(crate) fn nap<R: Clock>(rt: &R) {
    thread::sleep(rt, Duration::from_micros(1));
}

// Whether an error says nothing of what a call was for: the call would have to wait, or the peer's machine has refused an
// earlier datagram.
fn is_passing(why: &Error) -> bool {
    matches!(
        why.kind(),
        ErrorKind::WouldBlock | ErrorKind::Interrupted | ErrorKind::ConnectionRefused
    )
}

/// Takes the datagram that is there, if one is. What doesn't fit in `out` is lost.
pub(crate) fn look(socket: &UdpSocket, out: &mut [u8]) -> io::Result<Option<Arrived>>
    ensures { IfOk result (λ found. IfSome found (λ arrived. arrived.len ≤ length out.old)) }
{
    match socket.recv_from(out) {
        Ok((len, SocketAddr::V4(from))) => Ok(Some(Arrived {
            address: from.ip().to_bits(),
            port: from.port(),
            len,
        })),
        Ok(_) => Ok(None),
        Err(why) if is_passing(&why) => Ok(None),
        Err(why) => Err(why),
    }
}

/// Sends a datagram to an address, or to the one that the socket is connected to. Where the system has no room for it, tries
/// again after a millisecond.
pub(crate) fn send<R: Clock>(
    rt: &R,
    socket: &UdpSocket,
    bytes: &[u8],
    to: Option<SocketAddr>,
) -> io::Result<()> {
    for _ in 0..MOST_TRIES {
        let sent = match to {
            Some(to) => socket.send_to(bytes, to),
            None => socket.send(bytes),
        };
        match sent {
            Ok(_) => return Ok(()),
            Err(why) if is_passing(&why) => thread::sleep(rt, Duration::from_millis(LONGEST_WAIT)),
            Err(why) => return Err(why),
        }
    }
    Err(Error::new(ErrorKind::WouldBlock, "No room to send"))
}
