//! The ports of a server by UDP. They tell no contents.

ghost use Rattle.std.specs.Prelude.{◌≡◌, ◌≤◌, None, IfOk};
ghost use Rattle.fd_site.specs.Trace.{IsTaken};

use crate::fault::{counted, lost};
use crate::udp::{Arrivals, EAGER_LOOKS, look, not_open, send, socket_addr};
use fd_site::{Failed, Peer, Ports, Taken};
use mio::net::UdpSocket;
use std::io;
use std::io::{Error, ErrorKind};
use std::net::Net;
use std::rt::Clock;

/// The port of netdump's server (`sys/netinet/netdump/netdump.h`, `NETDUMP_PORT`).
const HERALD_PORT: u16 = 20023;

/// How many datagrams are taken in a row from one port at most, so that no other starves.
const MOST_IN_A_ROW: u32 = 16;

/// The ports of a server by UDP: the herald's, and one that is free for each slot. One look waits little more than a
/// millisecond for all of them, begins at the port that spoke last, and gives each its turn. An answer that the system can't
/// send, as to a peer that can't be reached, is lost as any datagram may be, and the server goes on: a forged sender doesn't
/// end it. The first is said.
#[derive(Drop)]
pub struct UdpPorts<'a, R: Net + Clock + Eprint + AllocGlobal> {
    rt: &'a R,
    herald: u16,
    sockets: Option<Sockets>,
    lost: u64,
    faults: u64,
}

impl<'a, R: Net + Clock + Eprint + AllocGlobal> UdpPorts<'a, R> {
    /// Ports that aren't open: until they listen their calls fail.
    pub fn new(rt: &'a R) -> UdpPorts<'a, R>
        ensures { ⟦<UdpPorts<'a, R> as Ports>⟧.seen result ≡ record { told = None; faults = 0 } }
    {
        UdpPorts::with_herald(rt, HERALD_PORT)
    }

    // The same with another port of the herald.
    pub(crate) fn with_herald(rt: &'a R, herald: u16) -> UdpPorts<'a, R>
        ensures { ⟦<UdpPorts<'a, R> as Ports>⟧.seen result ≡ record { told = None; faults = 0 } }
    {
        UdpPorts {
            rt,
            herald,
            sockets: None,
            lost: 0,
            faults: 0,
        }
    }

    // The number of the port that a slot has.
    #[cfg(test)]
    pub(crate) fn port(&self, slot: u16) -> io::Result<u16> {
        match &self.sockets {
            Some(sockets) => match sockets.of_slot(slot) {
                Some(socket) => Ok(socket.local_addr()?.port()),
                None => Err(not_open()),
            },
            None => Err(not_open()),
        }
    }
}

// The ports that are open.
#[derive(Drop)]
struct Sockets {
    arrivals: Arrivals,
    slots: Vec<Slot>,
    // Whether something came at the last look.
    spoken: bool,
    // Whose turn it is, counted on from one to the next and round, and how many datagrams it brought.
    turn: usize,
    in_a_row: u32,
}

// The port of a slot. A session's has one peer, and is connected to it when that is answered first: then the system lets
// nobody else's datagrams in, and need not find the way for each answer.
#[derive(Drop)]
struct Slot {
    number: u16,
    socket: UdpSocket,
    connected: bool,
    ghost within: { number ≤ 16 },
}

impl Slot {
    fn new(number: u16, socket: UdpSocket) -> Slot
        requires { number ≤ 16 }
        ensures { result.number ≡ number }
    {
        Slot {
            number,
            socket,
            connected: false,
        }
    }

    // Answers a peer. The herald's port has many.
    fn answer<R: Clock>(&mut self, rt: &R, peer: Peer, bytes: &[u8; 4]) -> io::Result<()> {
        let to = socket_addr(peer.address, peer.port);
        if self.number == 0 {
            return send(rt, &self.socket, bytes, Some(to));
        }
        if !self.connected {
            self.socket.connect(to)?;
            self.connected = true;
        }
        send(rt, &self.socket, bytes, None)
    }
}

impl Sockets {
    // Opens the herald's port.
    fn listen<R: Net + AllocGlobal>(rt: &R, herald: u16) -> io::Result<Sockets> {
        let arrivals = Arrivals::new(rt)?;
        let socket = arrivals.bound(rt, herald)?;
        let mut slots = Vec::new(rt.alloc());
        slots.push(Slot::new(0, socket))?;
        Ok(Sockets {
            arrivals,
            slots,
            spoken: false,
            turn: 0,
            in_a_row: 0,
        })
    }

    // The socket of a slot.
    fn of_slot(&self, slot: u16) -> Option<&UdpSocket> {
        for open in &self.slots {
            if open.number == slot {
                return Some(&open.socket);
            }
        }
        None
    }

    // Opens a port for a slot that has none.
    fn open_slot<R: Net>(&mut self, rt: &R, slot: u16) -> io::Result<()> {
        if slot > 16 {
            return Err(Error::new(ErrorKind::InvalidInput, "No such slot"));
        }
        if self.of_slot(slot).is_none() {
            let socket = self.arrivals.bound(rt, 0)?;
            self.slots.push(Slot::new(slot, socket))?;
        }
        Ok(())
    }

    // Ends the turn of a port.
    fn pass(&mut self) {
        self.turn = self.turn.wrapping_add(1);
        self.in_a_row = 0;
    }

    // Looks at the port whose turn it is, which ends where it brings nothing, or has brought enough.
    fn look_at_one(&mut self, out: &mut [u8; 8192]) -> io::Result<Taken>
        ensures { IfOk result IsTaken }
    {
        let count = self.slots.len().max(1);
        if let Some(open) = self.slots.get(self.turn % count) {
            if let Some(arrived) = look(&open.socket, out)? {
                let taken = Taken::Got {
                    slot: open.number,
                    peer: Peer {
                        address: arrived.address,
                        port: arrived.port,
                    },
                    len: arrived.len,
                };
                self.in_a_row = self.in_a_row.saturating_add(1);
                if self.in_a_row >= MOST_IN_A_ROW {
                    self.pass();
                }
                return Ok(taken);
            }
        }
        self.pass();
        Ok(Taken::Silent)
    }

    // Looks at each port in turn, so often, until one brings something.
    fn look(&mut self, rounds: u32, out: &mut [u8; 8192]) -> io::Result<Taken>
        ensures { IfOk result IsTaken }
    {
        for _ in 0..rounds {
            for _ in 0..self.slots.len() {
                let taken = self.look_at_one(out)?;
                if !matches!(taken, Taken::Silent) {
                    return Ok(taken);
                }
            }
        }
        Ok(Taken::Silent)
    }

    // Waits for a datagram at one of the ports.
    fn wait(&mut self, out: &mut [u8; 8192]) -> io::Result<Taken>
        ensures { IfOk result IsTaken }
    {
        let taken = self.look(if self.spoken { EAGER_LOOKS } else { 1 }, out)?;
        if !matches!(taken, Taken::Silent) {
            return Ok(taken);
        }
        self.arrivals.wait()?;
        let taken = self.look(1, out)?;
        self.spoken = !matches!(taken, Taken::Silent);
        Ok(taken)
    }

    // Answers a peer from the port of a slot, if that is open.
    fn answer<R: Clock>(
        &mut self,
        rt: &R,
        slot: u16,
        peer: Peer,
        bytes: &[u8; 4],
    ) -> Option<io::Result<()>> {
        for open in &mut self.slots {
            if open.number == slot {
                return Some(open.answer(rt, peer, bytes));
            }
        }
        None
    }
}

impl<R: Net + Clock + Eprint + AllocGlobal> Ports for UdpPorts<'_, R> {
    ghost seen = { λ p. record { told = None; faults = p.faults } };

    fn listen(&mut self) -> Result<(), Failed> {
        // What was open before is free then.
        self.sockets = None;
        let sockets = Sockets::listen(self.rt, self.herald);
        self.sockets = Some(counted(self.rt, "port 20023", &mut self.faults, sockets)?);
        Ok(())
    }

    fn take(&mut self, out: &mut [u8; 8192]) -> Result<Taken, Failed> {
        let taken = match &mut self.sockets {
            Some(sockets) => sockets.wait(out),
            None => Err(not_open()),
        };
        counted(self.rt, "netdump server's ports", &mut self.faults, taken)
    }

    fn open_slot(&mut self, slot: u16) -> Result<(), Failed> {
        let opened = match &mut self.sockets {
            Some(sockets) => sockets.open_slot(self.rt, slot),
            None => Err(not_open()),
        };
        counted(self.rt, "netdump server's ports", &mut self.faults, opened)
    }

    fn answer(&mut self, slot: u16, peer: Peer, bytes: &[u8; 4]) -> Result<(), Failed> {
        let sent = match &mut self.sockets {
            Some(sockets) => sockets.answer(self.rt, slot, peer, bytes),
            None => None,
        };
        match sent {
            Some(sent) => {
                lost(self.rt, "netdump client", &mut self.lost, sent);
                Ok(())
            }
            None => counted(self.rt, "netdump client", &mut self.faults, Err(not_open())),
        }
    }
}
