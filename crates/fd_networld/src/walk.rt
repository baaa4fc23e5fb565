//! The world of events.

ghost use Rattle.std.specs.Prelude.{◌≡◌, IfOk, length};
ghost use Rattle.fd_kdh.specs.Header.{FitsFields};
ghost use Rattle.fd_netclient.specs.Client.{IsPatient, patience_of};
ghost use Rattle.fd_networld.specs.Lawful.{IsWorldOf};
ghost use Rattle.fd_networld.specs.Steps.{IsChunked};
ghost use Rattle.fd_networld.specs.World.{AreForeign};

use crate::datagram::chunks_of;
use crate::event::Event;
use crate::header::is_within;
use crate::world::World;
use fd_kdh::Header;
use fd_netclient::Limits;
use std::alloc::{AllocError, Global};

/// Walks a world through events: one client that sends the dump, and one server after another over a site in memory. The
/// client's address is 127.0.0.1 and its port 20024; slot k answers from port 40000 + k. An event that can't happen where
/// it stands changes nothing: the client sends only what it wants to send, and hears only where it wants to poll, what
/// went to its address; what is delivered was sent before, and a slot is at most 16.
///
/// The dump has from 4096 to 2^32 bytes, a multiple of 4096, and the header is its: its length is the dump's, and its labels
/// are shorter than their fields. No stranger has the client's address and port. Want of memory is the one error; it is
/// answered too where the site met it.
pub fn walk_world(
    alloc: Global,
    dump: &[u8],
    header: &Header,
    limits: Limits,
    events: &[Event],
) -> Result<World, AllocError>
    requires dump { IsChunked dump.now }
    requires header { FitsFields header.now }
    requires dumplength { header.now.dumplength ≡ length dump.now }
    requires patient { IsPatient limits }
    requires foreign { AreForeign events.now }
    ensures world { IfOk result (IsWorldOf dump.now header.now (patience_of limits) events.now) }
    ensures fed { IfOk result (λ w. w.site.calls.starved ≡ 0) }
{
    is_within(header);
    let mut world = World::begin(alloc, chunks_of(dump), limits)?;
    for event in events {
        world.step(alloc, dump, header, event)?;
    }
    Ok(world)
}
