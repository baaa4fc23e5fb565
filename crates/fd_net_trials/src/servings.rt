//! Servers over ports in memory that play a script.

ghost use Rattle.std.specs.Prelude.{◌≤◌, All, IfOk};
ghost use Rattle.fd_fake.specs.MemPorts.{HasSlot};

use crate::messages::{PEER, Says, Sent, first, herald, put};
use fd_fake::{Input, MemPorts, MemSite};
use fd_netserver::{Received, ServeFault, ServeLimits, Served, serve};
use fd_site::{Ports, Site};
use std::alloc::{AllocError, Global};
use std::process::Abort;
use std::test::Fail;

fn datagram(alloc: Global, sent: Sent) -> Result<Input, AllocError>
    requires { sent.slot ≤ 16 }
    ensures { IfOk result HasSlot }
{
    let mut out = [0; 4120];
    let len = put(sent, &mut out);
    Ok(Input::Datagram {
        slot: sent.slot,
        peer: sent.peer,
        bytes: out[..len].to_vec(alloc)?,
    })
}

// A dump of eight bytes in two pieces, the second one first.
fn script(alloc: Global) -> Result<Vec<Input>, AllocError>
    ensures { IfOk result (λ script. All HasSlot script.items) }
{
    Ok(vec![in alloc;
        datagram(alloc, herald(PEER, 1))?,
        datagram(alloc, first(3, Says::Data(4, 4)))?,
        datagram(alloc, first(4, Says::Header(8)))?,
        datagram(alloc, first(2, Says::Data(0, 4)))?,
        datagram(alloc, first(5, Says::Finished))?,
    ]?)
}

// Serves one dump over these ports, and answers whether it came.
fn receives<P: Ports, S: Site>(
    rt: &impl Abort,
    alloc: Global,
    ports: &mut P,
    site: &mut S,
    turns: u64,
    wanted: Result<(), ServeFault>,
) -> Result<bool, Fail>
    requires { 1 ≤ turns }
{
    let limits = ServeLimits {
        dumps: 1,
        turns,
        linger: 2,
    };
    let dump = Received {
        number: 0,
        length: 8,
    };
    let mut served = Served::new();
    assert_eq!(rt; serve(alloc, ports, site, limits, &mut served), wanted);
    let list = served.list.as_slice();
    assert!(rt; list.iter().all(|received| *received == dump));
    Ok(list.len() == 1)
}

// Serves one dump over a script, and ports of which the calls of these numbers fail.
fn serves(
    rt: &impl Abort,
    alloc: Global,
    script: Vec<Input>,
    fails: Vec<u64>,
    turns: u64,
    wanted: Result<(), ServeFault>,
) -> Result<bool, Fail>
    requires script { All HasSlot script.items }
    requires turns { 1 ≤ turns }
{
    let mut site = MemSite::new(alloc, 0, 512, Vec::new(alloc))?;
    let mut ports = MemPorts::new(alloc, script, fails);
    receives(rt, alloc, &mut ports, &mut site, turns, wanted)
}

#[test]
fn turns_over_silent_ports_are_spent(rt: HostRuntime) -> Result<(), Fail> {
    let alloc = rt.alloc();
    let spent = Err(ServeFault::TurnsSpent(5));
    let silent = Vec::new(alloc);
    assert!(rt; !serves(&rt, alloc, silent, Vec::new(alloc), 5, spent)?);
    Ok(())
}

// Serves the dump over ports of which one call fails: a call behind the last of the dump's datagrams doesn't lose it, and one
// behind the last turn isn't made.
fn fails_at(rt: &impl Abort, alloc: Global, failing: u64) -> Result<(), Fail> {
    let wanted = if failing <= 13 {
        Err(ServeFault::PortsFault)
    } else {
        Ok(())
    };
    let fails = vec![in alloc; failing]?;
    let received = serves(rt, alloc, script(alloc)?, fails, 8, wanted)?;
    assert_eq!(rt; received, failing >= 11, "{failing}");
    Ok(())
}

#[test]
fn each_call_of_the_ports_may_fail(rt: HostRuntime) -> Result<(), Fail> {
    for failing in 1..=14 {
        fails_at(&rt, rt.alloc(), failing)?;
    }
    Ok(())
}
