//! What a datagram from a port of the server acknowledges.

ghost use Rattle.std.specs.Prelude.{◌≡◌};
ghost use Rattle.fd_netclient.specs.Machine.{session_by};
ghost use Rattle.fd_netclient.specs.Trace.{acknowledged};
ghost use Rattle.fd_site.specs.Trace.{Got};

use fd_netmsg::read_ack;

// The number that a datagram from a port acknowledges, where the session's port is known or not.
pub(crate) fn acknowledged_by(session: Option<u16>, port: u16, bytes: &[u8]) -> Option<u32>
    ensures { result ≡ acknowledged session (Got port bytes.now) }
{
    if let Some(known) = session {
        if known != port {
            return None;
        }
    }
    read_ack(bytes)
}

// The session's port after a datagram from a port: that of the first that acknowledges the herald.
pub(crate) fn session_after(session: Option<u16>, port: u16, bytes: &[u8]) -> Option<u16>
    ensures { result ≡ session_by session (Got port bytes.now) }
{
    if session.is_some() {
        return session;
    }
    match read_ack(bytes) {
        Some(number) if number == 1 => Some(port),
        _ => None,
    }
}
