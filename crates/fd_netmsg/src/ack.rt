//! Acknowledgements, written and read.

ghost use Rattle.std.specs.Prelude.{◌≡◌};
ghost use Rattle.fd_netmsg.specs.Message as spec;

/// The bytes that acknowledge a number: `struct netdump_ack` of `netdump.h`, the number alone.
pub fn put_ack(seqno: u32) -> [u8; 4]
    ensures { result ≡ spec.ack seqno }
{
    seqno.to_be_bytes()
}

/// The number that these bytes acknowledge, or None where there aren't 4 bytes.
pub fn read_ack(bytes: &[u8]) -> Option<u32>
    ensures { result ≡ spec.read_ack bytes.now }
{
    match bytes {
        [a, b, c, d] => Some(u32::from_be_bytes([*a, *b, *c, *d])),
        _ => None,
    }
}
