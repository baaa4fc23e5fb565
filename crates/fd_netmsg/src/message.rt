//! Messages, written and read.

ghost use Rattle.std.specs.Prelude.{◌≡◌, ◌+◌, ◌≤◌, None, Some, length, take, drop, MatchOption};
ghost use Rattle.fd_netmsg.specs.Message.{IsKind, IsMessage, meant, message_of, plain_message, spelled};

use fd_bytes::{Page, get_u32_be, get_u64_be};

/// `NETDUMP_HERALD`: a client begins a dump.
pub const HERALD: u32 = 1;

/// `NETDUMP_FINISHED`: a client has sent its dump.
pub const FINISHED: u32 = 2;

/// `NETDUMP_VMCORE`: bytes of the dump.
pub const VMCORE: u32 = 3;

/// `NETDUMP_KDH`: the header of the dump.
pub const KDH: u32 = 4;

/// `NETDUMP_EKCD_KEY`: the key of an encrypted dump.
pub const KEY: u32 = 5;

/// A message that was read: the fields of `struct netdump_msg_hdr`, and the bytes behind them.
#[derive(Clone, Copy)]
pub struct Message<'a> {
    /// `mh_type`, from `HERALD` to `KEY`.
    pub kind: u32,
    /// `mh_seqno`, the number that is acknowledged.
    pub seqno: u32,
    /// `mh_offset`, where the body lies in the dump.
    pub offset: u64,
    /// `mh_aux2`.
    pub aux: u32,
    /// The `mh_len` bytes behind the fields, at most 4096.
    pub body: &'a [u8],
}

/// Writes a message whose `mh_aux2` is 0 to the front of `out`, and answers how many bytes it has: 24, and its body.
pub fn put_message(kind: u32, seqno: u32, offset: u64, body: &[u8], out: &mut [u8; 4120]) -> usize
    requires kind { IsKind kind }
    requires body { length body.now ≤ 4096 }
    ensures len { result ≡ 24 + length body.now }
    ensures bytes { take result out.new ≡ spelled (plain_message kind seqno offset body.now) }
    ensures rest { drop result out.new ≡ drop result out.old }
    ensures message { IsMessage (plain_message kind seqno offset body.now) }
{
    let mut fields = Page::<24>::new();
    fields.put_u32_be(kind);
    fields.put_u32_be(seqno);
    fields.put_u64_be(offset);
    fields.put_u32_be(body.len() as u32);
    fields.put_u32_be(0);
    let end = 24 + body.len();
    let out = &mut out[..];
    out[..24].copy_from_slice(fields.bytes());
    out[24..end].copy_from_slice(body);
    end
}

/// The message that the bytes are, or None where they are none: they are shorter than 24 bytes, their `mh_type` isn't
/// from `HERALD` to `KEY`, their `mh_len` isn't the number of bytes behind the 24, or that number is over 4096.
pub fn read_message(bytes: &[u8]) -> Option<Message<'_>>
    ensures { MatchOption result (message_of bytes.now ≡ None) (λ m. message_of bytes.now ≡ Some (meant m)) }
{
    if bytes.len() < 24 {
        return None;
    }
    let body = &bytes[24..];
    let kind = get_u32_be(bytes, 0);
    if kind < HERALD || kind > KEY {
        return None;
    }
    if get_u32_be(bytes, 16) as usize != body.len() || body.len() > 4096 {
        return None;
    }
    Some(Message {
        kind,
        seqno: get_u32_be(bytes, 4),
        offset: get_u64_be(bytes, 8),
        aux: get_u32_be(bytes, 20),
        body,
    })
}
