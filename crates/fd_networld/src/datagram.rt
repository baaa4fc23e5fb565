//! The datagrams of a dump.

ghost use Rattle.std.specs.Prelude.{◌≡◌, ◌≢◌, ◌+◌, ◌<◌, ◌≤◌, take};
ghost use Rattle.fd_kdh.specs.Header.{FitsFields};
ghost use Rattle.fd_kdh.specs.declared.header.Header.{Header};
ghost use Rattle.fd_netclient.specs.Datagram.{chunks, datagram};
ghost use Rattle.fd_networld.specs.Steps.{IsChunked};

use fd_kdh::{Header, encode};
use fd_netmsg::{FINISHED, HERALD, KDH, VMCORE, put_message};

/// How many chunks of 4096 bytes a dump has.
pub(crate) fn chunks_of(dump: &[u8]) -> u32
    requires { IsChunked dump.now }
    ensures value { result ≡ chunks dump.now }
    ensures some { 1 ≤ result }
    ensures few { result ≤ 1048576 }
{
    (dump.len() / 4096) as u32
}

/// Writes the datagram of a number to the front of `out`, and answers how many bytes it has.
pub(crate) fn put_datagram(dump: &[u8], header: &Header, number: u32, out: &mut [u8; 4120]) -> usize
    requires dump { IsChunked dump.now }
    requires header { FitsFields header.now }
    ensures len { result ≤ 4120 }
    ensures bytes { take result out.new ≡ datagram dump.now header.now number }
{
    let chunks = chunks_of(dump);
    if number == 1 {
        return put_message(HERALD, number, 0, &[], out);
    }
    if number < chunks + 2 {
        return put_chunk(dump, number, out);
    }
    if number == chunks + 2 {
        let header = encode(header);
        return put_message(KDH, number, 0, &header, out);
    }
    put_message(FINISHED, number, 0, &[], out)
}

// The same for the number of a chunk: the first one's is 2.
fn put_chunk(dump: &[u8], number: u32, out: &mut [u8; 4120]) -> usize
    requires dump { IsChunked dump.now }
    requires chunk { number < chunks dump.now + 2 }
    ensures len { result ≤ 4120 }
    ensures bytes { (header : Header) → number ≢ 1 → take result out.new ≡ datagram dump.now header number }
{
    let at = 4096 * u64::from(number.saturating_sub(2));
    let from = at as usize;
    put_message(VMCORE, number, at, &dump[from..from + 4096], out)
}
