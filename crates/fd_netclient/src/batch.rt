//! The batches of a dump's numbers.

ghost use Rattle.std.specs.Prelude.{◌≡◌, ◌^◌, ◌≤◌, slice_get};
ghost use Rattle.fd_netclient.specs.Datagram.{batches};

use crate::marks::Marks;

// The numbers of a batch, counted from 0, or None past the last one.
pub(crate) fn batch_at(chunks: u32, batch: u32) -> Option<Marks>
    requires { chunks ≤ 2 ^ 30 }
    ensures { result ≡ slice_get (batches chunks) batch }
{
    let data = (chunks + 63) / 64;
    if batch == 0 {
        return Some(Marks::all(1, 1));
    }
    if batch <= data {
        let before = (batch - 1) * 64;
        return Some(Marks::all(2 + before, (chunks - before).min(64)));
    }
    if batch == data + 1 {
        return Some(Marks::all(chunks + 2, 1));
    }
    if batch == data + 2 {
        return Some(Marks::all(chunks + 3, 1));
    }
    None
}
