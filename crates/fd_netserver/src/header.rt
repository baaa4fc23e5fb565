//! The headers that a server takes.

ghost use Rattle.std.specs.Prelude.{◌≡◌, IfSome};
ghost use Rattle.fd_info.specs.Info.{IsPlain};
ghost use Rattle.fd_netserver.specs.Session.{accepted, is_plain};

use fd_bytes::Arch;
use fd_kdh::{Header, decode};

// Whether a dump is neither compressed nor encrypted, of a known architecture, and has some bytes, at most 2^40, with no
// fill behind them.
fn is_plain(header: &Header) -> bool
    ensures { result ≡ is_plain header.now }
{
    header.compression == 0
        && header.dumpkeysize == 0
        && Arch::of_header(header.architecture.bytes(), header.architectureversion).is_some()
        && header.dumplength == header.dumpextent
        && 0 < header.dumplength
        && header.dumplength <= 1 << 40
}

/// The header that these bytes are, where a server takes it: that of a plain dump.
pub(crate) fn accepted(bytes: &[u8; 512]) -> Option<Header>
    ensures is { result ≡ accepted bytes.now }
    ensures plain { IfSome result IsPlain }
{
    match decode(bytes) {
        Ok(header) => {
            if is_plain(&header) {
                Some(header)
            } else {
                None
            }
        }
        Err(_) => None,
    }
}
