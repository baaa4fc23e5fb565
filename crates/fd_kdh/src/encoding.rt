//! The bytes of a header.

ghost use Rattle.std.specs.Prelude.{◌≡◌, Ok};
ghost use Rattle.fd_kdh.specs.Header.{FitsFields, decoded, dump_header};
ghost use Rattle.fd_kdh.specs.Parity.{words, xor_all};

use crate::header::{Header, LIVE_MAGIC, VERSION};
use crate::parity::xor_of_words;
use fd_bytes::Page;

/// The 512 bytes of a header, field after field. The last word is the one that makes the exclusive
/// or of all words 0.
pub fn encode(header: &Header) -> [u8; 512]
    requires { FitsFields header.now }
    ensures bytes { result ≡ dump_header header.now }
    ensures parity { xor_all (words result) ≡ 0 }
    ensures read_back { decoded result ≡ Ok header.now }
{
    let mut page = Page::<512>::new();
    page.put(&LIVE_MAGIC);
    page.put_label(&header.architecture);
    page.put_u32_be(VERSION);
    page.put_u32_be(header.architectureversion);
    page.put_u64_be(header.dumplength);
    page.put_u64_be(header.dumptime);
    page.put_u32_be(header.dumpkeysize);
    page.put_u32_be(header.blocksize);
    page.put_label(&header.hostname);
    page.put_label(&header.versionstring);
    page.put_label(&header.panicstring);
    page.put_u8(header.compression);
    page.put_u64_be(header.dumpextent);
    page.put_u32_be(0);
    let sum = xor_of_words(page.filled());
    page.put_u32_be(sum);
    *page.bytes()
}
