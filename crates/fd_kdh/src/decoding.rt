//! A header from its bytes.

ghost use Rattle.std.specs.Prelude.{◌≡◌, ◌+◌, ◌≤◌, slice_range};
ghost use Rattle.fd_bytes.specs.Label.{text_of};
ghost use Rattle.fd_kdh.specs.Header.{decoded, fields_of};

use crate::header::{CLEARED_MAGIC, Header, HeaderFault, LIVE_MAGIC, TEXT_MAGIC, VERSION};
use crate::layout;
use crate::parity::xor_of_words;
use fd_bytes::{Label, get_u32_be, get_u64_be};

/// The header that these bytes are, or their first fault. What stands in a text's field behind its
/// zero byte, and in the four unused bytes, is ignored.
#[tactic(auto, unfolding(crate::specs::Header::decoded))]
pub fn decode(bytes: &[u8; 512]) -> Result<Header, HeaderFault>
    ensures { result ≡ decoded bytes.now }
{
    if bytes.starts_with(&TEXT_MAGIC) {
        return Err(HeaderFault::TextDump);
    }
    if bytes.starts_with(&CLEARED_MAGIC) {
        return Err(HeaderFault::Cleared);
    }
    if !bytes.starts_with(&LIVE_MAGIC) {
        return Err(HeaderFault::NoMagic);
    }
    let version = get_u32_be(bytes, layout::VERSION);
    if version != VERSION {
        return Err(HeaderFault::UnknownVersion(version));
    }
    let sum = xor_of_words(bytes);
    if sum != 0 {
        return Err(HeaderFault::BadParity(sum));
    }
    Ok(read_fields(bytes))
}

// The fields alone.
fn read_fields(bytes: &[u8; 512]) -> Header
    ensures { result ≡ fields_of bytes.now }
{
    Header {
        architecture: label_at(bytes, layout::ARCHITECTURE),
        architectureversion: get_u32_be(bytes, layout::ARCHITECTUREVERSION),
        dumplength: get_u64_be(bytes, layout::DUMPLENGTH),
        dumptime: get_u64_be(bytes, layout::DUMPTIME),
        dumpkeysize: get_u32_be(bytes, layout::DUMPKEYSIZE),
        blocksize: get_u32_be(bytes, layout::BLOCKSIZE),
        hostname: label_at(bytes, layout::HOSTNAME),
        versionstring: label_at(bytes, layout::VERSIONSTRING),
        panicstring: label_at(bytes, layout::PANICSTRING),
        compression: bytes[layout::COMPRESSION],
        dumpextent: get_u64_be(bytes, layout::DUMPEXTENT),
    }
}

// The text in the N bytes at `at`.
fn label_at<const N: usize>(bytes: &[u8; 512], at: usize) -> Label<N>
    requires { at + N ≤ 512 }
    ensures { result ≡ text_of (slice_range bytes.now at (at + N)) }
{
    Label::read(bytes[at..].first_chunk().unwrap())
}
