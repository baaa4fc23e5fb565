//! What a header's type says of it.

ghost use Rattle.std.specs.Prelude.{◌<◌, ◌^◌, All};
ghost use Rattle.fd_bytes.specs.Label.{IsByteText};
ghost use Rattle.fd_kdh.specs.Header.{FitsFields, IsWithinFields};

use fd_bytes::Label;
use fd_kdh::Header;

// A slice of bytes holds bytes.
fn are_bytes(bytes: &[u8])
    ensures { All (λ byte. byte < 256) bytes.now }
{
    let _len = bytes.len();
}

// A label is a text.
fn is_text<const N: usize>(label: &Label<N>)
    ensures { IsByteText label.now }
{
    are_bytes(label.bytes());
}

// A number is one of its type.
fn is_word(word: u32)
    ensures { word < 2 ^ 32 }
{
    let _word = word;
}

fn is_long(long: u64)
    ensures { long < 2 ^ 64 }
{
    let _long = long;
}

fn is_byte(byte: u8)
    ensures { byte < 256 }
{
    let _byte = byte;
}

/// Each number is within the type of its field, and each label is a text that is shorter than its field.
pub(crate) fn is_within(header: &Header)
    requires { FitsFields header.now }
    ensures { IsWithinFields header.now }
{
    is_text(&header.architecture);
    is_text(&header.hostname);
    is_text(&header.versionstring);
    is_text(&header.panicstring);
    is_word(header.architectureversion);
    is_word(header.dumpkeysize);
    is_word(header.blocksize);
    is_long(header.dumplength);
    is_long(header.dumptime);
    is_long(header.dumpextent);
    is_byte(header.compression);
}
