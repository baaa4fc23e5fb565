//! The printed text of a read of kernel memory.
ghost use Rattle.std.specs.Prelude.{◌≡◌, ◌<◌, ◌≤◌, ◌+◌, ◌*◌, ◌^◌, ◌++◌, false, length, take, drop, IfOk};
ghost use Rattle.std.specs.Fmt.{digit_glyph};
ghost use Rattle.fd_bytes.specs.Printed.{hex};
ghost use Rattle.fd_way.specs.ReadText.{byte_text, line_of, read_text};

use std::alloc::{AllocError, Global};

/// How many bytes are in a line.
const LINE: usize = 16;

/// How many characters a full line has: the address, three for each byte, and the newline.
pub(crate) const FULL: usize = 16 + 3 * LINE + 1;

// The hexadecimal digit of a number.
fn digit(value: u8) -> u8
    requires { value < 16 }
    ensures { result ≡ digit_glyph false value }
{
    if value < 10 {
        b'0' + value
    } else {
        b'a' + (value - 10)
    }
}

// Writes an address in 16 digits in front of a line, the last digit first.
pub(crate) fn put_address(line: &mut [u8; FULL], va: u64)
    ensures { take 16 line.new ≡ hex 16 va }
{
    let mut place = 16;
    let mut rest = va;
    while place > 0 {
        place -= 1;
        line[place] = digit((rest % 16) as u8);
        rest /= 16;
    }
}

// Writes a space and a byte in two digits behind the first `at` characters of a line.
fn put_byte(line: &mut [u8; FULL], at: usize, byte: u8)
    requires { at + 3 ≤ 65 }
    ensures { take (at + 3) line.new ≡ take at line.old ++ byte_text byte }
{
    line[at] = b' ';
    line[at + 1] = digit(byte / 16);
    line[at + 2] = digit(byte % 16);
}

// Writes the line of the bytes at an address, and answers how many characters it has.
fn put_line(line: &mut [u8; FULL], va: u64, bytes: &[u8]) -> usize
    requires { length bytes.now ≤ 16 }
    ensures inside { result ≤ 65 }
    ensures line { take result line.new ≡ line_of va bytes.now }
{
    put_address(line, va);
    let mut at = 16;
    for byte in bytes {
        put_byte(line, at, *byte);
        at += 3;
    }
    line[at] = b'\n';
    at + 1
}

/// The text of the bytes at kernel addresses from `va` on, none of which is past the last address: lines of 16 bytes,
/// each with its first address in 16 hexadecimal digits, then a space and two digits for each byte. All its memory is
/// taken at once.
pub fn read_text(alloc: Global, va: u64, bytes: &[u8]) -> Result<Vec<u8>, AllocError>
    requires { va + length bytes.now ≤ 2 ^ 64 }
    ensures { IfOk result (λ text. text.items ≡ read_text va bytes.now) }
{
    let lines = bytes.len().div_ceil(LINE);
    let mut text = Vec::with_capacity(alloc, lines.saturating_mul(FULL))?;
    let mut line = [0; FULL];
    let mut at = 0;
    while at < bytes.len() {
        let end = (at + LINE).min(bytes.len());
        let count = put_line(&mut line, va + at as u64, &bytes[at..end]);
        text.extend_from_slice(&line[..count])?;
        at += LINE;
    }
    Ok(text)
}
