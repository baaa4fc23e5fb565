//! The text of `info.N` from what it says.

ghost use Rattle.std.specs.Prelude.{◌≡◌, ◌+◌, ◌*◌, ◌<◌, ◌≤◌, [], ◌∷◌, ◌++◌, length, false};
ghost use Rattle.std.specs.Fmt.{decimal, digit_glyph};
ghost use Rattle.arrayvec.specs.ArrayVec.{array_vec_len};
ghost use Rattle.fd_bytes.specs.Printed.{hex};
ghost use Rattle.fd_info.specs.Info.{IsDevice, IsPlain, escaped, escaped_byte, info_text, line, word_digits};

use crate::keys;
use arrayvec::ArrayVec;
use fd_kdh::Header;
use itoa::Buffer;

type Text = ArrayVec<u8, 4096>;

/// The text of `info.N` (savecore(8)) for the dump of this header, which was found on a device with the parity word of
/// the header's sector and is saved under a number. A byte of the header's texts that has no glyph, and the backslash, is
/// printed as `\x` and two hexadecimal digits.
pub fn print_info(header: &Header, device: &[u8], parity: u32, number: u32) -> ArrayVec<u8, 4096>
    requires plain { IsPlain header.now }
    requires device { IsDevice device.now }
    ensures { result.items ≡ info_text header.now device.now parity number }
{
    let mut text = Text::new();
    put_line(&mut text, keys::DEVICE, device);
    put_text(&mut text, keys::ARCHITECTURE, header.architecture.bytes());
    put_number(
        &mut text,
        keys::ARCHITECTURE_VERSION,
        u64::from(header.architectureversion),
    );
    put_number(&mut text, keys::DUMP_LENGTH, header.dumplength);
    put_number(&mut text, keys::BLOCKSIZE, u64::from(header.blocksize));
    put_line(&mut text, keys::COMPRESSION, b"none");
    put_number(&mut text, keys::DUMPTIME, header.dumptime);
    put_text(&mut text, keys::HOSTNAME, header.hostname.bytes());
    put_line(&mut text, keys::MAGIC, b"FreeBSD Kernel Dump");
    put_text(
        &mut text,
        keys::VERSION_STRING,
        header.versionstring.bytes(),
    );
    put_text(&mut text, keys::PANIC_STRING, header.panicstring.bytes());
    put_word(&mut text, keys::DUMP_PARITY, parity);
    put_number(&mut text, keys::BOUNDS, u64::from(number));
    put_line(&mut text, keys::DUMP_STATUS, b"good");
    text
}

fn put(text: &mut Text, bytes: &[u8])
    requires { array_vec_len text.old + length bytes.now ≤ 4096 }
    ensures items { text.new.items ≡ text.old.items ++ bytes.now }
    ensures len { array_vec_len text.new ≡ array_vec_len text.old + length bytes.now }
{
    let _fits = text.try_extend_from_slice(bytes);
}

fn put_line(text: &mut Text, key: &[u8], value: &[u8])
    requires { array_vec_len text.old + length key.now + length value.now < 4096 }
    ensures items { text.new.items ≡ text.old.items ++ line key.now value.now [] }
    ensures len { array_vec_len text.new ≡ array_vec_len text.old + length key.now + length value.now + 1 }
{
    put(text, key);
    put(text, value);
    text.push(b'\n');
}

fn put_number(text: &mut Text, key: &[u8], number: u64)
    requires { array_vec_len text.old + length key.now + 20 < 4096 }
    ensures items { text.new.items ≡ text.old.items ++ line key.now (decimal number) [] }
    ensures len { array_vec_len text.new ≤ array_vec_len text.old + length key.now + 21 }
{
    let mut buffer = Buffer::new();
    put_line(text, key, buffer.format(number).as_bytes());
}

fn put_text(text: &mut Text, key: &[u8], value: &[u8])
    requires { array_vec_len text.old + length key.now + 4 * length value.now < 4096 }
    ensures items { text.new.items ≡ text.old.items ++ line key.now (escaped value.now) [] }
    ensures len { array_vec_len text.new ≤ array_vec_len text.old + length key.now + 4 * length value.now + 1 }
{
    put(text, key);
    for byte in value {
        put_escaped(text, *byte);
    }
    text.push(b'\n');
}

fn put_escaped(text: &mut Text, byte: u8)
    requires { array_vec_len text.old + 4 ≤ 4096 }
    ensures items { text.new.items ≡ text.old.items ++ escaped_byte byte }
    ensures len { array_vec_len text.new ≤ array_vec_len text.old + 4 }
{
    if matches!(byte, 0x20..=0x7e) && byte != b'\\' {
        text.push(byte);
        return;
    }
    put(text, b"\\x");
    put_digits(text, byte);
}

// The word's bytes, the highest first, in hexadecimal digits.
fn put_word(text: &mut Text, key: &[u8], word: u32)
    requires { array_vec_len text.old + length key.now + 8 < 4096 }
    ensures items { text.new.items ≡ text.old.items ++ line key.now (word_digits word) [] }
    ensures len { array_vec_len text.new ≡ array_vec_len text.old + length key.now + 9 }
{
    put(text, key);
    let [a, b, c, d] = word.to_be_bytes();
    put_digits(text, a);
    put_digits(text, b);
    put_digits(text, c);
    put_digits(text, d);
    text.push(b'\n');
}

// Two lower hexadecimal digits.
#[tactic(auto, using(crate::proofs::Digits::hex_two))]
fn put_digits(text: &mut Text, byte: u8)
    requires { array_vec_len text.old + 2 ≤ 4096 }
    ensures items { text.new.items ≡ text.old.items ++ hex 2 byte }
    ensures len { array_vec_len text.new ≡ array_vec_len text.old + 2 }
{
    text.push(hex_digit(byte / 16));
    text.push(hex_digit(byte % 16));
}

fn hex_digit(digit: u8) -> u8
    requires { digit < 16 }
    ensures { result ≡ digit_glyph false digit }
{
    if digit < 10 {
        b'0' + digit
    } else {
        b'a' + digit - 10
    }
}
