//! Texts beside a saved dump.

use fd_info::{read_bounds, read_info};
use std::process::Abort;

const TEXT: &[u8] = b"Dump header from device: dumpdev
  Architecture: riscv64
  Architecture Version: 1
  Dump Length: 32768
  Blocksize: 512
  Compression: none
  Dumptime: 1700000000
  Hostname: rv
  Magic: FreeBSD Kernel Dump
  Version String: FreeBSD 14\\x0a
  Panic String: \\x5ctest\\xff
  Dump Parity: 0x0d4fe538
  Bounds: 7
  Dump Status: good
";

// Whether a text is read, and says what the text above says.
fn says_the_same(text: &[u8]) -> bool {
    match read_info(text) {
        Some(info) => {
            let header = &info.header;
            header.architecture.bytes() == b"riscv64".as_slice()
                && header.architectureversion == 1
                && (header.dumplength, header.dumpextent) == (32768, 32768)
                && (header.dumptime, header.dumpkeysize) == (1_700_000_000, 0)
                && (header.blocksize, header.compression) == (512, 0)
                && header.hostname.bytes() == b"rv".as_slice()
                && header.versionstring.bytes() == b"FreeBSD 14\n".as_slice()
                && header.panicstring.bytes() == b"\\test\xff".as_slice()
                && info.device.bytes() == b"dumpdev".as_slice()
                && (info.parity, info.number) == (0x0d4f_e538, 7)
        }
        None => false,
    }
}

#[test]
fn a_text_says_what_the_header_said(rt: HostRuntime) {
    assert!(rt; says_the_same(TEXT));
}

#[test]
fn other_spellings_are_no_text(rt: HostRuntime) {
    assert!(rt; read_info(b"").is_none());
    assert!(rt; read_info(&TEXT[1..]).is_none());
    assert!(rt; read_info(&TEXT[..TEXT.len() - 1]).is_none());
}

#[test]
fn bounds_are_digits_and_a_newline(rt: HostRuntime) {
    for (text, number) in [
        (&b"7\n"[..], 7),
        (&b"65535"[..], 65535),
        (&b"00012\n"[..], 12),
        (&b"65536\n"[..], 0),
        (&b"000012"[..], 0),
        (&b""[..], 0),
        (&b"\n"[..], 0),
        (&b"7\n\n"[..], 0),
        (&b"+7"[..], 0),
        (&b"0x7"[..], 0),
    ] {
        assert_eq!(rt; read_bounds(text), number);
    }
}
