//! Headers as another program spells them, and the first fault of others.

ghost use Rattle.fd_kdh.specs.Header.{FitsFields};

use super::*;
use fd_bytes::Label;
use std::process::Abort;

// A header as another program spells it: where bytes that aren't zero stand, and which.
const SPELLED: [(usize, &[u8]); 12] = [
    (0, b"FreeBSD Kernel Dump"),
    (20, b"riscv64"),
    (35, b"\x04"),
    (39, b"\x01"),
    (46, b"\x80"),
    (52, b"\x65\x53\xf1"),
    (62, b"\x02"),
    (64, b"rv"),
    (128, b"FreeBSD 14"),
    (320, b"test"),
    (502, b"\x80"),
    (508, b"\x0d\x4f\xe5\x38"),
];

fn header() -> Header
    ensures { FitsFields result }
{
    Header {
        architecture: Label::cut(b"riscv64"),
        architectureversion: 1,
        dumplength: 32768,
        dumptime: 1_700_000_000,
        dumpkeysize: 0,
        blocksize: 512,
        hostname: Label::cut(b"rv"),
        versionstring: Label::cut_version(b"FreeBSD 14"),
        panicstring: Label::cut(b"test"),
        compression: 0,
        dumpextent: 32768,
    }
}

fn write_at(bytes: &mut [u8; 512], at: usize, part: &[u8]) {
    for (byte, new) in bytes.iter_mut().skip(at).zip(part) {
        *byte = *new;
    }
}

fn spelled() -> [u8; 512] {
    let mut bytes = [0; 512];
    for (at, part) in SPELLED {
        write_at(&mut bytes, at, part);
    }
    bytes
}

fn fault_at(rt: &impl Abort, at: usize, part: &[u8], fault: HeaderFault) {
    let mut bytes = spelled();
    write_at(&mut bytes, at, part);
    assert_eq!(rt; decode(&bytes), Err(fault));
}

#[test]
fn a_header_is_written_and_read(rt: HostRuntime) {
    assert_eq!(rt; encode(&header()), spelled());
    assert_eq!(rt; decode(&spelled()), Ok(header()));
}

#[test]
fn what_no_field_tells_is_ignored(rt: HostRuntime) {
    let mut bytes = spelled();
    write_at(&mut bytes, 68, b"junk");
    write_at(&mut bytes, 504, b"junk");
    assert_eq!(rt; decode(&bytes), Ok(header()));
}

#[test]
fn the_first_fault_is_named(rt: HostRuntime) {
    fault_at(&rt, 320, b"uest", HeaderFault::BadParity(0x0100_0000));
    fault_at(&rt, 32, b"\0\0\0\x03", HeaderFault::UnknownVersion(3));
    fault_at(&rt, 0, &TEXT_MAGIC, HeaderFault::TextDump);
    fault_at(&rt, 0, &CLEARED_MAGIC, HeaderFault::Cleared);
    fault_at(&rt, 19, b"!", HeaderFault::NoMagic);
    fault_at(&rt, 0, b"\0", HeaderFault::NoMagic);
}
