//! Header pages byte by byte, the places of their sections, and what is refused.
ghost use Rattle.std.specs.Prelude.{IsTrue};
ghost use Rattle.fd_mini.specs.Layout.{is_current};

use fd_bytes::Arch;
use fd_mini::{
    MiniFault, MiniField, MiniHeader, Places, places_of, read_header, unit_of, write_header,
};

// The header of a small riscv machine's minidump.
const SMALL: MiniHeader = MiniHeader {
    arch: Arch::Riscv,
    version: 2,
    msgbufsize: 12,
    bitmapsize: 4096,
    pmapsize: 4096,
    kernbase: 0xffff_ffc0_0000_0000,
    dmapphys: 0x8000_0000,
    dmapbase: 0xffff_ffd0_0000_0000,
    dmapend: 0xffff_ffd0_0000_6000,
    dumpavailsize: 4096,
    flags: 0,
};

const ARM: MiniHeader = MiniHeader {
    arch: Arch::Arm64,
    version: 3,
    flags: 0xffff_fffc,
    ..SMALL
};

const AMD: MiniHeader = MiniHeader {
    arch: Arch::Amd64,
    version: 3,
    msgbufsize: 0,
    pmapsize: 8192,
    dmapphys: 0,
    ..SMALL
};

fn written(header: &MiniHeader) -> [u8; 4096]
    requires { IsTrue (is_current header.now.arch header.now.version) }
{
    let mut page = [0xff; 4096];
    write_header(header, &mut page);
    page
}

#[test]
fn a_riscv_page_has_the_fields_of_its_struct(rt: HostRuntime) {
    let page = written(&SMALL);
    let fields: [(usize, &[u8]); 5] = [
        (0, b"minidump FreeBSD/riscv\0\0"),
        (24, &[2, 0, 0, 0, 12, 0, 0, 0, 0, 16, 0, 0, 0, 16, 0, 0]),
        (
            40,
            &[
                0, 0, 0, 0, 0xc0, 0xff, 0xff, 0xff, 0, 0, 0, 0x80, 0, 0, 0, 0,
            ],
        ),
        (
            64,
            &[
                0, 0x60, 0, 0, 0xd0, 0xff, 0xff, 0xff, 0, 16, 0, 0, 0, 0, 0, 0,
            ],
        ),
        (4088, &[0, 0, 0, 0, 0, 0, 0, 0]),
    ];
    for (at, bytes) in fields {
        assert!(rt; page[at..].starts_with(bytes), "at {at}");
    }
}

#[test]
fn each_page_is_read_back(rt: HostRuntime) {
    for header in [SMALL, ARM, AMD] {
        assert_eq!(rt; read_header(&written(&header)), Ok(header));
    }
}

// What the page of these fields is read as when it bears another version.
fn read_as(header: &MiniHeader, version: u8) -> Result<MiniHeader, MiniFault>
    requires { IsTrue (is_current header.now.arch header.now.version) }
{
    let mut page = written(header);
    page[24] = version;
    read_header(&page)
}

#[test]
fn an_older_page_lacks_the_later_fields(rt: HostRuntime) {
    let no_ranges = MiniHeader {
        dumpavailsize: 0,
        ..AMD
    };
    let no_flags = MiniHeader { flags: 0, ..ARM };
    for (header, version, fields) in [
        (AMD, 1, no_ranges),
        (AMD, 2, no_ranges),
        (ARM, 2, no_flags),
        (
            ARM,
            1,
            MiniHeader {
                dumpavailsize: 0,
                ..no_flags
            },
        ),
        (
            SMALL,
            1,
            MiniHeader {
                dumpavailsize: 0,
                ..SMALL
            },
        ),
    ] {
        let older = MiniHeader {
            version: u32::from(version),
            ..fields
        };
        assert_eq!(rt; read_as(&header, version), Ok(older));
    }
}

#[test]
fn no_other_version_is_known(rt: HostRuntime) {
    for (header, version) in [
        (AMD, 0),
        (AMD, 4),
        (ARM, 0),
        (ARM, 4),
        (SMALL, 0),
        (SMALL, 3),
    ] {
        let unknown = MiniFault::UnknownVersion(u32::from(version));
        assert_eq!(rt; read_as(&header, version), Err(unknown));
    }
}

#[test]
fn an_entry_maps_a_page_or_a_table_of_pages(rt: HostRuntime) {
    let first = MiniHeader { version: 1, ..AMD };
    let second = MiniHeader { version: 2, ..AMD };
    assert_eq!(rt; (unit_of(&first), unit_of(&second)), (4096, 1 << 21));
    assert_eq!(rt; (unit_of(&ARM), unit_of(&SMALL)), (4096, 4096));
}

#[test]
fn the_first_reason_is_named(rt: HostRuntime) {
    let too_large = MiniHeader {
        dumpavailsize: (1 << 20) + 1,
        bitmapsize: (1 << 26) + 1,
        ..ARM
    };
    let long_bitmap = MiniHeader {
        bitmapsize: (1 << 26) + 1,
        ..AMD
    };
    let big_granule = MiniHeader {
        flags: 6,
        ..too_large
    };
    let faults = [
        (big_granule, MiniFault::BigGranule(6)),
        (
            too_large,
            MiniFault::TooLarge(MiniField::DumpAvail, (1 << 20) + 1),
        ),
        (
            long_bitmap,
            MiniFault::TooLarge(MiniField::Bitmap, (1 << 26) + 1),
        ),
    ];
    for (header, fault) in faults {
        assert_eq!(rt; read_header(&written(&header)), Err(fault));
    }
    let mut page = written(&SMALL);
    page[24] = 9;
    assert_eq!(rt; read_header(&page), Err(MiniFault::UnknownVersion(9)));
    page[23] = 1;
    assert_eq!(rt; read_header(&page), Err(MiniFault::BadMagic));
}

#[test]
fn sections_begin_at_multiples_of_a_page(rt: HostRuntime) {
    let riscv = Places {
        msgbuf: 4096,
        avail: 8192,
        bitmap: 12288,
        directory: 16384,
        pages: 20480,
    };
    let amd64 = Places {
        msgbuf: 4096,
        avail: 4096,
        bitmap: 8192,
        directory: 12288,
        pages: 20480,
    };
    assert_eq!(rt; places_of(&SMALL), riscv);
    assert_eq!(rt; places_of(&AMD), amd64);
}
