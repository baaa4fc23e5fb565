//! Entries as the manuals have them, with what they stand for.
use crate::{Amd64, Arm64, Entry, Kind, Riscv};

/// The kind at a height from 0 to 3.
fn kind_at<E: Entry>(bits: u64, height: u32) -> Kind {
    if height <= 3 {
        E::kind(bits, height)
    } else {
        Kind::Absent
    }
}

#[test]
fn reserved_entries_of_amd64_are_absent(rt: HostRuntime) {
    for (bits, height, want) in [
        (0, 0, Kind::Absent),
        (0xffff_ffff_ffff_fffe, 0, Kind::Absent),
        (0xffff_ffff_ffff_fffe, 2, Kind::Absent),
        (0x83, 3, Kind::Absent),
        (0xfff8_0000_0010_5fff, 0, Kind::Leaf(0x8_0000_0010_5000)),
        (0x401f_f083, 1, Kind::Leaf(0x4000_0000)),
        (0x7fff_f083, 2, Kind::Leaf(0x4000_0000)),
        (0x7ff0_0000_0010_1f03, 1, Kind::Table(0x10_1000)),
        (0x10_1003, 3, Kind::Table(0x10_1000)),
    ] {
        assert_eq!(rt;
            kind_at::<Amd64>(bits, height),
            want,
            "{bits:x} at {height}"
        );
    }
}

#[test]
fn reserved_descriptors_of_arm64_are_absent(rt: HostRuntime) {
    for (bits, height, want) in [
        (0xffff_ffff_ffff_fffc, 1, Kind::Absent),
        (0xffff_ffff_ffff_fffe, 0, Kind::Absent),
        (0x4000_0701, 0, Kind::Absent),
        (0x4000_0701, 3, Kind::Absent),
        (0x0060_0000_4000_0701, 1, Kind::Leaf(0x4000_0000)),
        (0x7fff_f701, 1, Kind::Leaf(0x7fe0_0000)),
        (0x7fff_f701, 2, Kind::Leaf(0x4000_0000)),
        (0xffff_0000_4000_1703, 0, Kind::Leaf(0x4000_1000)),
        (0xffff_8000_4000_1003, 3, Kind::Table(0x8000_4000_1000)),
    ] {
        assert_eq!(rt;
            kind_at::<Arm64>(bits, height),
            want,
            "{bits:x} at {height}"
        );
    }
}

#[test]
fn reserved_entries_of_riscv_are_absent(rt: HostRuntime) {
    for (bits, height, want) in [
        (0x2008_0cc7, 0, Kind::Leaf(0x8020_3000)),
        (0x2008_0cc5, 0, Kind::Absent),
        (0x2008_0ccd, 0, Kind::Absent),
        (0x2008_0cce, 0, Kind::Absent),
        (0x2008_0cc1, 0, Kind::Absent),
        (0x2008_0cc1, 1, Kind::Table(0x8020_3000)),
        (0x2008_0cc9, 0, Kind::Leaf(0x8020_3000)),
        (0x2008_0cc7, 1, Kind::Absent),
        (0x2008_00c7, 1, Kind::Leaf(0x8020_0000)),
        (0x2008_00c7, 2, Kind::Absent),
        (0x2000_00cf, 2, Kind::Leaf(0x8000_0000)),
        (0x2000_00cf, 3, Kind::Absent),
        (0xffc0_0000_2000_0001, 2, Kind::Table(0x8000_0000)),
    ] {
        assert_eq!(rt;
            kind_at::<Riscv>(bits, height),
            want,
            "{bits:x} at {height}"
        );
    }
}

#[test]
fn units_of_large_leaves(rt: HostRuntime) {
    assert_eq!(rt; Amd64::expand(0x4000_0083, 2, 511), 0x7fe0_0083);
    assert_eq!(rt;
        Amd64::expand(0x8000_0000_4000_1083, 2, 1),
        0x8000_0000_4020_1083
    );
    assert_eq!(rt;
        Arm64::expand(0x0060_0000_4000_0701, 1, 1),
        0x0060_0000_4000_1703
    );
    assert_eq!(rt; Riscv::expand(0x2000_00cf, 2, 262_143), 0x2fff_fccf);
}

#[test]
fn accesses_of_entries(rt: HostRuntime) {
    for (got, want) in [
        (Amd64::prot(0x83), 7),
        (Amd64::prot(0x8000_0000_0010_5001), 1),
        (Arm64::prot(0x0060_0000_4000_0701), 3),
        (Arm64::prot(0x0020_0000_4000_0783), 1),
        (Riscv::prot(0x2008_0cc7), 3),
        (Riscv::prot(0x2008_0cc9), 4),
    ] {
        assert_eq!(rt; got, want);
    }
}
