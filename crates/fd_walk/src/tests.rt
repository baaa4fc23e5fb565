//! Walks of small tables, with what they lead to.
ghost use Rattle.std.specs.Prelude.{◌==◌, ◌&&◌, ◌<◌, ◌≤◌, ◌+◌, ◌^◌, Some, None, nat_le, nat_lt, if◌then◌else◌};

use crate::{Leaf, Step, Walker};
use fd_image::Memory;
use fd_pte::{Amd64, Arm64, Entry, Riscv};

/// Four pages of tables, one page of other words, and the entries that are not 0.
struct FourTables;

const ROOT: u64 = 0x10_0000;

const WINDOW: u64 = 0xffff_fe00_0000_0000;

impl Memory for FourTables {
    ghost word_at = { λ _ pa.
        if pa == 0x100fe0 then Some 0x101003
        else if pa == 0x101000 then Some 0x40000083
        else if pa == 0x101008 then Some 0x102003
        else if pa == 0x102000 then Some 0x103003
        else if pa == 0x102008 then Some 0x60000003
        else if pa == 0x103000 then Some 0x104003
        else if pa == 0x103008 then Some 0x8000000000105001
        else if pa == 0x103010 then Some 0x60000003
        else if nat_le 0x100000 pa && nat_lt pa 0x104000 then Some 0
        else if nat_le 0x60000000 pa && nat_lt pa 0x60001000 then Some pa
        else None };

    fn word_near(&self, pa: u64, _near: &mut usize) -> Option<u64> {
        match pa {
            0x10_0fe0 => Some(0x10_1003),
            0x10_1000 => Some(0x4000_0083),
            0x10_1008 => Some(0x10_2003),
            0x10_2000 => Some(0x10_3003),
            0x10_2008 => Some(0x6000_0003),
            0x10_3000 => Some(0x10_4003),
            0x10_3008 => Some(0x8000_0000_0010_5001),
            0x10_3010 => Some(0x6000_0003),
            _ => {
                if pa >= ROOT && pa < 0x10_4000 {
                    Some(0)
                } else if pa >= 0x6000_0000 && pa < 0x6000_1000 {
                    Some(pa)
                } else {
                    None
                }
            }
        }
    }
}

/// A memory of one word.
#[derive(Clone, Copy)]
struct OneWord {
    place: u64,
    bits: u64,
}

impl Memory for OneWord {
    ghost word_at = { λ m pa. if pa == m.place then Some m.bits else None };

    fn word_near(&self, pa: u64, _near: &mut usize) -> Option<u64> {
        if pa == self.place {
            Some(self.bits)
        } else {
            None
        }
    }
}

#[test]
fn addresses_lead_to_their_leaves(rt: HostRuntime) {
    for (va, want) in [
        (
            0xffff_fe00_001f_fff8,
            Step::Leaf {
                start: 0xffff_fe00_0000_0000,
                pa: 0x4000_0000,
                size: 0x4000_0000,
                bits: 0x4000_0083,
                table: None,
            },
        ),
        (
            0xffff_fe00_4000_1008,
            Step::Leaf {
                start: 0xffff_fe00_4000_1000,
                pa: 0x10_5000,
                size: 0x1000,
                bits: 0x8000_0000_0010_5001,
                table: Some(0x10_3000),
            },
        ),
        (
            0x0000_fe00_4000_1008,
            Step::Leaf {
                start: 0x0000_fe00_4000_1000,
                pa: 0x10_5000,
                size: 0x1000,
                bits: 0x8000_0000_0010_5001,
                table: Some(0x10_3000),
            },
        ),
        (
            0xffff_fe00_4000_3000,
            Step::Absent {
                table: Some(0x10_3000),
            },
        ),
        (
            0xffff_fe00_4020_0000,
            Step::Absent {
                table: Some(0x6000_0000),
            },
        ),
        (0xffff_fe00_4040_0000, Step::Absent { table: None }),
        (0, Step::Absent { table: None }),
    ] {
        assert_eq!(rt;
            Walker::<Amd64, 4>::lookup(&FourTables, ROOT, va),
            want,
            "at {va:x}"
        );
    }
}

/// The entry at an index of a page.
fn entry_of(page: &[u8; 4096], index: usize) -> u64
    requires { index < 512 }
{
    let at = 8 * index;
    u64::from_le_bytes([
        page[at],
        page[at + 1],
        page[at + 2],
        page[at + 3],
        page[at + 4],
        page[at + 5],
        page[at + 6],
        page[at + 7],
    ])
}

/// The entry at an index of one of the first two pages of the window's directory.
fn directory_entry(page: u64, index: usize) -> u64 {
    if page >= 2 || index >= 512 {
        return 0;
    }
    let mut bytes = [0; 4096];
    Walker::<Amd64, 4>::directory_page(&FourTables, ROOT, WINDOW, page, &mut bytes);
    entry_of(&bytes, index)
}

#[test]
fn a_gigantic_leaf_fills_its_directory_page(rt: HostRuntime) {
    for (page, index, want) in [
        (0, 0, 0x4000_0083),
        (0, 1, 0x4020_0083),
        (0, 511, 0x7fe0_0083),
        (1, 0, 0x10_3003),
        (1, 1, 0x6000_0003),
        (1, 2, 0),
    ] {
        assert_eq!(rt; directory_entry(page, index), want, "{index} of {page}");
    }
}

/// The first four leaves of a range.
fn four_leaves(from: u64, bytes: u64) -> [Option<Leaf>; 4]
    requires { from + bytes ≤ 2 ^ 64 }
{
    let mut leaves = Walker::<Amd64, 4>::leaves(&FourTables, ROOT, from, bytes);
    [leaves.next(), leaves.next(), leaves.next(), leaves.next()]
}

#[test]
fn leaves_are_cut_to_the_range(rt: HostRuntime) {
    let leaves = four_leaves(WINDOW + 0x1800, 0x4000_0000);
    let want = [
        Some(Leaf {
            va: WINDOW + 0x1800,
            pa: 0x4000_1800,
            size: 0x3fff_e800,
            bits: 0x4000_0083,
        }),
        Some(Leaf {
            va: WINDOW + 0x4000_0000,
            pa: 0x10_4000,
            size: 0x1000,
            bits: 0x10_4003,
        }),
        Some(Leaf {
            va: WINDOW + 0x4000_1000,
            pa: 0x10_5000,
            size: 0x800,
            bits: 0x8000_0000_0010_5001,
        }),
        None,
    ];
    assert_eq!(rt; leaves, want);
}

#[test]
fn absent_tables_are_passed_at_once(rt: HostRuntime) {
    assert_eq!(rt; four_leaves(0, 0xfe00_0000_0000), [None; 4]);
    assert_eq!(rt;
        four_leaves(WINDOW + 0x8000_0000, 0x1ff_8000_0000),
        [None; 4]
    );
}

/// The first three tables of a range.
fn three_tables(from: u64, bytes: u64) -> [Option<u64>; 3]
    requires { from + bytes ≤ 2 ^ 64 }
{
    let mut tables = Walker::<Amd64, 4>::tables(&FourTables, ROOT, from, bytes);
    [tables.next(), tables.next(), tables.next()]
}

#[test]
fn tables_come_in_the_order_of_their_entries(rt: HostRuntime) {
    assert_eq!(rt;
        three_tables(WINDOW, 0x8000_0000),
        [Some(0x10_3000), Some(0x6000_0000), None]
    );
    assert_eq!(rt;
        three_tables(WINDOW + 0x401f_ffff, 1),
        [Some(0x10_3000), None, None]
    );
}

/// The leaf of the last page of all, and of no other.
fn last_page<E: Entry>(mem: &OneWord) -> Option<Leaf> {
    Walker::<E, 3>::leaves(mem, 0x8000_0000, 0xffff_ffff_ffff_f000, 0x1000).next()
}

const LAST_PAGE: Leaf = Leaf {
    va: 0xffff_ffff_ffff_f000,
    pa: 0xbfff_f000,
    size: 0x1000,
    bits: 0x2000_00cf,
};

/// The last entry of the topmost table alone.
fn last_entry(bits: u64) -> OneWord {
    OneWord {
        place: 0x8000_0ff8,
        bits,
    }
}

#[test]
fn the_last_addresses_are_reached(rt: HostRuntime) {
    assert_eq!(rt;
        last_page::<Riscv>(&last_entry(0x2000_00cf)),
        Some(LAST_PAGE)
    );
    let block = Leaf {
        bits: 0x0060_0000_8000_0701,
        ..LAST_PAGE
    };
    assert_eq!(rt; last_page::<Arm64>(&last_entry(block.bits)), Some(block));
}

#[test]
fn a_block_fills_the_last_directory_page(rt: HostRuntime) {
    let mem = last_entry(0x0060_0000_8000_0701);
    let mut page = [0; 4096];
    Walker::<Arm64, 3>::directory_page(&mem, 0x8000_0000, 0xffff_ffff_c000_0000, 511, &mut page);
    assert_eq!(rt; entry_of(&page, 0), 0x0060_0000_bfe0_0703);
    assert_eq!(rt; entry_of(&page, 511), 0x0060_0000_bfff_f703);
}
