//! Entries of AMD64 long mode.
ghost use Rattle.std.specs.Prelude.{◌≡◌, ◌≤◌};
ghost use Rattle.std.proofs.Common.{lit≤};
ghost use Rattle.fd_pte.specs.Amd64.{amd64_kind, amd64_expansion, amd64_protection};
ghost use Rattle.fd_pte.specs.Amd64Laws.{amd64_placed, amd64_expanded};

use crate::bits::{bits_from_to, is_set, rights};
use crate::entry::{Entry, Kind};

/// AMD64 long mode with tables of four levels; its directories have entries of 2 MiB.
pub struct Amd64;

const PRESENT: u32 = 0;

const WRITABLE: u32 = 1;

const LARGE: u32 = 7;

const NO_EXECUTE: u32 = 63;

impl Entry for Amd64 {
    const DIRECTORY_HEIGHT: u32 = 1;

    ghost DIRECTORY_HEIGHT = { 1 };

    ghost kind_of = { amd64_kind };

    ghost expansion = { amd64_expansion };

    ghost protection = { amd64_protection };

    fn kind(bits: u64, height: u32) -> Kind {
        let page = bits_from_to(bits, 12, 51);
        if !is_set(bits, PRESENT) {
            Kind::Absent
        } else if height == 0 {
            Kind::Leaf(page)
        } else if !is_set(bits, LARGE) {
            Kind::Table(page)
        } else {
            match height {
                1 => Kind::Leaf(bits_from_to(bits, 21, 51)),
                2 => Kind::Leaf(bits_from_to(bits, 30, 51)),
                _ => Kind::Absent,
            }
        }
    }

    fn expand(bits: u64, _height: u32, index: u64) -> u64 {
        bits_from_to(bits, 30, 63) + (index << 21) + bits_from_to(bits, 0, 12)
    }

    fn prot(bits: u64) -> u8 {
        rights(true, is_set(bits, WRITABLE), !is_set(bits, NO_EXECUTE))
    }

    ghost directory_is_low = { lit≤ tt };

    ghost placed = { amd64_placed };

    ghost expanded = { amd64_expanded };
}
