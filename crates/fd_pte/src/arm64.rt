//! Entries of Arm's 4 KiB granule.
ghost use Rattle.std.proofs.Common.{lit≤};
ghost use Rattle.fd_pte.specs.Arm64.{arm64_kind, arm64_expansion, arm64_protection};
ghost use Rattle.fd_pte.specs.Arm64Laws.{arm64_placed, arm64_expanded};

use crate::bits::{bits_from_to, is_set, rights};
use crate::entry::{Entry, Kind};

/// Arm's 4 KiB granule with tables of four levels; its directories have entries of 4 KiB.
pub struct Arm64;

const VALID: u32 = 0;

const TABLE_OR_PAGE: u32 = 1;

const READ_ONLY: u32 = 7;

const NO_EXECUTE: u32 = 53;

impl Entry for Arm64 {
    const DIRECTORY_HEIGHT: u32 = 0;

    ghost DIRECTORY_HEIGHT = { 0 };

    ghost kind_of = { arm64_kind };

    ghost expansion = { arm64_expansion };

    ghost protection = { arm64_protection };

    fn kind(bits: u64, height: u32) -> Kind {
        if !is_set(bits, VALID) {
            return Kind::Absent;
        }
        if is_set(bits, TABLE_OR_PAGE) {
            let address = bits_from_to(bits, 12, 47);
            return if height == 0 {
                Kind::Leaf(address)
            } else {
                Kind::Table(address)
            };
        }
        if height == 1 || height == 2 {
            Kind::Leaf(bits_from_to(bits, 12 + 9 * height, 47))
        } else {
            Kind::Absent
        }
    }

    fn expand(bits: u64, height: u32, index: u64) -> u64 {
        let address = bits_from_to(bits, 12 + 9 * height, 47) + (index << 12);
        bits_from_to(bits, 48, 63) + address + bits_from_to(bits, 2, 11) + 3
    }

    fn prot(bits: u64) -> u8 {
        rights(true, !is_set(bits, READ_ONLY), !is_set(bits, NO_EXECUTE))
    }

    ghost directory_is_low = { lit≤ tt };

    ghost placed = { arm64_placed };

    ghost expanded = { arm64_expanded };
}
