//! Entries of RISC-V.
ghost use Rattle.std.proofs.Common.{lit≤};
ghost use Rattle.fd_pte.specs.Riscv.{riscv_kind, riscv_expansion, riscv_protection};
ghost use Rattle.fd_pte.specs.RiscvLaws.{riscv_placed, riscv_expanded};

use crate::bits::{bits_from_to, field, is_set, rights};
use crate::entry::{Entry, Kind};

/// RISC-V, Sv39 and Sv48 alike; its directories have entries of 4 KiB.
pub struct Riscv;

const VALID: u32 = 0;

const READABLE: u32 = 1;

const WRITABLE: u32 = 2;

const EXECUTABLE: u32 = 3;

impl Entry for Riscv {
    const DIRECTORY_HEIGHT: u32 = 0;

    ghost DIRECTORY_HEIGHT = { 0 };

    ghost kind_of = { riscv_kind };

    ghost expansion = { riscv_expansion };

    ghost protection = { riscv_protection };

    fn kind(bits: u64, height: u32) -> Kind {
        let readable = is_set(bits, READABLE);
        let writable = is_set(bits, WRITABLE);
        if !is_set(bits, VALID) || writable && !readable {
            return Kind::Absent;
        }
        let page = field(bits, 10, 53);
        if !(readable || writable || is_set(bits, EXECUTABLE)) {
            return if height == 0 {
                Kind::Absent
            } else {
                Kind::Table(page << 12)
            };
        }
        if page % (1 << (9 * height)) == 0 {
            Kind::Leaf(page << 12)
        } else {
            Kind::Absent
        }
    }

    fn expand(bits: u64, _height: u32, index: u64) -> u64 {
        let page = field(bits, 10, 53) + index;
        bits_from_to(bits, 54, 63) + (page << 10) + bits_from_to(bits, 0, 9)
    }

    fn prot(bits: u64) -> u8 {
        rights(
            is_set(bits, READABLE),
            is_set(bits, WRITABLE),
            is_set(bits, EXECUTABLE),
        )
    }

    ghost directory_is_low = { lit≤ tt };

    ghost placed = { riscv_placed };

    ghost expanded = { riscv_expanded };
}
