//! Entries of an architecture that is known by its name alone.
ghost use Rattle.std.specs.Prelude.{◌≡◌, ◌≤◌};
ghost use Rattle.fd_pte.specs.Architecture.{directory_height_of, kind_of};
ghost use Rattle.fd_pte.specs.Entry.{IsPlaced};

use crate::amd64::Amd64;
use crate::arm64::Arm64;
use crate::entry::{Entry, Kind};
use crate::riscv::Riscv;
use fd_bytes::Arch;

/// What the bits stand for in a table of this height, from 0 to 3.
pub fn entry_kind(arch: Arch, bits: u64, height: u32) -> Kind
    requires { height ≤ 3 }
    ensures kind { result ≡ kind_of arch bits height }
    ensures placed { IsPlaced height result }
{
    match arch {
        Arch::Amd64 => Amd64::kind(bits, height),
        Arch::Arm64 => Arm64::kind(bits, height),
        Arch::Riscv => Riscv::kind(bits, height),
    }
}

/// The height of the entries of a minidump's page directory.
pub fn directory_height(arch: Arch) -> u32
    ensures value { result ≡ directory_height_of arch }
    ensures low { result ≤ 1 }
{
    arch.profile().directory_height
}
