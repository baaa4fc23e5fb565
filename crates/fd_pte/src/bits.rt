//! Bits of an entry, numbered as in the manuals: bit 0 is the lowest, and a range names its lowest
//! and its highest bit.
ghost use Rattle.std.specs.Prelude.{◌≡◌, ◌≤◌, ◌<◌, ◌+◌};
ghost use Rattle.fd_pte.specs.Bits.{is_set, field, bits_from_to, rights};

/// Whether bit `k` is 1.
pub(crate) fn is_set(bits: u64, k: u32) -> bool
    requires { k < 64 }
    ensures { result ≡ is_set k bits }
{
    bits >> k & 1 == 1
}

/// The number that the bits from `low` to `high` spell. At most 63 bits are taken.
pub(crate) fn field(bits: u64, low: u32, high: u32) -> u64
    requires ordered { low ≤ high }
    requires within { high < 64 }
    requires width { high < low + 63 }
    ensures { result ≡ field low high bits }
{
    let width = high + 1 - low;
    bits >> low & ((1 << width) - 1)
}

/// The bits from `low` to `high`, each in its place.
pub(crate) fn bits_from_to(bits: u64, low: u32, high: u32) -> u64
    requires ordered { low ≤ high }
    requires within { high < 64 }
    requires width { high < low + 63 }
    ensures { result ≡ bits_from_to low high bits }
{
    field(bits, low, high) << low
}

/// The accesses that are allowed: 1 for reading, 2 for writing, 4 for executing, added up.
pub(crate) fn rights(read: bool, write: bool, execute: bool) -> u8
    ensures { result ≡ rights read write execute }
{
    let read = if read { 1 } else { 0 };
    let write = if write { 2 } else { 0 };
    let execute = if execute { 4 } else { 0 };
    read + write + execute
}
