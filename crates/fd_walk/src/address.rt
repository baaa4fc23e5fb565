//! Addresses, as page tables divide them.
ghost use Rattle.std.specs.Prelude.{◌≡◌, ◌≤◌};
ghost use Rattle.fd_pte.specs.Entry.{bytes_under};
ghost use Rattle.fd_walk.specs.PageTables.{index_at};

/// The bytes of the addresses under one entry of a height.
pub(crate) fn bytes_under(height: u32) -> u64
    requires { height ≤ 4 }
    ensures { result ≡ bytes_under height }
{
    1 << (12 + 9 * height)
}

/// The index of an address in a table whose entries have this height.
pub(crate) fn index_at(va: u64, height: u32) -> u64
    requires { height ≤ 3 }
    ensures { result ≡ index_at height va }
{
    va / bytes_under(height) % 512
}
