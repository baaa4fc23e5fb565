//! Writes to bytes in memory.

ghost use Rattle.std.specs.Prelude.{◌≡◌, ◌+◌, ◌-◌, ◌≤◌, ◌++◌, length, take, drop, replicate, OnOk, OnErr};
ghost use Rattle.fd_site.specs.Journal.{file_written};

use std::alloc::AllocError;

/// Puts the new bytes at `at` in the place of as many others.
pub fn overwrite(bytes: &mut Vec<u8>, at: u64, new: &[u8])
    requires { at + length new.now ≤ length bytes.old.items }
    ensures { bytes.new.items ≡ take at bytes.old.items ++ (new.now ++ drop (length new.now) (drop at bytes.old.items)) }
{
    let from = at as usize;
    bytes[from..from + new.len()].copy_from_slice(new);
}

// Makes the bytes at least `len`, with zeros at their end.
fn grow(bytes: &mut Vec<u8>, len: usize) -> Result<(), AllocError>
    ensures ok { OnOk result (bytes.new.items ≡ bytes.old.items ++ replicate (len - length bytes.old.items) 0) }
    ensures err { OnErr result (bytes.new.items ≡ bytes.old.items) }
{
    if len <= bytes.len() {
        return Ok(());
    }
    bytes.resize(len, 0)?;
    Ok(())
}

/// Puts the new bytes at `at`, past the end too, where a gap before them is filled with zeros.
#[tactic(auto, using(crate::proofs::Grown::overwrite_grown))]
pub fn write_at(bytes: &mut Vec<u8>, at: u64, new: &[u8]) -> Result<(), AllocError>
    ensures ok { OnOk result (bytes.new.items ≡ file_written bytes.old.items at new.now) }
    ensures err { OnErr result (bytes.new.items ≡ bytes.old.items) }
{
    let Some(end) = (at as usize).checked_add(new.len()) else {
        return Err(AllocError);
    };
    grow(bytes, end)?;
    overwrite(bytes, at, new);
    Ok(())
}
