//! Numbers of two bytes in fields of a buffer, as `fd_bytes` has those of four and eight.

ghost use Rattle.std.specs.Prelude.{◌≡◌, ◌+◌, ◌≤◌, ◌++◌, length, take, drop, slice_range};
ghost use Rattle.std.specs.Int.{w16, to_le_bytes};
ghost use Rattle.fd_elf.specs.Field.{u16_le_at};

use byteorder::{ByteOrder, LittleEndian};

/// The number in the two bytes at `at`, the lowest byte first.
#[tactic(auto, unfolding(crate::specs::Field::u16_le_at))]
pub fn get_u16_le(buf: &[u8], at: usize) -> u16
    requires { at + 2 ≤ length buf.now }
    ensures value { result ≡ u16_le_at buf.now at }
    ensures spelling { to_le_bytes w16 result ≡ slice_range buf.now at (at + 2) }
{
    LittleEndian::read_u16(&buf[at..at + 2])
}

/// Writes the number into the two bytes at `at`, the lowest byte first, and no other byte.
pub fn put_u16_le(buf: &mut [u8], at: usize, value: u16)
    requires { at + 2 ≤ length buf.old }
    ensures { buf.new ≡ take at buf.old ++ (to_le_bytes w16 value ++ drop (at + 2) buf.old) }
{
    LittleEndian::write_u16(&mut buf[at..at + 2], value);
}
