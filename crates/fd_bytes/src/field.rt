//! Numbers in fields of a buffer. A field is the number's bytes at a place, and in either byte
//! order each number has one spelling.

ghost use Rattle.std.specs.Prelude.{◌≡◌, ◌+◌, ◌≤◌, ◌++◌, length, take, drop, slice_range};
ghost use Rattle.std.specs.Int.{w32, w64, to_be_bytes, to_le_bytes};
ghost use Rattle.fd_bytes.specs.Field.{u32_be_at, u32_le_at, u64_be_at, u64_le_at};

use byteorder::{BigEndian, ByteOrder, LittleEndian};

/// The number in the four bytes at `at`, the highest byte first.
#[tactic(auto, unfolding(crate::specs::Field::u32_be_at))]
pub fn get_u32_be(buf: &[u8], at: usize) -> u32
    requires { at + 4 ≤ length buf.now }
    ensures value { result ≡ u32_be_at buf.now at }
    ensures spelling { to_be_bytes w32 result ≡ slice_range buf.now at (at + 4) }
{
    BigEndian::read_u32(&buf[at..at + 4])
}

/// The number in the eight bytes at `at`, the highest byte first.
#[tactic(auto, unfolding(crate::specs::Field::u64_be_at))]
pub fn get_u64_be(buf: &[u8], at: usize) -> u64
    requires { at + 8 ≤ length buf.now }
    ensures value { result ≡ u64_be_at buf.now at }
    ensures spelling { to_be_bytes w64 result ≡ slice_range buf.now at (at + 8) }
{
    BigEndian::read_u64(&buf[at..at + 8])
}

/// The number in the four bytes at `at`, the lowest byte first.
#[tactic(auto, unfolding(crate::specs::Field::u32_le_at))]
pub fn get_u32_le(buf: &[u8], at: usize) -> u32
    requires { at + 4 ≤ length buf.now }
    ensures value { result ≡ u32_le_at buf.now at }
    ensures spelling { to_le_bytes w32 result ≡ slice_range buf.now at (at + 4) }
{
    LittleEndian::read_u32(&buf[at..at + 4])
}

/// The number in the eight bytes at `at`, the lowest byte first.
#[tactic(auto, unfolding(crate::specs::Field::u64_le_at))]
pub fn get_u64_le(buf: &[u8], at: usize) -> u64
    requires { at + 8 ≤ length buf.now }
    ensures value { result ≡ u64_le_at buf.now at }
    ensures spelling { to_le_bytes w64 result ≡ slice_range buf.now at (at + 8) }
{
    LittleEndian::read_u64(&buf[at..at + 8])
}

/// Writes the number into the four bytes at `at`, the highest byte first, and no other byte.
pub fn put_u32_be(buf: &mut [u8], at: usize, value: u32)
    requires { at + 4 ≤ length buf.old }
    ensures { buf.new ≡ take at buf.old ++ (to_be_bytes w32 value ++ drop (at + 4) buf.old) }
{
    BigEndian::write_u32(&mut buf[at..at + 4], value);
}

/// Writes the number into the eight bytes at `at`, the highest byte first, and no other byte.
pub fn put_u64_be(buf: &mut [u8], at: usize, value: u64)
    requires { at + 8 ≤ length buf.old }
    ensures { buf.new ≡ take at buf.old ++ (to_be_bytes w64 value ++ drop (at + 8) buf.old) }
{
    BigEndian::write_u64(&mut buf[at..at + 8], value);
}

/// Writes the number into the four bytes at `at`, the lowest byte first, and no other byte.
pub fn put_u32_le(buf: &mut [u8], at: usize, value: u32)
    requires { at + 4 ≤ length buf.old }
    ensures { buf.new ≡ take at buf.old ++ (to_le_bytes w32 value ++ drop (at + 4) buf.old) }
{
    LittleEndian::write_u32(&mut buf[at..at + 4], value);
}

/// Writes the number into the eight bytes at `at`, the lowest byte first, and no other byte.
pub fn put_u64_le(buf: &mut [u8], at: usize, value: u64)
    requires { at + 8 ≤ length buf.old }
    ensures { buf.new ≡ take at buf.old ++ (to_le_bytes w64 value ++ drop (at + 8) buf.old) }
{
    LittleEndian::write_u64(&mut buf[at..at + 8], value);
}
