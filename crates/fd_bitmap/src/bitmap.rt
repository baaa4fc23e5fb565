//! A set of bits.

ghost use Rattle.std.specs.Prelude.{◌≡◌, ◌+◌, ◌-◌, ◌*◌, ◌<◌, ◌≤◌, ◌^◌, List, false, true, length, take, replicate, slice_get, slice_set, unwrap_or, IfOk};
ghost use Rattle.fd_bitmap.specs.Bits.{bits_of, byte_at, word_at, with_run, set_count, low_bits};

use crate::words::word_in;
use std::alloc::{AllocError, Global};
use std::marker::Model;

/// A list of bits, kept in bytes: bit i is bit i mod 8 of byte i / 8.
#[derive(Drop)]
pub struct Bitmap {
    bytes: Vec<u8>,
    bits: u64,
}

impl Model for Bitmap {
    ghost use Rattle.std.specs.Prelude.{Bool, List, take};
    ghost use Rattle.fd_bitmap.specs.Bits.{bits_of, IsKept};

    ghost Value = { List Bool };

    ghost view = { λ map. take map.bits (bits_of map.bytes.items) };

    ghost invariant = { λ map. IsKept map.bytes.items map.bits };
}

impl Bitmap {
    /// So many bits, all clear.
    pub fn new(alloc: Global, bits: u64) -> Result<Bitmap, AllocError>
        ensures { IfOk result (λ map. map ≡ replicate bits false) }
    {
        let bytes = vec![in alloc; 0u8; 8 * bits.div_ceil(64) as usize]?;
        Ok(Bitmap { bytes, bits })
    }

    /// Eight bits for each byte, its lowest bit first.
    pub fn from_bytes(alloc: Global, bytes: &[u8]) -> Result<Bitmap, AllocError>
        ensures { IfOk result (λ map. map ≡ bits_of bytes.now) }
    {
        Bitmap::from_vec(bytes.to_vec(alloc)?)
    }

    /// Eight bits for each byte, its lowest bit first. Where the bytes are no whole words, memory may be
    /// taken for up to seven more. The bytes aren't copied else.
    pub fn from_vec(mut bytes: Vec<u8>) -> Result<Bitmap, AllocError>
        ensures { IfOk result (λ map. map ≡ bits_of bytes.items) }
    {
        let len = bytes.len();
        let Some(bits) = (len as u64).checked_mul(8) else {
            return Err(AllocError);
        };
        let more = (8 - len % 8) % 8;
        bytes.extend_from_slice(&[0; 7][..more])?;
        Ok(Bitmap { bytes, bits })
    }

    /// Sets the bit, and changes no other.
    pub fn set(&mut self, bit: u64)
        requires { bit < length self.old }
        ensures { self.new ≡ slice_set self.old bit true }
    {
        self.bytes[(bit / 8) as usize] |= 1 << (bit % 8);
    }

    /// Sets so many bits, from this one on, and changes no other. Whole bytes are set at once.
    pub fn set_range(&mut self, from: u64, count: u64)
        requires { from + count ≤ length self.old }
        ensures bits { self.new ≡ with_run self.old from count }
        ensures len { length self.new ≡ length self.old }
    {
        let end = self.bits.min(from.saturating_add(count));
        set_run(self.bytes.as_mut_slice(), from, end);
    }

    /// Clears every bit.
    pub fn clear_all(&mut self)
        ensures { self.new ≡ replicate (length self.old) false }
    {
        self.bytes.fill(0);
    }

    /// Whether the bit is set. False past the end.
    pub fn has(&self, bit: u64) -> bool
        ensures { result ≡ unwrap_or (slice_get self.now bit) false }
    {
        bit < self.bits && self.bytes[(bit / 8) as usize] >> (bit % 8) & 1 == 1
    }

    /// How many bits are set.
    pub fn count(&self) -> u64
        ensures { result ≡ set_count self.now }
    {
        let mut count = 0;
        for at in 0..self.len().div_ceil(64) {
            count += u64::from(self.word_at(at).count_ones());
        }
        count
    }

    /// The word at this place, its lowest bit first. Zero past the end.
    pub(crate) fn word_at(&self, at: u64) -> u64
        ensures { result ≡ word_at self.now at }
    {
        word_in(self.bytes.as_slice(), at)
    }

    /// How many bits there are.
    pub(crate) fn len(&self) -> u64
        ensures { result ≡ length self.now }
    {
        self.bits
    }

    /// The byte at this place, its lowest bit first. Zero past the end.
    pub fn byte(&self, at: u64) -> u8
        ensures { result ≡ byte_at self.now at }
    {
        match self.bytes.get(at as usize) {
            Some(byte) => *byte,
            None => 0,
        }
    }
}

/// Sets the bits from one place to another: whole bytes at once, and up to seven bits on each side.
fn set_run(bytes: &mut [u8], from: u64, end: u64)
    requires order { from ≤ end }
    requires within { end ≤ 8 * length bytes.old }
    ensures bits { bits_of bytes.new ≡ with_run (bits_of bytes.old) from (end - from) }
    ensures len { length bytes.new ≡ length bytes.old }
{
    let first = from.div_ceil(8);
    let last = end / 8;
    if last < first {
        set_each(bytes, from, end);
        return;
    }
    set_each(bytes, from, 8 * first);
    bytes[first as usize..last as usize].fill(0xff);
    set_each(bytes, 8 * last, end);
}

/// Sets the bits from one place to another, bit by bit.
fn set_each(bytes: &mut [u8], from: u64, end: u64)
    requires order { from ≤ end }
    requires within { end ≤ 8 * length bytes.old }
    ensures bits { bits_of bytes.new ≡ with_run (bits_of bytes.old) from (end - from) }
    ensures len { length bytes.new ≡ length bytes.old }
{
    for bit in from..end {
        bytes[(bit / 8) as usize] |= 1 << (bit % 8);
    }
}
