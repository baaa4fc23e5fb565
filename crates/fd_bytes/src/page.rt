//! A page that is filled from its front, as the header pages of the formats are.

ghost use Rattle.std.specs.Prelude.{◌≡◌, ◌+◌, ◌^◌, ◌<◌, ◌≤◌, [], ◌∷◌, ◌++◌, length, replicate};
ghost use Rattle.std.specs.Int.{w32, w64, to_be_bytes, to_le_bytes};
ghost use Rattle.fd_bytes.specs.Label.{IsByteText};
ghost use Rattle.fd_bytes.specs.Page.{filled};

use crate::label::Label;
use std::marker::Model;

/// A page of N bytes that is filled from its front. Contracts see the list of the bytes that were put into it; what is
/// behind them is zero.
#[derive(Drop)]
pub struct Page<const N: usize> {
    bytes: [u8; N],
    at: usize,
}

impl<const N: usize> Model for Page<N> {
    ghost use Rattle.std.specs.Prelude.{◌≡◌, ◌-◌, ◌≤◌, ℕ, List, take, drop, replicate};

    ghost Value = { List ℕ };

    ghost view = { λ page. take page.at page.bytes };

    ghost invariant = { λ page. (page.at ≤ N) × (drop page.at page.bytes ≡ replicate (N - page.at) 0) };
}

impl<const N: usize> Page<N> {
    /// An empty page.
    pub fn new() -> Page<N>
        ensures { result ≡ [] }
    {
        Page {
            bytes: [0; N],
            at: 0,
        }
    }

    /// Appends these bytes.
    pub fn put(&mut self, bytes: &[u8])
        requires { length self.old + length bytes.now ≤ N }
        ensures bytes { self.new ≡ self.old ++ bytes.now }
        ensures len { length self.new ≡ length self.old + length bytes.now }
    {
        let end = self.at + bytes.len();
        let page = &mut self.bytes[..];
        page[self.at..end].copy_from_slice(bytes);
        self.at = end;
    }

    /// Appends a number of one byte.
    pub fn put_u8(&mut self, value: u8)
        requires { length self.old + 1 ≤ N }
        ensures bytes { self.new ≡ self.old ++ value ∷ [] }
        ensures len { length self.new ≡ length self.old + 1 }
        ensures fits { value < 2 ^ 8 }
    {
        self.put(&[value]);
    }

    /// Appends a number, its highest byte first.
    pub fn put_u32_be(&mut self, value: u32)
        requires { length self.old + 4 ≤ N }
        ensures bytes { self.new ≡ self.old ++ to_be_bytes w32 value }
        ensures len { length self.new ≡ length self.old + 4 }
        ensures fits { value < 2 ^ 32 }
    {
        self.put(&value.to_be_bytes());
    }

    /// Appends a number, its highest byte first.
    pub fn put_u64_be(&mut self, value: u64)
        requires { length self.old + 8 ≤ N }
        ensures bytes { self.new ≡ self.old ++ to_be_bytes w64 value }
        ensures len { length self.new ≡ length self.old + 8 }
        ensures fits { value < 2 ^ 64 }
    {
        self.put(&value.to_be_bytes());
    }

    /// Appends a number, its lowest byte first.
    pub fn put_u32_le(&mut self, value: u32)
        requires { length self.old + 4 ≤ N }
        ensures bytes { self.new ≡ self.old ++ to_le_bytes w32 value }
        ensures len { length self.new ≡ length self.old + 4 }
        ensures fits { value < 2 ^ 32 }
    {
        self.put(&value.to_le_bytes());
    }

    /// Appends a number, its lowest byte first.
    pub fn put_u64_le(&mut self, value: u64)
        requires { length self.old + 8 ≤ N }
        ensures bytes { self.new ≡ self.old ++ to_le_bytes w64 value }
        ensures len { length self.new ≡ length self.old + 8 }
        ensures fits { value < 2 ^ 64 }
    {
        self.put(&value.to_le_bytes());
    }

    /// Appends a text, and zeros to the end of its field of M bytes.
    pub fn put_label<const M: usize>(&mut self, label: &Label<M>)
        requires shorter { length label.now < M }
        requires room { length self.old + M ≤ N }
        ensures bytes { self.new ≡ self.old ++ filled M label.now }
        ensures len { length self.new ≡ length self.old + M }
        ensures text { IsByteText label.now }
    {
        let text = label.bytes();
        self.put(text);
        self.put_zeros(M - text.len());
    }

    fn put_zeros(&mut self, count: usize)
        requires { length self.old + count ≤ N }
        ensures bytes { self.new ≡ self.old ++ replicate count 0 }
        ensures len { length self.new ≡ length self.old + count }
    {
        self.at += count;
    }

    /// The bytes that were put.
    pub fn filled(&self) -> &[u8]
        ensures { result.now ≡ self.now }
    {
        &self.bytes[..self.at]
    }

    /// The whole page.
    pub fn bytes(&self) -> &[u8; N]
        ensures bytes { result.now ≡ filled N self.now }
        ensures full { length self.now ≡ N → result.now ≡ self.now }
    {
        &self.bytes
    }
}
