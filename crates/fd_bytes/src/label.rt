//! Texts in fields of a fixed size, as the headers of dumps hold them.

ghost use Rattle.std.specs.Prelude.{◌≡◌, ◌<◌, ◌≤◌, length};
ghost use Rattle.fd_bytes.specs.Label.{cut_text, cut_version_text, text_of};

use arrayvec::ArrayVec;
use std::marker::Model;

/// A text for a field of N bytes: at most N bytes, none of them zero. Contracts see it as the list
/// of its bytes.
#[derive(Clone, Debug, PartialEq, Eq, Drop)]
pub struct Label<const N: usize> {
    bytes: ArrayVec<u8, N>,
}

impl<const N: usize> Model for Label<N> {
    ghost use Rattle.std.specs.Prelude.{◌≡◌, ℕ, List};
    ghost use Rattle.fd_bytes.specs.Label.{IsText};

    ghost Value = { List ℕ };

    ghost view = { λ label. label.bytes.items };

    ghost invariant = { λ label. IsText label.bytes.items };

    ghost inverse = { λ bytes. record { bytes = record { items = bytes } } };
}

impl<const N: usize> Label<N> {
    /// The bytes before the first zero byte, cut so that the field ends with a zero byte: at most
    /// N - 1 of them. So strlcpy(3) fills a field.
    pub fn cut(bytes: &[u8]) -> Label<N>
        requires { 0 < N }
        ensures { result ≡ cut_text N bytes.now }
    {
        let text = text_in(&bytes[..(N - 1).min(bytes.len())]);
        let mut label = ArrayVec::new();
        let _fits = label.try_extend_from_slice(text);
        Label { bytes: label }
    }

    /// The same for the version string: where bytes were cut off for want of room, the last byte
    /// that is left is a newline, so that the string still ends its line.
    pub fn cut_version(bytes: &[u8]) -> Label<N>
        requires { 2 ≤ N }
        ensures { result ≡ cut_version_text N bytes.now }
    {
        let text = text_in(&bytes[..N.min(bytes.len())]);
        let mut label = ArrayVec::new();
        if text.len() < N {
            let _fits = label.try_extend_from_slice(text);
            return Label { bytes: label };
        }
        let _cut = label.try_extend_from_slice(&text[..N - 2]);
        label.push(b'\n');
        Label { bytes: label }
    }

    /// The bytes of a field before its first zero byte, or all N where none is zero.
    pub fn read(field: &[u8; N]) -> Label<N>
        ensures { result ≡ text_of field.now }
    {
        let mut label = ArrayVec::new();
        let _fits = label.try_extend_from_slice(text_in(field));
        Label { bytes: label }
    }

    /// The bytes of the text.
    pub fn bytes(&self) -> &[u8]
        ensures bytes { result.now ≡ self.now }
        ensures text { text_of self.now ≡ self.now }
        ensures size { length self.now ≤ N }
    {
        self.bytes.as_slice()
    }
}

// The bytes before the first zero byte.
fn text_in(bytes: &[u8]) -> &[u8]
    ensures { result.now ≡ text_of bytes.now }
{
    for (i, byte) in bytes.iter().enumerate() {
        if *byte == 0 {
            return &bytes[..i];
        }
    }
    bytes
}
