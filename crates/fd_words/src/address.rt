//! The word for an IPv4 address.

ghost use Rattle.std.specs.Prelude.{◌≡◌};
ghost use Rattle.std.specs.List.{after_first, before_first, list_all};
ghost use Rattle.fd_words.specs.Address.{address_of, is_decimal, is_dot, joined, octet_of};

use fd_bytes::read_number;

fn is_decimal(byte: u8) -> bool
    ensures { result ≡ is_decimal byte }
{
    matches!(byte, b'0'..=b'9')
}

fn are_decimal(bytes: &[u8]) -> bool
    ensures { result ≡ list_all is_decimal bytes.now }
{
    bytes.iter().all(|byte| is_decimal(*byte))
}

// A number of one to three decimal digits, at most 255.
fn read_octet(text: &[u8]) -> Option<u8>
    ensures { result ≡ octet_of text.now }
{
    if text.len() > 3 || !are_decimal(text) {
        return None;
    }
    match read_number(text) {
        Ok(number) if number <= 255 => Some(number as u8),
        _ => None,
    }
}

// An address by its four numbers, if they are there.
fn join(first: Option<u8>, second: Option<u8>, third: Option<u8>, fourth: Option<u8>) -> Option<u32>
    ensures { result ≡ joined first second third fourth }
{
    let high = u32::from(first?) * 0x100_0000 + u32::from(second?) * 0x1_0000;
    Some(high + u32::from(third?) * 0x100 + u32::from(fourth?))
}

// The text before the first dot, and the text behind it; all and nothing where there is no dot.
fn split_at_dot(text: &str) -> (&str, &str)
    ensures before { result.0.now ≡ before_first is_dot text.entry.now }
    ensures after { result.1.now ≡ after_first is_dot text.entry.now }
{
    match text.split_once('.') {
        Some(parts) => parts,
        None => (text, ""),
    }
}

/// The IPv4 address that a word spells: four decimal numbers of one to three digits, each at most 255, joined by dots. The
/// first is the highest byte.
pub(crate) fn read_address(word: &str) -> Option<u32>
    ensures { result ≡ address_of word.now }
{
    let (first, rest) = split_at_dot(word);
    let (second, rest) = split_at_dot(rest);
    let (third, fourth) = split_at_dot(rest);
    join(
        read_octet(first.as_bytes()),
        read_octet(second.as_bytes()),
        read_octet(third.as_bytes()),
        read_octet(fourth.as_bytes()),
    )
}
