//! The text of the file `bounds`: the number that the next dump is saved under.

ghost use Rattle.std.specs.Prelude.{◌≡◌, ◌≤◌};
ghost use Rattle.std.specs.Char.{is_digit};
ghost use Rattle.std.specs.List.{list_all};
ghost use Rattle.fd_bytes.specs.Number.{numeral};
ghost use Rattle.fd_info.specs.Bounds.{bounds_text, bounds_value, without_newline};

use arrayvec::ArrayVec;
use fd_bytes::read_number;
use itoa::Buffer;

/// The number in decimal digits, and a newline.
pub fn print_bounds(number: u32) -> ArrayVec<u8, 16>
    ensures { result.items ≡ bounds_text number }
{
    let mut text = ArrayVec::new();
    let _fits = text.try_extend_from_slice(Buffer::new().format(number).as_bytes());
    text.push(b'\n');
    text
}

/// The number that one to five decimal digits spell, with or without a newline behind them, where it is at most 65535;
/// 0 for every other text.
pub fn read_bounds(text: &[u8]) -> u32
    ensures value { result ≡ bounds_value text.now }
    ensures small { result ≤ 65535 }
{
    match read_digits(without_newline(text)) {
        Some(number) if number <= 65535 => number as u32,
        _ => 0,
    }
}

fn without_newline(text: &[u8]) -> &[u8]
    ensures { result.now ≡ without_newline text.now }
{
    text.strip_suffix(b"\n").unwrap_or(text)
}

// The number of one to five decimal digits.
#[tactic(auto, using(crate::proofs::Numbers::five_digits))]
fn read_digits(digits: &[u8]) -> Option<u64>
    ensures { result ≡ numeral 10 5 digits.now }
{
    if digits.len() > 5 {
        return None;
    }
    if !are_digits(digits) {
        return None;
    }
    match read_number(digits) {
        Ok(number) => Some(number),
        Err(_) => None,
    }
}

fn are_digits(text: &[u8]) -> bool
    ensures { result ≡ list_all (λ c. is_digit c 10) text.now }
{
    text.iter().all(|byte| (*byte as char).is_digit(10))
}
