//! Numbers as they are spelled on a command line.

ghost use Rattle.std.specs.Prelude.{◌≡◌, ◌≤◌, IfOk, OnErr};
ghost use Rattle.fd_bytes.specs.Number.{number_of, numeral};

/// The text is no number, or the number is 2^64 or more.
#[derive(Clone, Copy, Debug, PartialEq, Eq)]
pub struct BadNumber;

/// The number that a text spells: 1 to 20 decimal digits, or `0x` and 1 to 16 hexadecimal digits
/// of either case. Leading zeros count as digits, and there is no sign.
#[tactic(auto, unfolding(crate::specs::Number::number_of))]
pub fn read_number(text: &[u8]) -> Result<u64, BadNumber>
    ensures number { IfOk result (λ value. number_of text.now ≡ Some value) }
    ensures bad { OnErr result (number_of text.now ≡ None) }
{
    match text.strip_prefix(b"0x") {
        Some(digits) => read_numeral(digits, 16, 16).ok_or(BadNumber),
        None => read_numeral(text, 10, 20).ok_or(BadNumber),
    }
}

// The number that 1 to `most` digits spell, if it is below 2^64.
#[tactic(auto, using(crate::proofs::Numerals::numeral_steps))]
fn read_numeral(digits: &[u8], radix: u32, most: usize) -> Option<u64>
    requires low { 2 ≤ radix }
    requires high { radix ≤ 36 }
    ensures { result ≡ numeral radix most digits.now }
{
    if digits.is_empty() || most < digits.len() {
        return None;
    }
    let mut value: u64 = 0;
    for byte in digits {
        let digit = (*byte as char).to_digit(radix)?;
        value = value
            .checked_mul(u64::from(radix))?
            .checked_add(u64::from(digit))?;
    }
    Some(value)
}
