//! The lines of a text, of which each has a key and a value. A reader takes them in their order; where the text isn't made
//! of such lines, what it gives means nothing.

ghost use Rattle.std.specs.Prelude.{◌≡◌, ◌<◌, ◌^◌, ◌/◌, ◌%◌, ◌==◌, ℕ, List, [], ◌++◌, IfSome, false, length, position};
ghost use Rattle.std.specs.Fmt.{decimal, digit_glyph};
ghost use Rattle.fd_bytes.specs.Printed.{hex};
ghost use Rattle.fd_info.specs.Info.{IsLabel, escaped, escaped_byte, line, word_digits};
ghost use Rattle.fd_info.specs.Lines.{IsOneLine};

use fd_bytes::{Label, read_number};

/// The lines that are still to come.
#[derive(Drop)]
pub(crate) struct Lines<'a> {
    rest: &'a [u8],
}

impl<'a> Lines<'a> {
    pub(crate) fn new(text: &'a [u8]) -> Lines<'a>
        ensures { result.rest.now ≡ text.now }
    {
        Lines { rest: text }
    }

    /// The value of the next line, which has this key.
    pub(crate) fn value(&mut self, key: &[u8]) -> &'a [u8]
        ensures value { (value rest : List ℕ) → IsOneLine value → self.old.rest.now ≡ line key.now value rest → result.now ≡ value }
        ensures rest { (value rest : List ℕ) → IsOneLine value → self.old.rest.now ≡ line key.now value rest → self.new.rest.now ≡ rest }
    {
        let line = behind(self.rest, key);
        match line_end(line) {
            Some(end) => {
                self.rest = &line[end + 1..];
                &line[..end]
            }
            None => {
                self.rest = &[];
                line
            }
        }
    }

    /// The text that the next line's value spells.
    pub(crate) fn text<const N: usize>(&mut self, key: &[u8]) -> Label<N>
        ensures text { (text rest : List ℕ) → IsLabel N text → self.old.rest.now ≡ line key.now (escaped text) rest → result ≡ text }
        ensures rest { (text rest : List ℕ) → IsLabel N text → self.old.rest.now ≡ line key.now (escaped text) rest → self.new.rest.now ≡ rest }
    {
        unescaped(self.value(key))
    }

    /// The number that the next line's value spells in decimal digits.
    pub(crate) fn number(&mut self, key: &[u8]) -> u64
        ensures number { (n : ℕ) (rest : List ℕ) → n < 2 ^ 64 → self.old.rest.now ≡ line key.now (decimal n) rest → result ≡ n }
        ensures rest { (n : ℕ) (rest : List ℕ) → n < 2 ^ 64 → self.old.rest.now ≡ line key.now (decimal n) rest → self.new.rest.now ≡ rest }
    {
        read_number(self.value(key)).unwrap_or(0)
    }

    /// The same of a number below 2^32.
    pub(crate) fn small_number(&mut self, key: &[u8]) -> u32
        ensures number { (n : ℕ) (rest : List ℕ) → n < 2 ^ 32 → self.old.rest.now ≡ line key.now (decimal n) rest → result ≡ n }
        ensures rest { (n : ℕ) (rest : List ℕ) → n < 2 ^ 32 → self.old.rest.now ≡ line key.now (decimal n) rest → self.new.rest.now ≡ rest }
    {
        u32::try_from(self.number(key)).unwrap_or(0)
    }

    /// The word whose bytes the next line's value spells in hexadecimal digits.
    pub(crate) fn word(&mut self, key: &[u8]) -> u32
        ensures word { (word : ℕ) (rest : List ℕ) → word < 2 ^ 32 → self.old.rest.now ≡ line key.now (word_digits word) rest → result ≡ word }
        ensures rest { (word : ℕ) (rest : List ℕ) → word < 2 ^ 32 → self.old.rest.now ≡ line key.now (word_digits word) rest → self.new.rest.now ≡ rest }
    {
        word_of(self.value(key))
    }
}

// The text behind a key.
fn behind<'a>(text: &'a [u8], key: &[u8]) -> &'a [u8]
    ensures { (rest : List ℕ) → text.now ≡ key.now ++ rest → result.now ≡ rest }
{
    if key.len() <= text.len() {
        &text[key.len()..]
    } else {
        text
    }
}

// Where a line ends.
fn line_end(text: &[u8]) -> Option<usize>
    ensures place { result ≡ position (λ byte. byte == 10) text.now }
    ensures inside { IfSome result (λ end. end < length text.now) }
{
    text.iter().position(|byte| *byte == b'\n')
}

fn word_of(digits: &[u8]) -> u32
    ensures { (word : ℕ) → word < 2 ^ 32 → digits.now ≡ word_digits word → result ≡ word }
{
    match digits {
        [a, b, c, d, e, f, g, h] => u32::from_be_bytes([
            byte_of(*a, *b),
            byte_of(*c, *d),
            byte_of(*e, *f),
            byte_of(*g, *h),
        ]),
        _ => 0,
    }
}

// The text whose bytes are spelled so.
fn unescaped<const N: usize>(value: &[u8]) -> Label<N>
    ensures { (text : List ℕ) → IsLabel N text → value.now ≡ escaped text → result ≡ text }
{
    let mut field = [0; N];
    let mut rest = value;
    for i in 0..N {
        let (byte, after) = first_byte(rest);
        field[i] = byte;
        rest = after;
    }
    Label::read(&field)
}

// The byte that a spelling begins with, and what is behind it; 0 at its end.
fn first_byte(spelling: &[u8]) -> (u8, &[u8])
    ensures byte { (byte : ℕ) (rest : List ℕ) → byte < 256 → spelling.now ≡ escaped_byte byte ++ rest → result.0 ≡ byte }
    ensures rest { (byte : ℕ) (rest : List ℕ) → byte < 256 → spelling.now ≡ escaped_byte byte ++ rest → result.1.now ≡ rest }
    ensures end { spelling.now ≡ [] → result.0 ≡ 0 }
    ensures still { spelling.now ≡ [] → result.1.now ≡ [] }
{
    if spelling.len() >= 4 && spelling[0] == b'\\' {
        return (byte_of(spelling[2], spelling[3]), &spelling[4..]);
    }
    match spelling {
        [byte, rest @ ..] => (*byte, rest),
        [] => (0, spelling),
    }
}

// The byte that two hexadecimal digits spell.
fn byte_of(high: u8, low: u8) -> u8
    ensures { (byte : ℕ) → byte < 256 → high ≡ digit_glyph false (byte / 16) → low ≡ digit_glyph false (byte % 16) → result ≡ byte }
{
    digit_of(high) * 16 + digit_of(low)
}

fn digit_of(glyph: u8) -> u8
    ensures digit { (digit : ℕ) → digit < 16 → glyph ≡ digit_glyph false digit → result ≡ digit }
    ensures small { result < 16 }
{
    (glyph as char).to_digit(16).unwrap_or(0) as u8
}
