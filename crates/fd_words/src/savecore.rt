//! The forms of `savecore`.

ghost use Rattle.std.specs.Prelude.{◌≡◌};
ghost use Rattle.std.specs.Option.{option_map};
ghost use Rattle.fd_bytes.specs.Number.{number_of};
ghost use Rattle.fd_words.specs.Command.{HasGoodNames};
ghost use Rattle.fd_words.specs.Savecore.{max_of, most_of, savecore_of};

use crate::command::Command;
use crate::given::Given;
use fd_bytes::read_number;
use fd_save::Options;

/// The most numbers that saved dumps use.
const MOST_NUMBERS: u64 = 65536;

// A maximum.
fn read_most(text: &str) -> Option<Option<u32>>
    ensures { result ≡ most_of (number_of text.now) }
{
    match read_number(text.as_bytes()) {
        Ok(number) if 1 <= number && number <= MOST_NUMBERS => Some(Some(number as u32)),
        _ => None,
    }
}

// The maximum that the value of `-m` spells, or none without it.
fn read_max(most: Option<&str>) -> Option<Option<u32>>
    ensures { result ≡ max_of (option_map (λ s. s.now) most.entry) }
{
    match most {
        Some(text) => read_most(text),
        None => Some(None),
    }
}

/// `savecore` with these options, of which `most` is the value of `-m`.
pub(crate) fn savecore(given: Given, most: Option<&str>) -> Option<Command>
    ensures value { result ≡ savecore_of given (option_map (λ s. s.now) most.entry) }
    ensures names { HasGoodNames result }
{
    let Given { force, keep, .. } = given;
    if given.asks_to_judge() {
        return Some(Command::Judge { force });
    }
    if given.asks_to_clear() {
        return Some(Command::Clear { force });
    }
    if !given.asks_to_save() {
        return None;
    }
    let max = read_max(most)?;
    Some(Command::Save {
        options: Options { force, max },
        keep,
    })
}
