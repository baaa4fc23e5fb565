//! The measures, and the words that name them.
use crate::failure::Failure;
use fd_bytes::read_number;
use std::alloc::Global;

/// What is timed.
#[derive(Drop)]
pub enum Measure {
    /// Walks of the leaves of so many gigabytes.
    Leaves {
        number: u64,
        gigabytes: u64,
        rounds: u64,
    },
    /// Reads of the eight bytes at one address of a directory's file.
    Words {
        directory: String,
        file: String,
        count: u64,
        va: u64,
    },
}

/// The measure that the program's words name, behind the program's own name.
pub fn read_measure(alloc: Global, words: &[String]) -> Result<Measure, Failure> {
    match words {
        [_, kind, number, gigabytes, rounds] if kind.as_str() == "leaves" => Ok(Measure::Leaves {
            number: read_word(number)?,
            gigabytes: read_word(gigabytes)?,
            rounds: read_word(rounds)?,
        }),
        [_, kind, directory, file, count, va] if kind.as_str() == "words" => Ok(Measure::Words {
            directory: String::from_str(alloc, directory.as_str())?,
            file: String::from_str(alloc, file.as_str())?,
            count: read_word(count)?,
            va: read_word(va)?,
        }),
        _ => Err(Failure::NotWords),
    }
}

fn read_word(word: &String) -> Result<u64, Failure> {
    read_number(word.as_bytes()).map_err(|_| Failure::NotWords)
}
