//! The words that the system hands the program, as what they name.

ghost use Rattle.std.specs.Prelude.{◌≡◌, map, IfOk};
ghost use Rattle.std.specs.Option.{option_map};
ghost use Rattle.std.specs.String.{string_bytes};
ghost use Rattle.fd_cli.specs.Invocation.{block_of, invocation_of, invoked};

use fd_bytes::read_number;
use fd_words::Word;
use std::alloc::{AllocError, Global};

/// What the program's words name: the directory of the files, the size of a block in bytes, and the command's words.
#[derive(Drop)]
pub struct Invocation {
    pub directory: String,
    pub block: u32,
    pub words: Vec<Word>,
}

// The size of a block that a word spells.
fn read_block(word: &str) -> Option<u32>
    ensures { result ≡ block_of word.now }
{
    let number = read_number(word.as_bytes()).ok()?;
    u32::try_from(number).ok()
}

/// What all words name that the system hands over, the program's name first, then DIRECTORY, BLOCK and the command's
/// words. There is nothing named where one of the first three is missing, or BLOCK is no number below 2^32.
pub fn read_invocation(alloc: Global, words: Vec<String>) -> Result<Option<Invocation>, AllocError>
    ensures { IfOk result (λ invocation. option_map invoked invocation ≡ invocation_of (map string_bytes words.items)) }
{
    let mut words = words.into_iter();
    let _program = words.next();
    let directory = match words.next() {
        Some(directory) => directory,
        None => return Ok(None),
    };
    let block = match words.next() {
        Some(block) => block,
        None => return Ok(None),
    };
    let block = match read_block(block.as_str()) {
        Some(block) => block,
        None => return Ok(None),
    };
    let mut named = Vec::new(alloc);
    for word in words {
        named.push(Word::new(word))?;
    }
    Ok(Some(Invocation {
        directory,
        block,
        words: named,
    }))
}
