//! What words ask for.

ghost use Rattle.std.specs.Prelude.{◌≡◌, IfOk, Some, map};
ghost use Rattle.std.specs.Option.{option_map};
ghost use Rattle.fd_words.specs.Command.{command_of, command_with, HasGoodNames};

use crate::given::Given;
use crate::line::Line;
use crate::savecore::savecore;
use crate::source::Source;
use crate::values::{command_of_values, dump_of};
use crate::word::Word;
use fd_bytes::Arch;
use fd_save::Options;
use std::alloc::{AllocError, Global};

/// What the words ask for.
#[derive(Drop)]
pub enum Command {
    /// `image ARCH NUMBER FILE`: write the image that is made of a number to this file.
    Image {
        arch: Arch,
        number: u64,
        file: Word,
    },
    /// `savecore -C`: is there a dump on the partition?
    Judge {
        force: bool,
    },
    /// `savecore -c`: mark the partition's dump as saved.
    Clear {
        force: bool,
    },
    /// `savecore`: save the partition's dump, and mark it unless it is kept.
    Save {
        options: Options,
        keep: bool,
    },
    /// `dump [-i] IMAGE`: write the dump of this image, with `-i` over a dump that is marked as cleared first.
    Dump {
        mark: bool,
        image: Source,
    },
    /// `netdump IMAGE ADDRESS`: send the dump of this image to the server of this IPv4 address.
    Netdump {
        image: Source,
        server: u32,
    },
    /// `netdumpd DUMPS`: take so many dumps from clients.
    Netdumpd {
        dumps: u16,
    },
    /// `read FILE ADDRESS LENGTH`: print `count` bytes of a vmcore from a kernel address on.
    Read {
        file: Word,
        address: u64,
        count: u32,
    },
    /// `pages FILE`: print the dumped pages of a vmcore.
    Pages {
        file: Word,
    },
    /// `drill IMAGE STOP ADDRESS LENGTH`: write the first `stop` sectors of this image's dump, save what then stands there, and
    /// print `count` bytes of the saved file from a kernel address on.
    Drill {
        image: Source,
        stop: u64,
        address: u64,
        count: u32,
    },
}

// The command of this name with these values and options, of which `most` is the value of `-m`.
fn command_with(
    alloc: Global,
    name: &str,
    values: &[&str],
    given: Given,
    most: Option<&str>,
) -> Result<Option<Command>, AllocError>
    ensures value { IfOk result (λ command. command ≡ command_with name.now (map (λ s. s.now) values.now) given (option_map (λ s. s.now) most.entry)) }
    ensures names { IfOk result HasGoodNames }
{
    if name == "savecore" {
        return match values {
            [] => Ok(savecore(given, most)),
            _ => Ok(None),
        };
    }
    if name == "dump" {
        if !given.asks_to_dump() {
            return Ok(None);
        }
        return dump_of(alloc, values, given.mark);
    }
    if !given.asks_nothing() {
        return Ok(None);
    }
    command_of_values(alloc, name, values)
}

/// The command that the words are, if they are one: `clap` takes the words behind the first, which is the command's name,
/// and a form of that command fits what they mean.
pub fn read_command(alloc: Global, words: &[Word]) -> Result<Option<Command>, AllocError>
    ensures value { IfOk result (λ command. command ≡ command_of words.now) }
    ensures names { IfOk result HasGoodNames }
{
    let line = match Line::read(alloc, words)? {
        Some(line) => line,
        None => return Ok(None),
    };
    let name = match words {
        [name, ..] => name.as_str(),
        [] => return Ok(None),
    };
    command_with(alloc, name, line.values(), Given::of(&line), line.most())
}
