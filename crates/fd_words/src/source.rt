//! Where a machine image comes from, and the word that says so.

ghost use Rattle.std.specs.Prelude.{◌≡◌, IfOk, IfSome};
ghost use Rattle.fd_words.specs.Source.{arch_of, HasGoodName, made_of, source_of};

use crate::word::Word;
use fd_bytes::{Arch, read_number};
use fd_site::good_name;
use std::alloc::{AllocError, Global};

/// Where a machine image comes from.
#[derive(Drop)]
pub enum Source {
    /// The file of this name.
    File(Word),
    /// It is made: the image of a number, for an architecture.
    Made { arch: Arch, number: u64 },
}

/// The architecture that a word names: `amd64`, `arm64` or `riscv`.
pub(crate) fn read_arch(word: &[u8]) -> Option<Arch>
    ensures { result ≡ arch_of word.now }
{
    match word {
        b"amd64" => Some(Arch::Amd64),
        b"arm64" => Some(Arch::Arm64),
        b"riscv" => Some(Arch::Riscv),
        _ => None,
    }
}

// `@ARCH:NUMBER`. Each architecture's word has five bytes.
fn read_made(word: &[u8]) -> Option<Source>
    ensures value { result ≡ made_of word.now }
    ensures name { IfSome result HasGoodName }
{
    if word.len() < 7 || word[0] != b'@' || word[6] != b':' {
        return None;
    }
    let arch = read_arch(&word[1..6])?;
    let number = read_number(&word[7..]).ok()?;
    Some(Source::Made { arch, number })
}

/// The image that a word names: a file's name, or `@ARCH:NUMBER` for the image that is made of a number.
pub(crate) fn read_source(alloc: Global, word: &str) -> Result<Option<Source>, AllocError>
    ensures value { IfOk result (λ source. source ≡ source_of word.now) }
    ensures name { IfOk result (λ source. IfSome source HasGoodName) }
{
    if !good_name(word) {
        return Ok(read_made(word.as_bytes()));
    }
    let name = Word::of(alloc, word)?;
    Ok(Some(Source::File(name)))
}
