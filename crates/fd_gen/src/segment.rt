//! Segments of pages whose words are computed where they stay.
ghost use Rattle.std.specs.Prelude.{◌≡◌, ℕ, ◌*◌, ◌^◌, ◌<◌, length, IfOk};
ghost use Rattle.fd_gen.specs.Spelled.{words_of, pages_of};

use crate::layout::ENTRIES;
use fd_bytes::put_u64_le;
use fd_image::Seg;
use fd_raw::Region;
use std::alloc::{AllocError, Global};

/// The words of pages.
pub trait Words {
    /// The word of a page, by the page's place among the pages and the word's among the 512 of its page.
    ghost word_at: { Self → ℕ → ℕ → ℕ };

    fn word(&self, page: u64, index: u64) -> u64
        requires page { page < 2 ^ 15 }
        requires index { index < 512 }
        ensures { result ≡ word_at self.now page index };
}

/// A segment of so many pages with these words, from a physical address on.
pub fn segment<W: Words>(
    alloc: Global,
    words: &W,
    start: u64,
    pages: u64,
) -> Result<Seg, AllocError>
    requires { pages < 2 ^ 15 }
    ensures first { IfOk result (λ seg. seg.start ≡ start) }
    ensures words { IfOk result (λ seg. seg.bytes ≡ pages_of (W.word_at words.now) pages) }
{
    let bytes = filled_pages(alloc, words, pages)?;
    Ok(Seg { start, bytes })
}

fn filled_pages<W: Words>(alloc: Global, words: &W, pages: u64) -> Result<Region, AllocError>
    requires { pages < 2 ^ 15 }
    ensures { IfOk result (λ region. region ≡ pages_of (W.word_at words.now) pages) }
{
    let mut region = Region::new(alloc, 4096 * pages as usize)?;
    for page in 0..pages {
        fill_page(words, page, region.view_mut(4096 * page as usize, 4096));
    }
    Ok(region)
}

// Writes the words of a page over its bytes.
fn fill_page<W: Words>(words: &W, page: u64, bytes: &mut [u8])
    requires number { page < 2 ^ 15 }
    requires whole { length bytes.old ≡ 4096 }
    ensures { bytes.new ≡ words_of (W.word_at words.now page) 512 }
{
    for index in 0..ENTRIES {
        put_u64_le(bytes, 8 * index as usize, words.word(page, index));
    }
}
