//! The valid image, with its words and pages.
ghost use Rattle.std.specs.Prelude.{◌≡◌, ◌≢◌, ◌⊎◌, ◌<◌, ◌≤◌, ◌+◌, ◌*◌, ◌%◌, ℕ, Some, None, IsTrue, IfSome, IfOk, IfErr, find, option_copied};
ghost use Rattle.fd_image.specs.Image.{broken_rule, levels_of, segment_out_of_order, is_whole_pages, IsTyped, IsValid};
ghost use Rattle.fd_image.specs.Physical.{has_address, page_in, page_of, pages_from, pages_in, segment_of, word_in};

use crate::memory::Memory;
use crate::parts::{Parts, Seg, Texts, Windows};
use crate::rules::{BadImage, broken_rule};
use crate::typed::is_typed;
use fd_bytes::Arch;
use std::marker::Model;

/// A valid machine image.
#[derive(Drop)]
pub struct Image {
    parts: Parts,
}

impl Model for Image {
    ghost use Rattle.fd_image.specs.Image.{MachineImage, IsValid};

    ghost Value = { MachineImage };

    ghost view = { λ image. image.parts };

    ghost invariant = { λ image. IsValid image.parts };
}

impl Image {
    /// The image of these parts, or the first of the fifteen rules that they break. A refusal drops the parts.
    pub fn new(parts: Parts) -> Result<Self, BadImage>
        ensures valid { IfOk result (λ image. image ≡ parts) }
        ensures kept { IfOk result (λ _. broken_rule parts ≡ None) }
        ensures broken { IfErr result (λ bad. broken_rule parts ≡ Some bad) }
        ensures typed { IsTyped parts }
    {
        is_typed(&parts);
        match broken_rule(&parts) {
            Some(bad) => Err(bad),
            None => Ok(Image { parts }),
        }
    }

    /// The architecture.
    pub fn arch(&self) -> Arch
        ensures value { result ≡ self.now.arch }
        ensures valid { IsValid self.now }
    {
        self.parts.arch
    }

    /// Whether the page tables are RISC-V's with four levels, Sv48.
    pub fn sv48(&self) -> bool
        ensures value { result ≡ self.now.sv48 }
        ensures valid { IsValid self.now }
    {
        self.parts.sv48
    }

    /// How many levels the page tables have: 4, but 3 in RISC-V's Sv39 (not in its Sv48).
    pub fn levels(&self) -> u32
        ensures value { result ≡ levels_of self.now }
        ensures few { (result ≡ 3) ⊎ (result ≡ 4) }
        ensures valid { IsValid self.now }
    {
        if self.parts.sv48 {
            4
        } else {
            self.parts.arch.profile().levels
        }
    }

    /// The segments of physical memory, in the order of their addresses.
    pub fn segs(&self) -> &[Seg]
        ensures value { result.now ≡ self.now.segs }
        ensures valid { IsValid self.now }
    {
        self.parts.segs.as_slice()
    }

    /// The ranges of available memory, in order: pairs of a first address and the address past the last.
    pub fn avail(&self) -> &[(u64, u64)]
        ensures value { result.now ≡ self.now.avail }
        ensures valid { IsValid self.now }
    {
        self.parts.avail.as_slice()
    }

    /// The addresses of the wanted pages, in order.
    pub fn wanted(&self) -> &[u64]
        ensures value { result.now ≡ self.now.wanted }
        ensures valid { IsValid self.now }
    {
        self.parts.wanted.as_slice()
    }

    /// The physical address of the top page table.
    pub fn root(&self) -> u64
        ensures value { result ≡ self.now.root }
        ensures valid { IsValid self.now }
    {
        self.parts.root
    }

    /// The kernel window and the direct map.
    pub fn windows(&self) -> Windows
        ensures value { result ≡ self.now.windows }
        ensures valid { IsValid self.now }
    {
        self.parts.windows
    }

    /// The texts and the time.
    pub fn texts(&self) -> &Texts
        ensures value { result.now ≡ self.now.texts }
        ensures valid { IsValid self.now }
    {
        &self.parts.texts
    }

    /// The 4096 bytes of the page of a physical address, or None where the address lies in no segment.
    #[tactic(auto, unfolding(crate::specs::Physical::page_of))]
    pub fn page(&self, pa: u64) -> Option<&[u8]>
        ensures { option_copied result ≡ page_of self.now pa }
    {
        match self.segment_of(pa, &mut 0) {
            Some(seg) => Some(page_in(seg, pa)),
            None => None,
        }
    }

    /// The bytes of at most `most` pages from the page of a physical address on, as far as its segment goes; none where
    /// the address lies in no segment.
    #[tactic(auto, unfolding(crate::specs::Physical::pages_from))]
    pub fn pages(&self, pa: u64, most: u64) -> &[u8]
        ensures { result.now ≡ pages_from self.now pa most }
    {
        match self.segment_of(pa, &mut 0) {
            Some(seg) => pages_in(seg, pa, most),
            None => &[],
        }
    }

    fn segment_of(&self, pa: u64, near: &mut usize) -> Option<&Seg>
        ensures value { option_copied result ≡ segment_of self.now pa }
        ensures within { IfSome result (λ seg. IsTrue (has_address pa seg.now)) }
        ensures whole { IfSome result (λ seg. IsTrue (is_whole_pages seg.now)) }
        ensures valid { IsValid self.now }
    {
        find_segment(self.segs(), pa, near)
    }
}

impl Memory for Image {
    ghost use Rattle.fd_image.specs.Physical.{word_of};

    ghost word_at = { word_of };

    fn alike(&self, pa: u64, most: u64, near: &mut usize) -> u64 {
        match self.segment_of(pa, near) {
            Some(seg) => words_alike(seg, pa, most),
            None => most,
        }
    }

    #[tactic(auto, unfolding(crate::specs::Physical::word_of))]
    fn word_near(&self, pa: u64, near: &mut usize) -> Option<u64> {
        if pa % 8 != 0 {
            return None;
        }
        match self.segment_of(pa, near) {
            Some(seg) => Some(word_in(seg, pa)),
            None => None,
        }
    }
}

// How many of the `most` words of a page from an address on, in a segment of whole pages, are like the first of them.
fn words_alike(seg: &Seg, pa: u64, most: u64) -> u64
    requires aligned { pa % 8 ≡ 0 }
    requires some { 0 < most }
    requires page { pa % 4096 + 8 * most ≤ 4096 }
    requires within { IsTrue (has_address pa seg.now) }
    requires whole { IsTrue (is_whole_pages seg.now) }
    ensures some { 0 < result }
    ensures most { result ≤ most }
    ensures alike { (k : ℕ) → k < result → word_in seg.now (pa + 8 * k) ≡ word_in seg.now pa }
    ensures other { result < most → word_in seg.now (pa + 8 * result) ≢ word_in seg.now pa }
{
    let first = word_in(seg, pa);
    for count in 1..most {
        if word_in(seg, pa + 8 * count) != first {
            return count;
        }
    }
    most
}

// The segment in which an address lies: the one of the index `near`, or else by binary search, which sets `near`.
#[inline(always)]
fn find_segment<'a>(segs: &'a [Seg], pa: u64, near: &mut usize) -> Option<&'a Seg>
    requires { segment_out_of_order segs.now ≡ None }
    ensures { option_copied result ≡ find (has_address pa) segs.now }
{
    match segs.get(*near) {
        Some(seg) if has_address(seg, pa) => Some(seg),
        _ => search_segment(segs, pa, near),
    }
}

// The same by binary search. `near` becomes the index of the last segment that begins at or before the address.
#[cold]
#[inline(never)]
fn search_segment<'a>(segs: &'a [Seg], pa: u64, near: &mut usize) -> Option<&'a Seg>
    requires { segment_out_of_order segs.now ≡ None }
    ensures { option_copied result ≡ find (has_address pa) segs.now }
{
    let count = segs.partition_point(|seg| seg.start <= pa);
    if count == 0 {
        return None;
    }
    *near = count - 1;
    let seg = &segs[count - 1];
    if has_address(seg, pa) {
        Some(seg)
    } else {
        None
    }
}

// Whether the segment has a byte at this address.
fn has_address(seg: &Seg, pa: u64) -> bool
    ensures { result ≡ has_address pa seg.now }
{
    seg.start <= pa && pa - seg.start < seg.bytes.len() as u64
}

// The page of an address of a segment of whole pages.
fn page_in(seg: &Seg, pa: u64) -> &[u8]
    requires within { IsTrue (has_address pa seg.now) }
    requires whole { IsTrue (is_whole_pages seg.now) }
    ensures { result.now ≡ page_in seg.now pa }
{
    let at = (pa - pa % 4096 - seg.start) as usize;
    seg.bytes.view(at, 4096)
}

// At most `most` pages from the page of an address of a segment of whole pages on.
fn pages_in(seg: &Seg, pa: u64, most: u64) -> &[u8]
    requires within { IsTrue (has_address pa seg.now) }
    requires whole { IsTrue (is_whole_pages seg.now) }
    ensures { result.now ≡ pages_in seg.now pa most }
{
    let at = (pa - pa % 4096 - seg.start) as usize;
    let pages = most.min((seg.bytes.len() - at) as u64 / 4096);
    seg.bytes.view(at, 4096 * pages as usize)
}

// The word at an address of a segment of whole pages.
#[tactic(auto, unfolding(fd_bytes::specs::Field::u64_le_at))]
fn word_in(seg: &Seg, pa: u64) -> u64
    requires aligned { pa % 8 ≡ 0 }
    requires within { IsTrue (has_address pa seg.now) }
    requires whole { IsTrue (is_whole_pages seg.now) }
    ensures { result ≡ word_in seg.now pa }
{
    seg.bytes.word((pa - seg.start) as usize)
}
