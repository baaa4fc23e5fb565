//! The rules of a valid image: each function answers the least place that breaks its rule.
ghost use Rattle.std.specs.Prelude.{◌≡◌, nat_le, length, sum_by};
ghost use Rattle.fd_image.specs.Image.{first_failing, end_of, kernel_end, kernel_start_of, direct_map_end, unless, missing_segment, is_whole_pages};
ghost use Rattle.fd_image.specs.Image.{ragged_segment, segment_out_of_order, segment_past_end, has_texts_within_limits, is_within_limits};
ghost use Rattle.fd_image.specs.Image.{is_range_of_pages, ragged_pair, pair_out_of_order, lies_in_segment, pair_outside, bad_wanted_page, bad_root};
ghost use Rattle.fd_image.specs.Image.{is_kernel_window, is_in_kernel_space, is_direct_map, are_apart, is_known_paging, first_breach, broken_rule};

use crate::parts::{Parts, Seg, Texts, Windows};
use fd_bytes::Arch;

const PAGE: u64 = 4096;

// Where kernel addresses begin in Sv48: the upper half of 48 bits.
const SV48_KERNEL_START: u64 = 0xffff_8000_0000_0000;

/// The first rule that an image breaks, from 1 to 15, and the least index of a segment, pair or page that
/// breaks it, or 0.
#[derive(Clone, Copy, PartialEq, Eq, Debug)]
pub struct BadImage {
    pub rule: u8,
    pub place: u64,
}

/// The first rule that the image breaks, and the least place that breaks it.
pub(crate) fn broken_rule(parts: &Parts) -> Option<BadImage>
    ensures { result ≡ broken_rule parts.now }
{
    let arch = parts.arch;
    let segs = parts.segs.as_slice();
    let avail = parts.avail.as_slice();
    let windows = &parts.windows;
    let breaches = [
        missing_segment(segs),
        ragged_segment(segs),
        segment_out_of_order(segs),
        segment_past_end(arch, segs),
        unless(is_within_limits(parts)),
        ragged_pair(avail),
        pair_out_of_order(avail),
        pair_outside(segs, avail),
        bad_wanted_page(parts.wanted.as_slice()),
        unless(parts.root % PAGE == 0),
        unless(is_kernel_window(arch, windows)),
        unless(is_in_kernel_space(parts)),
        unless(is_direct_map(arch, windows)),
        unless(are_apart(windows)),
        unless(is_known_paging(arch, parts.sv48)),
    ];
    first_breach(&breaches)
}

// The first rule that has a place; the rules are numbered from 1 on.
fn first_breach(breaches: &[Option<usize>; 15]) -> Option<BadImage>
    ensures { result ≡ first_breach 1 breaches.now }
{
    let mut rule = 1;
    for breach in breaches {
        if let Some(place) = breach {
            return Some(BadImage {
                rule,
                place: *place as u64,
            });
        }
        rule += 1;
    }
    None
}

fn unless(kept: bool) -> Option<usize>
    ensures { result ≡ unless kept }
{
    if kept { None } else { Some(0) }
}

fn end_of(seg: &Seg) -> u128
    ensures { result ≡ end_of seg.now }
{
    u128::from(seg.start) + seg.bytes.len() as u128
}

fn missing_segment(segs: &[Seg]) -> Option<usize>
    ensures { result ≡ missing_segment segs.now }
{
    unless(segs.len() != 0)
}

fn is_whole_pages(seg: &Seg) -> bool
    ensures { result ≡ is_whole_pages seg.now }
{
    let len = seg.bytes.len() as u64;
    seg.start % PAGE == 0 && len % PAGE == 0 && len != 0
}

fn ragged_segment(segs: &[Seg]) -> Option<usize>
    ensures { result ≡ ragged_segment segs.now }
{
    segs.iter().position(|seg| !is_whole_pages(seg))
}

fn segment_out_of_order(segs: &[Seg]) -> Option<usize>
    ensures { result ≡ segment_out_of_order segs.now }
{
    let mut before = 0;
    for (i, seg) in segs.iter().enumerate() {
        if u128::from(seg.start) < before {
            return Some(i);
        }
        before = end_of(seg);
    }
    None
}

fn segment_past_end(arch: Arch, segs: &[Seg]) -> Option<usize>
    ensures { result ≡ segment_past_end arch segs.now }
{
    let end = u128::from(arch.profile().physical_end);
    segs.iter().position(|seg| end_of(seg) > end)
}

fn has_texts_within_limits(texts: &Texts) -> bool
    ensures { result ≡ has_texts_within_limits texts.now }
{
    texts.host.len() <= 255
        && texts.version.len() <= 1023
        && texts.panic.len() <= 1023
        && texts.msgbuf.len() <= 1_048_576
}

fn is_within_limits(parts: &Parts) -> bool
    ensures { result ≡ is_within_limits parts.now }
{
    has_bytes_within(parts.segs.as_slice(), 1 << 30)
        && parts.segs.len() <= 64
        && parts.avail.len() <= 1024
        && parts.wanted.len() <= 262_144
        && has_texts_within_limits(&parts.texts)
}

// Whether the lengths of the segments add up to at most this number.
fn has_bytes_within(segs: &[Seg], limit: usize) -> bool
    ensures { result ≡ nat_le (sum_by (λ seg. length seg.bytes) segs.now) limit }
{
    let mut left = limit;
    for seg in segs {
        if seg.bytes.len() > left {
            return false;
        }
        left -= seg.bytes.len();
    }
    true
}

fn is_range_of_pages(pair: &(u64, u64)) -> bool
    ensures { result ≡ is_range_of_pages pair.now }
{
    pair.0 % PAGE == 0 && pair.1 % PAGE == 0 && pair.0 < pair.1
}

fn ragged_pair(avail: &[(u64, u64)]) -> Option<usize>
    ensures { result ≡ ragged_pair avail.now }
{
    if avail.is_empty() {
        Some(0)
    } else {
        first_ragged_pair(avail)
    }
}

fn first_ragged_pair(avail: &[(u64, u64)]) -> Option<usize>
    ensures { result ≡ first_failing is_range_of_pages avail.now }
{
    avail.iter().position(|pair| !is_range_of_pages(pair))
}

fn pair_out_of_order(avail: &[(u64, u64)]) -> Option<usize>
    ensures { result ≡ pair_out_of_order avail.now }
{
    let mut before = 0;
    for (i, pair) in avail.iter().enumerate() {
        if pair.0 < before {
            return Some(i);
        }
        before = pair.1;
    }
    None
}

fn lies_in_segment(segs: &[Seg], pair: &(u64, u64)) -> bool
    ensures { result ≡ lies_in_segment segs.now pair.now }
{
    segs.iter().any(|seg| seg.start <= pair.0 && u128::from(pair.1) <= end_of(seg))
}

fn pair_outside(segs: &[Seg], avail: &[(u64, u64)]) -> Option<usize>
    ensures { result ≡ pair_outside segs.now avail.now }
{
    avail.iter().position(|pair| !lies_in_segment(segs, pair))
}

fn bad_wanted_page(wanted: &[u64]) -> Option<usize>
    ensures { result ≡ bad_wanted_page wanted.now }
{
    let mut least = 0;
    for (i, page) in wanted.iter().enumerate() {
        let page = *page;
        if page % PAGE != 0 || u128::from(page) < least {
            return Some(i);
        }
        least = u128::from(page) + 1;
    }
    None
}

fn kernel_end(windows: &Windows) -> u128
    ensures { result ≡ kernel_end windows.now }
{
    u128::from(windows.kernbase) + u128::from(windows.kernspan)
}

fn is_kernel_window(arch: Arch, windows: &Windows) -> bool
    ensures { result ≡ is_kernel_window arch windows.now }
{
    let profile = arch.profile();
    windows.kernbase % profile.window_unit == 0
        && windows.kernspan % profile.window_unit == 0
        && windows.kernspan != 0
        && windows.kernspan <= profile.window_limit
        && kernel_end(windows) <= 1 << 64
}

fn is_in_kernel_space(parts: &Parts) -> bool
    ensures { result ≡ is_in_kernel_space parts.now }
{
    kernel_start(parts) <= parts.windows.kernbase
}

// The least address of a kernel window.
fn kernel_start(parts: &Parts) -> u64
    ensures { result ≡ kernel_start_of parts.now }
{
    if parts.sv48 {
        SV48_KERNEL_START
    } else {
        parts.arch.profile().kernel_start
    }
}

fn is_direct_map(arch: Arch, windows: &Windows) -> bool
    ensures { result ≡ is_direct_map arch windows.now }
{
    let profile = arch.profile();
    windows.dmapbase % PAGE == 0
        && windows.dmapend % PAGE == 0
        && windows.dmapphys % PAGE == 0
        && windows.dmapbase <= windows.dmapend
        && (profile.shifts_direct_map || windows.dmapphys == 0)
        && direct_map_end(windows) <= u128::from(profile.physical_end)
}

fn direct_map_end(windows: &Windows) -> u128
    ensures { result ≡ direct_map_end windows.now }
{
    u128::from(windows.dmapphys) + u128::from(windows.dmapend.saturating_sub(windows.dmapbase))
}

fn are_apart(windows: &Windows) -> bool
    ensures { result ≡ are_apart windows.now }
{
    let end = kernel_end(windows).min(u128::from(windows.dmapend));
    end <= u128::from(windows.kernbase.max(windows.dmapbase))
}

fn is_known_paging(arch: Arch, sv48: bool) -> bool
    ensures { result ≡ is_known_paging arch sv48 }
{
    !sv48 || matches!(arch, Arch::Riscv)
}
