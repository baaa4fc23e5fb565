//! Reads of one word of a vmcore, again and again.
use crate::failure::Failure;
use fd_kvm::Kvm;
use fd_site::{Site, good_name};
use std::alloc::Global;

/// How many pages of the file the reader keeps.
const CAPACITY: usize = 64;

/// What the words of so many reads of the eight bytes at a kernel address add up to, modulo 2^64.
pub fn sum_of_words<S: Site>(
    alloc: Global,
    site: &mut S,
    file: &str,
    count: u64,
    va: u64,
) -> Result<u64, Failure> {
    if !good_name(file) {
        return Err(Failure::NotWords);
    }
    let mut kvm = Kvm::open(alloc, site, file, CAPACITY)?;
    let mut sum: u64 = 0;
    for read in 0..count {
        let mut word = [0; 8];
        kvm.read(site, va, &mut word)?;
        sum = sum.wrapping_add(u64::from_le_bytes(word));
    }
    Ok(sum)
}
