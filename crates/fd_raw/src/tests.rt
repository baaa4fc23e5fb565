//! Regions of several lengths, what is written into them, and how a filling grows.
ghost use Rattle.std.specs.Prelude.{◌≡◌, IfOk};

use crate::{Filling, Region};
use std::alloc::{AllocError, Global};
use std::test::Fail;

// A region of these bytes, filled five at a time.
fn copied(alloc: Global, bytes: &[u8]) -> Result<Region, AllocError>
    ensures { IfOk result (λ region. region ≡ bytes.now) }
{
    let mut filling = Filling::with_room(alloc, bytes.len())?;
    while filling.len() < bytes.len() {
        let at = filling.len();
        let step = (bytes.len() - at).min(5);
        filling.grow_by_zeros(step);
        filling
            .view_mut(at, step)
            .copy_from_slice(&bytes[at..at + step]);
    }
    Ok(Region::of(filling))
}

// Whether a new region of this length has as many bytes, all of them zero.
fn is_zero(alloc: Global, len: usize) -> Result<bool, AllocError> {
    let region = Region::new(alloc, len)?;
    Ok(region.len() == len && region.view(0, region.len()).iter().all(|byte| *byte == 0))
}

#[test]
fn new_regions_are_zero(rt: HostRuntime) -> Result<(), Fail> {
    for len in [0, 1, 4096, 16 << 20] {
        assert!(rt; is_zero(rt.alloc(), len)?);
    }
    Ok(())
}

#[test]
fn more_than_a_block_can_have_is_refused(rt: HostRuntime) {
    assert!(rt; Region::new(rt.alloc(), 1 << 63).is_err());
    assert!(rt; Filling::with_room(rt.alloc(), usize::MAX).is_err());
}

#[test]
fn parts_and_words_are_those_of_the_list(rt: HostRuntime) -> Result<(), Fail> {
    let mut region = copied(rt.alloc(), b"0123456789abcdef")?;
    region.view_mut(9, 2).copy_from_slice(b"..");
    assert_eq!(rt; region.view(0, 16), b"012345678..bcdef".as_slice());
    assert_eq!(rt; region.view(10, 3), b".bc".as_slice());
    assert_eq!(rt; region.view(16, 0), b"".as_slice());
    assert_eq!(rt; region.word(0), 0x3736_3534_3332_3130);
    assert_eq!(rt; region.word(8), 0x6665_6463_622e_2e38);
    Ok(())
}

#[test]
fn a_filling_has_room_left(rt: HostRuntime) -> Result<(), Fail> {
    let mut filling = Filling::with_room(rt.alloc(), 6)?;
    filling.grow_by_zeros(2);
    assert!(rt; filling.len() == 2 && filling.room() == 6);
    assert!(rt; Region::of(filling).len() == 2);
    Ok(())
}
