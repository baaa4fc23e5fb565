//! Words, numbers of pages and texts of generated images, worked out by hand.
use fd_bytes::Arch;
use fd_gen::make;
use fd_image::{Image, Memory};
use std::alloc::{AllocError, Global};
use std::test::Fail;

// Whether memory has these words at these addresses.
fn has_words(image: &Image, words: &[(u64, u64)]) -> bool {
    words.iter().all(|pair| image.word(pair.0) == Some(pair.1))
}

// Whether the image of this number has these words.
fn make_has(
    alloc: Global,
    arch: Arch,
    number: u64,
    words: &[(u64, u64)],
) -> Result<bool, AllocError> {
    let image = make(alloc, arch, number)?;
    Ok(has_words(&image, words))
}

// How many pages the segments have, and how many wanted pages there are.
fn counts(image: &Image) -> [usize; 4] {
    match image.segs() {
        [tables, first, second] => [
            tables.bytes.len() / 4096,
            first.bytes.len() / 4096,
            second.bytes.len() / 4096,
            image.wanted().len(),
        ],
        _ => [0; 4],
    }
}

fn make_counts(alloc: Global, arch: Arch, number: u64) -> Result<[usize; 4], AllocError> {
    let image = make(alloc, arch, number)?;
    Ok(counts(&image))
}

// Whether the texts are those of the number 5.
fn has_texts_of_five(image: &Image) -> bool {
    let texts = image.texts();
    texts.panic.as_slice() == b"generated 5".as_slice()
        && texts.version.as_slice() == b"FreeBSD 14 generated".as_slice()
        && texts.host.as_slice() == b"gen".as_slice()
        && texts.msgbuf.as_slice().starts_with(b"%&'")
        && texts.msgbuf.as_slice().ends_with(b"678")
}

fn make_five_has_texts(alloc: Global) -> Result<bool, AllocError> {
    let image = make(alloc, Arch::Riscv, 5)?;
    Ok(has_texts_of_five(&image))
}

#[test]
fn amd64_has_its_entries_and_data(rt: HostRuntime) -> Result<(), Fail> {
    let words = [
        (0x8000_0fe0, 0x8000_1003),
        (0x8000_0000, 0),
        (0x8000_1000, 0x8000_2003),
        (0x8000_2000, 0x8000_3003),
        (0x8000_2008, 0x9000_0083),
        (0x8000_2010, 0),
        (0x8000_3000, 0x9000_0003),
        (0x8000_3008, 0x8000_0000_9000_1001),
        (0x8000_3010, 0),
        (0x8000_3030, 0xa000_0003),
        (0x8000_3060, 0xa000_6003),
        (0x8000_3068, 0),
        (0x9000_0008, 0x0000_0500_9000_0008),
        (0xa000_6ff8, 0x0000_0500_a000_6ff8),
    ];
    assert!(rt; make_has(rt.alloc(), Arch::Amd64, 5, &words)?);
    Ok(())
}

#[test]
fn arm64_has_its_entries_and_data(rt: HostRuntime) -> Result<(), Fail> {
    let words = [
        (0x8000_0000, 0x8000_1003),
        (0x8000_0008, 0),
        (0x8000_1000, 0x8000_2003),
        (0x8000_2000, 0x8000_3003),
        (0x8000_2008, 0x9000_0701),
        (0x8000_3000, 0x9000_0703),
        (0x8000_3008, 0x0020_0000_9000_1783),
        (0x8000_3010, 0),
        (0x8000_3038, 0x0020_0000_a000_1783),
        (0x8000_3068, 0),
        (0x9000_0ff8, 0x0000_0500_9000_0ff8),
    ];
    assert!(rt; make_has(rt.alloc(), Arch::Arm64, 5, &words)?);
    Ok(())
}

#[test]
fn riscv_has_its_entries_and_data(rt: HostRuntime) -> Result<(), Fail> {
    let words = [
        (0x8000_0000, 0),
        (0x8000_0800, 0x2000_0401),
        (0x8000_1000, 0x2000_0801),
        (0x8000_1008, 0x2400_00cf),
        (0x8000_1010, 0),
        (0x8000_2000, 0x2400_00cf),
        (0x8000_2008, 0x2400_0443),
        (0x8000_2010, 0),
        (0x8000_2038, 0x2800_0443),
        (0x8000_2060, 0x2800_18cf),
        (0x8000_2068, 0),
        (0xa000_0ff8, 0x0000_0500_a000_0ff8),
    ];
    assert!(rt; make_has(rt.alloc(), Arch::Riscv, 5, &words)?);
    Ok(())
}

#[test]
fn numbers_of_pages_go_with_the_number(rt: HostRuntime) -> Result<(), Fail> {
    assert!(rt; make_counts(rt.alloc(), Arch::Amd64, 0)? == [4, 4, 4, 2]);
    assert!(rt; make_counts(rt.alloc(), Arch::Arm64, 1016)? == [5, 512, 512, 172]);
    assert!(rt; make_counts(rt.alloc(), Arch::Riscv, 17401)? == [5, 512, 513, 172]);
    Ok(())
}

#[test]
fn texts_tell_the_number(rt: HostRuntime) -> Result<(), Fail> {
    assert!(rt; make_five_has_texts(rt.alloc())?);
    Ok(())
}
