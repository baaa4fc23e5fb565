use super::*;

#[test]
fn ranges_in_any_order_become_whole(rt: HostRuntime) -> Result<(), std::test::Fail> {
    let mut cover = Cover::new(rt.alloc());
    assert!(rt; cover.is_empty() && cover.whole(0));
    cover.add(8, 4)?;
    cover.add(0, 4)?;
    assert!(rt; !cover.is_empty() && !cover.whole(12));
    cover.add(2, 8)?;
    cover.add(20, 0)?;
    assert!(rt; cover.whole(12) && !cover.whole(11) && !cover.whole(13));
    cover.add(12, 4)?;
    assert!(rt; cover.whole(16));
    Ok(())
}
