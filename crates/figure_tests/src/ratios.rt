use figure::{Ratio, cover, same_rank};
use std::test::Fail;

#[test]
fn equal_ranks(rt: HostRuntime) -> Result<(), Fail> {
    let half = Ratio::new(1, 2).ok_or_else(|| Fail::new("a half"))?;
    let quarters = Ratio::new(2, 4).ok_or_else(|| Fail::new("two quarters"))?;
    let third = Ratio::new(1, 3).ok_or_else(|| Fail::new("a third"))?;
    assert!(rt; same_rank(&half, &quarters));
    assert!(rt; !same_rank(&half, &third));
    let found = cover(&[half, quarters, third], 99);
    assert!(rt;
        found == Ok(Some((0, 3))) || found == Ok(Some((1, 3))),
        "a half, with 3 not above it"
    );
    Ok(())
}

#[test]
fn limits(rt: HostRuntime) {
    assert!(rt; Ratio::new(0xffff_ffff, 0x1_0000_0000).is_some());
    assert!(rt; Ratio::new(0x1_0000_0000, 1).is_none(), "numerator");
    assert!(rt; Ratio::new(1, 0).is_none(), "denominator");
    assert!(rt; Ratio::new(1, 0x1_0000_0001).is_none(), "denominator");
}
