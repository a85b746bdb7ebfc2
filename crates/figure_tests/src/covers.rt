use figure::{FigureFault, Yen, cover, enough_not_above};
use std::alloc::{AllocError, Global};
use std::test::Fail;

/// The yen from 1 up to `most`.
fn counted(heap: Global, most: i64) -> Result<Vec<Yen>, AllocError> {
    (1..=most).map(|value| Yen { value }).collect(heap)
}

#[test]
fn at_95_percent(rt: HostRuntime) -> Result<(), Fail> {
    assert_eq!(rt;
        cover(counted(rt.alloc(), 20)?.as_slice(), 95),
        Ok(Some((18, 19))),
        "1 to 20"
    );
    assert_eq!(rt;
        cover(counted(rt.alloc(), 19)?.as_slice(), 95),
        Ok(Some((18, 19))),
        "1 to 19"
    );
    assert_eq!(rt;
        cover(&[Yen { value: -7 }], 95),
        Ok(Some((0, 1))),
        "-7 alone"
    );
    assert_eq!(rt; cover::<Yen>(&[], 95), Ok(None), "of nothing");
    Ok(())
}

#[test]
fn at_99_percent(rt: HostRuntime) -> Result<(), Fail> {
    assert_eq!(rt;
        cover(counted(rt.alloc(), 100)?.as_slice(), 99),
        Ok(Some((98, 99))),
        "1 to 100"
    );
    assert_eq!(rt;
        cover(counted(rt.alloc(), 101)?.as_slice(), 99),
        Ok(Some((99, 100))),
        "1 to 101"
    );
    Ok(())
}

#[test]
fn refusals(rt: HostRuntime) -> Result<(), Fail> {
    let longest = counted(rt.alloc(), 4096)?;
    let too_long = counted(rt.alloc(), 4097)?;
    assert_eq!(rt; cover(longest.as_slice(), 100), Ok(Some((4095, 4096))));
    assert_eq!(rt; cover(too_long.as_slice(), 100), Err(FigureFault::Window));
    assert_eq!(rt; cover(longest.as_slice(), 0), Err(FigureFault::Percent));
    assert_eq!(rt;
        cover(too_long.as_slice(), 101),
        Err(FigureFault::Percent),
        "the percent is tested first"
    );
    assert_eq!(rt; FigureFault::Percent.number(), 27);
    assert_eq!(rt; FigureFault::Window.number(), 28);
    Ok(())
}

#[test]
fn bounded_by_the_cover(rt: HostRuntime) -> Result<(), Fail> {
    let window = counted(rt.alloc(), 20)?;
    assert_eq!(rt;
        enough_not_above(window.as_slice(), 95, &Yen { value: 19 }),
        Ok(true)
    );
    assert_eq!(rt;
        enough_not_above(window.as_slice(), 95, &Yen { value: 18 }),
        Ok(false)
    );
    assert_eq!(rt;
        enough_not_above(window.as_slice(), 95, &Yen { value: 1000 }),
        Ok(true)
    );
    assert_eq!(rt;
        enough_not_above(&[], 95, &Yen { value: -1000 }),
        Ok(true),
        "of nothing"
    );
    Ok(())
}
