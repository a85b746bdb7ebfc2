use market::{PriceFault, Quote, Row, RowFault};
use std::alloc::{AllocError, Global};
use std::test::Fail;

const CODE: u32 = 101;

/// The prices as a run of one issue.
fn run_of(heap: Global, prices: &[u32]) -> Result<Vec<Quote>, AllocError> {
    prices
        .iter()
        .map(|&price| Quote { code: CODE, price })
        .collect(heap)
}

/// A run of as many prices of 1,000 yen.
fn flat_run(heap: Global, count: usize) -> Result<Vec<Quote>, AllocError> {
    let quote = Quote {
        code: CODE,
        price: 1000,
    };
    vec![in heap; quote; count]
}

/// What is wrong with a price of the run, if no row is made of it for that.
fn price_fault(heap: Global, prices: &[u32]) -> Result<Option<PriceFault>, AllocError> {
    match Row::new(heap, CODE, &run_of(heap, prices)?) {
        Err(RowFault::Price { code: CODE, fault }) => Ok(Some(fault)),
        _ => Ok(None),
    }
}

#[test]
fn limits_of_prices(rt: HostRuntime) -> Result<(), Fail> {
    let heap = rt.alloc();
    let row = Row::new(heap, CODE, &run_of(heap, &[1000, 2000, 1, 2])?)?;
    assert_eq!(rt;
        row.prices(),
        [1000, 2000, 1, 2].as_slice(),
        "twice the former passes"
    );
    assert_eq!(rt; row.code(), CODE);
    assert_eq!(rt;
        price_fault(heap, &[1000, 2001])?,
        Some(PriceFault::AboveTwice)
    );
    assert_eq!(rt;
        price_fault(heap, &[0, 5])?,
        Some(PriceFault::OutsideLimits)
    );
    assert_eq!(rt;
        price_fault(heap, &[800_000, 800_001])?,
        Some(PriceFault::OutsideLimits)
    );
    assert_eq!(rt;
        price_fault(heap, &[1, 800_001])?,
        Some(PriceFault::OutsideLimits),
        "the limits are tested first"
    );
    assert_eq!(rt;
        price_fault(heap, &[1, 3, 0])?,
        Some(PriceFault::AboveTwice),
        "the oldest fault comes"
    );
    Ok(())
}

#[test]
fn limits_of_runs(rt: HostRuntime) -> Result<(), Fail> {
    let heap = rt.alloc();
    let bad_run = Some(RowFault::Run);
    assert_eq!(rt;
        Row::new(heap, CODE, &flat_run(heap, 1)?).err(),
        bad_run,
        "one price"
    );
    assert_eq!(rt;
        Row::new(heap, CODE, &flat_run(heap, 122)?).err(),
        bad_run,
        "122 prices"
    );
    assert_eq!(rt;
        Row::new(heap, 102, &flat_run(heap, 2)?).err(),
        bad_run,
        "another issue"
    );
    let row = Row::new(heap, CODE, &flat_run(heap, 121)?)?;
    assert_eq!(rt; row.prices().len(), 121);
    assert_eq!(rt; row.ratios().len(), 120);
    assert_eq!(rt;
        Row::new(heap, 0, &[]).err(),
        Some(RowFault::Code),
        "the code is tested first"
    );
    Ok(())
}

#[test]
fn rolling_forward(rt: HostRuntime) -> Result<(), Fail> {
    let heap = rt.alloc();
    let mut row = Row::new(heap, CODE, &flat_run(heap, 121)?)?;
    assert_eq!(rt; row.test(2000), Ok(()));
    assert_eq!(rt; row.test(2001), Err(PriceFault::AboveTwice));
    assert_eq!(rt; row.roll(2001), Err(PriceFault::AboveTwice));
    assert_eq!(rt; row.roll(0), Err(PriceFault::OutsideLimits));
    assert_eq!(rt; row.newest(), 1000, "a refusal changes nothing");
    assert_eq!(rt; row.roll(1500), Ok(()));
    assert_eq!(rt; row.roll(1501), Ok(()));
    assert_eq!(rt; row.prices().len(), 121);
    assert_eq!(rt; row.newest(), 1501);
    assert!(rt; row.prices().len() == 121 && row.prices()[119] == 1500);
    Ok(())
}

#[test]
fn covering_ratios(rt: HostRuntime) -> Result<(), Fail> {
    let heap = rt.alloc();
    let mut row = Row::new(heap, CODE, &run_of(heap, &[100, 150, 75, 80])?)?;
    let covering = row.covering()?;
    assert!(rt;
        covering.ratio.numerator == 50 && covering.ratio.denominator == 100,
        "50/100"
    );
    assert_eq!(rt; covering.count, 3);
    row.roll(160)?;
    let doubled = row.covering()?;
    assert!(rt; doubled.ratio.numerator == 80 && doubled.ratio.denominator == 80);
    assert_eq!(rt; doubled.place, 3);
    assert_eq!(rt; doubled.count, 4);
    Ok(())
}
