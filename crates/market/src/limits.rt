// The limits of a price.
ghost use Rattle.market.specs.Limits.{outside_limits, price_fault};
ghost use Rattle.std.specs.Prelude.{◌≡◌};
ghost use Rattle.std.specs.Result.{result_err};

use crate::fault::PriceFault;

/// The highest price of an issue, in yen.
const HIGHEST_PRICE: u32 = 800_000;

/// Whether a price lies outside 1 to 800,000 yen.
pub(crate) fn is_outside_limits(price: u32) -> bool
    ensures { result ≡ outside_limits price }
{
    !(1..=HIGHEST_PRICE).contains(&price)
}

/// Refuses a price that may not follow the former one.
pub(crate) fn check_price(former: Option<u32>, price: u32) -> Result<(), PriceFault>
    ensures { result_err result ≡ price_fault former price }
{
    if is_outside_limits(price) {
        return Err(PriceFault::OutsideLimits);
    }
    if former.is_some_and(|former| u64::from(price) > 2 * u64::from(former)) {
        return Err(PriceFault::AboveTwice);
    }
    Ok(())
}
